//! Laws of the texts of trees. Each is the contract of an empty function.

ghost use Rattle.std.specs.Prelude.{◌≡◌, ◌↔◌, ◌⊎◌, ◌<◌, ◌≤◌, ◌++◌, List, ℕ, Err, Ok, length, take};
ghost use Rattle.ev_model.specs.Network.{IsNetwork, Network};
ghost use Rattle.ev_text.specs.Texts.{IsLonger};
ghost use Rattle.certificate_parts.specs.Limits.{most_bytes};
ghost use Rattle.certificate_parts.specs.declared.cert_text.CertText.TheVariants.{Range, Text, TooLong, Version};
ghost use Rattle.tree_text.specs.TreeIn.{BeginsLoosely, BeginsOtherVersion, IsSpelledBy, SpellsWritten, tree_in};
ghost use Rattle.tree_text.specs.TreeTexts.{tree_text};
ghost use Rattle.near_tree.specs.Ranges.{TreeFits};
ghost use Rattle.near_tree.specs.declared.proof.TreeProof.{TreeProof};
ghost use Rattle.tree_text.specs.Written.{WrittenTree, written_tree};
ghost use Rattle.tree_text.specs.WrittenRanges.{TreeIs};

/// Bytes are read as a tree exactly where they spell it: each tree in the ranges of a network has
/// one text.
pub fn texts_spell_trees()
    ensures { (g : Network) → IsNetwork g → (bytes : List ℕ) (w : WrittenTree) →
        (tree_in g bytes ≡ Ok w) ↔ SpellsWritten g bytes w }
{}

/// What `push_tree` writes of a tree in its ranges is read as that tree, where it is not too long.
pub fn written_trees_are_read()
    ensures { (g : Network) → IsNetwork g → (p : TreeProof) → TreeFits g p →
        length (tree_text (written_tree g p)) ≤ most_bytes →
        tree_in g (tree_text (written_tree g p)) ≡ Ok (written_tree g p) }
{}

/// A text means one tree: bytes are the text of no two that are in their ranges.
pub fn texts_mean_one_tree()
    ensures { (g : Network) → IsNetwork g → (bytes : List ℕ) (p q : TreeProof) →
        IsSpelledBy g bytes p → IsSpelledBy g bytes q → p ≡ q }
{}

/// What the first fault of a text tells. What stands before its place begins a text in which each
/// number is in its range by itself. However the bytes go on, they are no tree: but where a number
/// breaks a rule and ends the text, further digits may mend it, and a text that ends too early
/// begins a text in which each number is in its range by itself.
pub fn tree_faults_are_first()
    ensures range { (g : Network) → IsNetwork g → (bytes : List ℕ) (at : ℕ) →
        tree_in g bytes ≡ Err (Range at) →
        BeginsLoosely g (take at bytes) × (at ≤ length bytes) ×
        ((more : List ℕ) → (IsLonger at bytes more → ⊥) →
        (w : WrittenTree) → TreeIs g w → tree_text w ≡ bytes ++ more → ⊥) }
    ensures text { (g : Network) → IsNetwork g → (bytes : List ℕ) (at : ℕ) →
        tree_in g bytes ≡ Err (Text at) →
        BeginsLoosely g (take at bytes) × (at ≤ length bytes) ×
        (BeginsLoosely g bytes ⊎ ((more : List ℕ)
        (w : WrittenTree) → TreeIs g w → tree_text w ≡ bytes ++ more → ⊥)) }
    ensures version { (g : Network) (bytes : List ℕ) → (tree_in g bytes ≡ Err Version) ↔
        ((length bytes ≤ most_bytes) × BeginsOtherVersion bytes) }
    ensures too_long { (g : Network) (bytes : List ℕ) (len : ℕ) →
        (tree_in g bytes ≡ Err (TooLong len)) ↔
        ((most_bytes < length bytes) × (len ≡ length bytes)) }
{}

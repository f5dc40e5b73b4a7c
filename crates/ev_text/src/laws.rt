//! The laws of number texts and of a scan's answers. A law is a function without a body: what it
//! says is its contract, which is proved for all texts, numbers and places.

ghost use Rattle.std.specs.Prelude.{◌≡◌, ◌≢◌, ◌<◌, ◌≤◌, ◌++◌, ◌↔◌, [], List, ℕ, Ok, Err, decimal};
ghost use Rattle.std.specs.Fmt.{signed_decimal};
ghost use Rattle.ev_text.specs.declared.TextFault.TheVariants.{End, NotWhole, TooLarge, Word};
ghost use Rattle.ev_text.specs.Numerals.{BeginsWithNumber, IsSpelling, StandsInFront};
ghost use Rattle.ev_text.specs.Scans.{IsPrefixOf, IsProperPrefix, TakesNumber, TakesWord, past, rest_of, whole_at, word_at};

/// A number has one spelling, and it is read back.
///
/// `only`: `decimal n` is the one text of decimal digits with the value `n` and no leading zero.
/// `read_back`: where it stands at a scan's place, and then a byte that is no digit or the end,
/// each limit that is not below `n` lets it be taken.
pub fn one_spelling(n: u128)
    ensures only { (text : List ℕ) → IsSpelling n text ↔ (text ≡ decimal n) }
    ensures read_back { (limit : ℕ) (scan : List ℕ × ℕ) (rest : List ℕ) → n ≤ limit →
        BeginsWithNumber (rest_of scan) n rest →
        whole_at limit scan ≡ Ok (n, past (decimal n) scan) }
{}

/// Signed numbers with one spelling are equal.
pub fn one_signed_spelling(m: i128, n: i128)
    ensures { signed_decimal m ≡ signed_decimal n → m ≡ n }
{}

/// When `Scan::whole` gives each of its answers.
pub fn whole_answers(limit: u128)
    ensures taken { (n : ℕ) (scan after : List ℕ × ℕ) → (whole_at limit scan ≡ Ok (n, after)) ↔
        TakesNumber limit n scan after }
    ensures end { (scan : List ℕ × ℕ) → (whole_at limit scan ≡ Err (End scan.1)) ↔
        (rest_of scan ≡ []) }
    ensures not_whole { (scan : List ℕ × ℕ) → (whole_at limit scan ≡ Err (NotWhole scan.1)) ↔
        ((rest_of scan ≢ []) × ((n : ℕ) → ¬ (StandsInFront n (rest_of scan)))) }
    ensures too_large { (scan : List ℕ × ℕ) → (whole_at limit scan ≡ Err (TooLarge scan.1)) ↔
        ((n : ℕ) × StandsInFront n (rest_of scan) × (limit < n)) }
{}

/// When `Scan::word` gives each of its answers.
pub fn word_answers()
    ensures taken { (word : List ℕ) (scan after : List ℕ × ℕ) → (word_at word scan ≡ Ok after) ↔
        TakesWord word scan after }
    ensures end { (word : List ℕ) (scan : List ℕ × ℕ) → (word_at word scan ≡ Err (End scan.1)) ↔
        IsProperPrefix (rest_of scan) word }
    ensures differs { (word : List ℕ) (scan : List ℕ × ℕ) →
        (word_at word scan ≡ Err (Word scan.1)) ↔
        (¬ (IsPrefixOf word (rest_of scan)) × ¬ (IsProperPrefix (rest_of scan) word)) }
{}

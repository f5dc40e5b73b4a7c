//! Laws that say that the definitions mean what they should. Each is the contract of an empty
//! function.

ghost use Rattle.std.specs.Prelude.{◌≡◌, ℕ, List};
ghost use Rattle.ev_model.specs.Network.{Network};
ghost use Rattle.instance_reader.specs.Faults.{IsFirstFault, IsInstanceOf};
ghost use Rattle.instance_reader.specs.declared.faults.ReadFault.{ReadFault};

/// The bytes of a file mean one network or break one rule first, and not both.
pub fn bytes_mean_one_thing()
    ensures network { (bytes : List ℕ) (g h : Network)
        → IsInstanceOf bytes g → IsInstanceOf bytes h → g ≡ h }
    ensures fault { (bytes : List ℕ) (e f : ReadFault)
        → IsFirstFault bytes e → IsFirstFault bytes f → e ≡ f }
    ensures either { (bytes : List ℕ) (g : Network) (e : ReadFault)
        → IsInstanceOf bytes g → IsFirstFault bytes e → ⊥ }
{}

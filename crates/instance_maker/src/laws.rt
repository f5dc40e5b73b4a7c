//! The law that a made text is an instance, as the contract of an empty function.

ghost use Rattle.std.specs.Prelude.{◌≤◌, ℕ, List, length};
ghost use Rattle.instance_maker.specs.MadeInstance.{IsOutOfRange, made_value};
ghost use Rattle.instance_reader.specs.Faults.{IsInstanceOf, longest};
ghost use Rattle.instance_reader.specs.Values.{IsValueOf};
ghost use Rattle.instance_maker.specs.MadeContents.{made_network};

/// A text of which `serde_json` reads a made value breaks no rule of instances, and its denominator
/// is 136.
pub fn made_texts_are_instances()
    ensures { (seed customers stations : ℕ) (text : List ℕ)
        → (IsOutOfRange seed customers stations → ⊥) → length text ≤ longest
        → IsValueOf text (made_value seed customers stations)
        → IsInstanceOf text (made_network seed customers stations) }
{}

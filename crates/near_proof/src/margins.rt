//! By how much earlier a label has to be that has earned less.

ghost use Rattle.std.specs.Prelude.{◌*◌, ◌^◌, ◌≤◌, ℕ, pos, ◌+ℤ◌, ◌≤ℤ◌, IfNone, IfSome};
ghost use Rattle.fleet_model.specs.Margins.{IsMargin};

/// The least number of time units that, times the weight, make up for what is earned less; `None`
/// where none below 2^64 does.
pub fn margin(weight: u64, own: u128, theirs: u128) -> Option<u64>
    requires { weight ≤ 1 }
    ensures some { IfSome result (IsMargin weight (pos own) (pos theirs)) }
    ensures none { IfNone result ((other : ℕ) → pos theirs ≤ℤ (pos own +ℤ pos (other * weight)) →
        2 ^ 64 ≤ other) }
{
    if theirs <= own {
        return Some(0);
    }
    if weight == 0 {
        return None;
    }
    u64::try_from(theirs - own).ok()
}

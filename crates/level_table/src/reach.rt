//! How far it is home.

ghost use Rattle.std.specs.Prelude.{◌↔◌, ◌<◌, IsTrue, MatchOption};
ghost use Rattle.level_table.specs.Reach.{rank};

/// How far a place is from home.
///
/// `time` is a scaled time, `steps` the number of moves that take it.
#[derive(Clone, Copy, Debug, PartialEq, Eq)]
pub(crate) struct Reach {
    pub(crate) time: u64,
    pub(crate) steps: u32,
}

impl Reach {
    /// Whether this takes less time than what is held, or as much in fewer moves. Where nothing is
    /// held it does.
    pub(crate) fn is_nearer(self, held: Option<Reach>) -> bool
        ensures { MatchOption held (IsTrue result)
            (λ other. IsTrue result ↔ (rank self < rank other)) }
    {
        match held {
            None => true,
            Some(other) => {
                self.time < other.time || self.time == other.time && self.steps < other.steps
            }
        }
    }
}

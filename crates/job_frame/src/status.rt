//! How the program ends.

/// How the program ends. Its exit status is the variant's number, from 0 in this order.
#[derive(Clone, Copy, Debug, PartialEq, Eq)]
pub enum Status {
    /// The job was done.
    Done,
    /// No plan is feasible.
    Negative,
    /// The words name no job.
    Words,
    /// A rule is broken, and its line was put.
    Refused,
    /// A file or the output failed.
    Fault,
    /// Memory was refused.
    Memory,
    /// A budget ended the search.
    Stopped,
}

impl Status {
    ghost use Rattle.std.specs.Prelude.{◌≡◌};
    ghost use Rattle.job_frame.specs.Codes.{code_of};

    /// The exit status.
    pub fn code(self) -> u8
        ensures { result ≡ code_of self }
    {
        match self {
            Status::Done => 0,
            Status::Negative => 1,
            Status::Words => 2,
            Status::Refused => 3,
            Status::Fault => 4,
            Status::Memory => 5,
            Status::Stopped => 6,
        }
    }
}

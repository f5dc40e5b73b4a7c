//! Why bytes are no text of a plan.

use ev_text::TextFault;

/// The first broken rule of the text of a plan or of a fleet plan.
#[derive(Clone, Copy, Debug, Drop, PartialEq, Eq)]
pub enum PlanText {
    /// The first place, from the left, where the text is none of a plan.
    Bad { fault: TextFault },
    /// The text is longer than 2^26 bytes, which is tried first.
    TooLong { len: usize },
    /// Memory was refused.
    Memory,
}

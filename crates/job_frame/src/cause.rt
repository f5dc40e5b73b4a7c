//! Why an answer isn't the one that was asked for, as a value of a program.

ghost use Rattle.std.specs.Prelude.{◌≡◌, Option, Some};
ghost use Rattle.refusal_lines.specs.declared.refusal.Refusal.{Refusal};

use refusal_lines::Refusal;

/// What the first line of an answer of a program tells, where it isn't the one that was asked for.
/// Each program has causes of its own; these are in all of them.
pub trait JobCause: Copy + Drop {
    // that the words name no job
    ghost words: { Self };
    // that this rule of the files and the words is broken
    ghost refused: { Refusal → Self };

    /// The words name no job.
    fn words() -> Self
        ensures { result ≡ words };

    /// A rule of the files and the words is broken.
    fn refused(refusal: Refusal) -> Self
        ensures { result ≡ refused refusal };
}

/// Who hears why an answer isn't the one that was asked for, for who tells people what it means.
pub trait CauseListener<C> {
    // the cause that was heard last, where any was
    ghost heard: { Self → Option C };

    /// Hears the cause of the answer that comes next, before anything is written or put.
    fn hear(&mut self, cause: C)
        ensures { heard self.new ≡ Some cause };
}

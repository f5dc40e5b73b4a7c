//! Who is told by what times are scaled.

/// Who is told by what the times of a long step are scaled, for who tells people how far it is.
/// Nothing is promised of it.
pub trait ScaleWatcher {
    /// Is told the denominator before the step begins.
    fn begin(&mut self, denominator: u64);
}

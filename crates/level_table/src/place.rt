//! Where the vehicle is.

ghost use Rattle.std.specs.Prelude.{◌≡◌, ◌↔◌, ◌+◌, IsTrue};
ghost use Rattle.level_table.specs.Entries.{entry_in_cell};

/// A place from which the vehicle goes on along its route.
///
/// `passed` is the index in the route of the last node that was served. `slot` is 0 at that node,
/// and `j + 1` at the station number `j`, inserted after it. `level` is the charge, in units of
/// charge. Where the vehicle is `plugged` in, it charges on without paying the time to plug in.
#[derive(Clone, Copy, Debug, PartialEq, Eq)]
pub(crate) struct Place {
    pub(crate) passed: usize,
    pub(crate) slot: usize,
    pub(crate) level: u64,
    pub(crate) plugged: bool,
}

impl Place {
    /// Whether nothing of the route was driven yet.
    pub(crate) fn is_start(self) -> bool
        ensures { IsTrue result ↔ (self.passed + self.slot ≡ 0) }
    {
        self.passed == 0 && self.slot == 0
    }

    /// Which of the two entries of its cell stands for the place.
    pub(crate) fn entry(self) -> usize
        ensures { result ≡ entry_in_cell self.plugged }
    {
        if self.plugged { 0 } else { 1 }
    }
}

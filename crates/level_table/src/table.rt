//! The table of how far home is from each place, filled until no move makes it nearer.
//!
//! Label correcting over the places on the way, from the end of the route backwards: the exact
//! counterpart at whole levels of the labels of Froger, Mendoza, Jabali and Laporte (2019).

ghost use Rattle.std.specs.Prelude.{◌≡◌, ◌+◌, ◌*◌, ◌<◌, ◌≤◌, false, IfOk, IsTrue, None, replicate};
ghost use Rattle.ev_model.specs.Network.{scaled_limit};
ghost use Rattle.level_table.specs.Places.{entry_count};
ghost use Rattle.level_table.specs.Table.{IsClosed, IsClosedAt, IsTable, total_rank};

use crate::reach::Reach;
use crate::trip::Trip;
use std::alloc::{AllocError, Global};

impl<'a> Trip<'a> {
    /// A table in which each entry says how far home is from its place, by the nearest way within
    /// the limit.
    pub(crate) fn filled_table(&self, alloc: Global) -> Result<Vec<Option<Reach>>, AllocError>
        ensures table { IfOk result (λ v. IsTable self.now.network self.now.route v.items) }
        ensures closed { IfOk result (λ v. IsClosed self.now.network self.now.route v.items
            0 (entry_count self.now.network self.now.route)) }
    {
        let mut table = self.empty_table(alloc)?;
        self.settle_layers(&mut table);
        self.settle(&mut table, 0, self.entries());
        Ok(table)
    }

    /// A table that knows home alone.
    fn empty_table(&self, alloc: Global) -> Result<Vec<Option<Reach>>, AllocError>
        ensures { IfOk result (λ v. IsTable self.now.network self.now.route v.items) }
    {
        let mut table = vec![in alloc; None; self.entries() + 2 * self.levels()]?;
        self.mark_home(&mut table);
        Ok(table)
    }

    /// Marks the entries for the end of the route, where nothing is left of the way.
    fn mark_home(&self, entries: &mut [Option<Reach>])
        requires empty { entries.old ≡ replicate
            (entry_count self.now.network self.now.route + (self.now.network.capacity + 1) * 2)
            None }
        ensures { IsTable self.now.network self.now.route entries.new }
    {
        for index in self.entries()..entries.len() {
            entries[index] = Some(Reach { time: 0, steps: 0 });
        }
    }

    /// Settles one node of the route after another, from the last, since moves lead only to later
    /// nodes or stay.
    fn settle_layers(&self, entries: &mut [Option<Reach>])
        requires table { IsTable self.now.network self.now.route entries.old }
        ensures { IsTable self.now.network self.now.route entries.new }
    {
        let layer = self.slots() * self.levels() * 2;
        for passed in (0..self.arcs()).rev() {
            self.settle(entries, passed * layer, (passed + 1) * layer);
        }
    }

    /// Improves the entries from one number up to another until none of them can be improved.
    fn settle(&self, entries: &mut [Option<Reach>], from: usize, end: usize)
        requires end { end ≤ entry_count self.now.network self.now.route }
        requires table { IsTable self.now.network self.now.route entries.old }
        ensures table { IsTable self.now.network self.now.route entries.new }
        ensures closed { IsClosed self.now.network self.now.route entries.new from end }
    {
        while self.sweep(entries, from, end) {}
    }

    /// Improves each of the entries from one number up to another once, the last first. It tells
    /// whether any changed.
    fn sweep(&self, entries: &mut [Option<Reach>], from: usize, end: usize) -> bool
        requires end { end ≤ entry_count self.now.network self.now.route }
        requires table { IsTable self.now.network self.now.route entries.old }
        ensures table { IsTable self.now.network self.now.route entries.new }
        ensures changed { IsTrue result → total_rank (scaled_limit self.now.network) entries.new
            < total_rank (scaled_limit self.now.network) entries.old }
        ensures closed { result ≡ false →
            IsClosed self.now.network self.now.route entries.new from end }
    {
        let mut changed = false;
        for index in (from..end).rev() {
            if self.improve(entries, index) {
                changed = true;
            }
        }
        changed
    }

    /// Takes the nearest way home over the moves from an entry's place, where it is nearer than
    /// what the entry holds. It tells whether the entry changed.
    fn improve(&self, entries: &mut [Option<Reach>], index: usize) -> bool
        requires cell { index < entry_count self.now.network self.now.route }
        requires table { IsTable self.now.network self.now.route entries.old }
        ensures table { IsTable self.now.network self.now.route entries.new }
        ensures changed { IsTrue result → total_rank (scaled_limit self.now.network) entries.new
            < total_rank (scaled_limit self.now.network) entries.old }
        ensures same { result ≡ false → entries.new ≡ entries.old }
        ensures closed { result ≡ false →
            IsClosedAt self.now.network self.now.route entries.new index }
    {
        let Some(offer) = self.best(entries, self.place_of(index)) else {
            return false;
        };
        if !offer.reach.is_nearer(entries[index]) {
            return false;
        }
        entries[index] = Some(offer.reach);
        true
    }
}

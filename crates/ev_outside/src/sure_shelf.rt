//! Named files in memory that never fail, for tests.
ghost use Rattle.std.specs.Prelude.{◌≡◌, ◌↔◌, ◌++◌, ◌∷◌, ℕ, [], Some, None, OnOk, OnErr, IfSome, IsErrOf, IsNone};
ghost use Rattle.ev_outside.specs.Counts.{Rose};
ghost use Rattle.ev_outside.specs.Shelf.{AppendsFile, CountsNeverFall, CountsStay, HoldsUnder, KeepsOthers};
ghost use Rattle.ev_outside.specs.Sure.{no_files, sure_files, sure_state, without_faults};
ghost use Rattle.ev_text.specs.Scans.{IsPrefixOf};

use super::memory_shelf::MemoryShelf;
use super::shelf::{Shelf, ShelfFault};
use std::alloc::{AllocError, Global};

/// Named files in memory. All counts are always 0, so no call is answered `Failed`; a name that
/// isn't there has no bytes.
#[derive(Drop)]
pub struct SureShelf {
    files: MemoryShelf,
}

impl SureShelf {
    /// No files.
    pub fn new(alloc: Global) -> SureShelf
        ensures { sure_state result ≡ without_faults no_files }
    {
        SureShelf {
            files: MemoryShelf::new(alloc, Vec::new(alloc)),
        }
    }

    /// Leaves exactly these bytes under the name. Every other name holds what it held. No name
    /// changes where memory is refused.
    pub fn set(&mut self, name: &str, bytes: &[u8]) -> Result<(), AllocError>
        ensures bytes { OnOk result (sure_files self.new name.now ≡ Some bytes.now) }
        ensures others { OnOk result
            (KeepsOthers name.now (Some (sure_files self.old)) (Some (sure_files self.new))) }
        ensures err { OnErr result (sure_state self.new ≡ sure_state self.old) }
    {
        self.files.set(name, bytes)
    }

    /// The bytes under the name. None comes exactly where the name isn't there.
    pub fn get(&self, name: &str) -> Option<&[u8]>
        ensures none { IsNone result ↔ IsNone (sure_files self.now name.now) }
        ensures some { IfSome result (λ bytes. sure_files self.now name.now ≡ Some bytes.now) }
    {
        self.files.get(name)
    }
}

impl Shelf for SureShelf {
    ghost use Rattle.ev_outside.specs.Sure.{sure_state};

    ghost state = { sure_state };

    fn read(&mut self, name: &str, most: usize, into: &mut Vec<u8>) -> Result<(), ShelfFault>
        ensures bytes { OnOk result (AppendsFile (sure_state self.old).files name.now most
            into.old.items into.new.items) }
        ensures unchanged { self.new ≡ self.old }
        ensures never_failed { IsErrOf result ShelfFault.Failed → ⊥ }
        ensures unread { OnErr result (into.new.items ≡ into.old.items) }
    {
        let Some(bytes) = self.files.get(name) else {
            return Ok(());
        };
        let count = most.min(bytes.len());
        match into.extend_from_slice(&bytes[..count]) {
            Ok(()) => Ok(()),
            Err(_) => Err(ShelfFault::Memory),
        }
    }

    fn write(&mut self, name: &str, bytes: &[u8]) -> Result<(), ShelfFault>
        ensures bytes { OnOk result (HoldsUnder (sure_state self.new).files name.now bytes.now) }
        ensures others { KeepsOthers name.now (sure_state self.old).files
            (sure_state self.new).files }
        ensures never_failed { IsErrOf result ShelfFault.Failed → ⊥ }
        ensures memory { OnErr result (sure_state self.new ≡ sure_state self.old) }
    {
        match self.files.set(name, bytes) {
            Ok(()) => Ok(()),
            Err(_) => Err(ShelfFault::Memory),
        }
    }

    fn ask_to_write(&mut self, _name: &str) -> Result<(), ShelfFault>
        ensures unchanged { self.new ≡ self.old }
        ensures never_failed { result ≡ Ok tt }
    {
        Ok(())
    }
}

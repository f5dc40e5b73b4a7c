//! Named files of a system.
ghost use Rattle.std.specs.Prelude.{◌≡◌, ◌≤◌, false, true, OnOk, OnErr, IsErrOf};
ghost use Rattle.ev_outside.specs.Counts.{CountsOne, Rose};
ghost use Rattle.ev_text.specs.Scans.{IsPrefixOf};
ghost use Rattle.ev_outside.specs.Shelf.{AppendsFile, CountsNeverFall, CountsStay, HasAsked, HoldsUnder, KeepsOthers};
ghost use Rattle.ev_outside.specs.Storage.{files_of, shelf_of};

use super::shelf::{Shelf, ShelfFault};
use super::storage::Storage;
use super::streams::{read_named, write_named};
use super::system::SystemFiles;
use std::alloc::Global;
use std::rt::Files;

/// The files of a storage as a shelf. All bytes are read and written, once and in order. One count,
/// that of the storage, stands for all reads and writes of all names.
#[derive(Drop)]
pub struct StorageShelf<S: Storage> {
    storage: S,
}

/// The files of the system as a shelf.
pub type FileShelf<'a, R> = StorageShelf<SystemFiles<'a, R>>;

impl<'a, R: Files> StorageShelf<SystemFiles<'a, R>> {
    /// The files that the runtime reaches, whose files can be cloned. No call has failed yet. The
    /// memory is for the name of a file that people are told.
    pub fn new(alloc: Global, rt: &'a R) -> Self
        ensures failed { result.storage.failed ≡ 0 }
    {
        StorageShelf::over(SystemFiles::new(alloc, rt))
    }
}

impl<S: Storage> StorageShelf<S> {
    /// The files that the storage reaches.
    pub fn over(storage: S) -> Self
        ensures { result.storage ≡ storage }
    {
        StorageShelf { storage }
    }

    /// The storage.
    pub fn storage(&self) -> &S
        ensures { result.now ≡ self.now.storage }
    {
        &self.storage
    }
}

impl<S: Storage> Shelf for StorageShelf<S> {
    ghost writes_take_memory = { false };

    ghost state = { λ shelf. shelf_of (S.told shelf.storage) (S.failed shelf.storage)
        (S.asked shelf.storage) };

    fn read(&mut self, name: &str, most: usize, into: &mut Vec<u8>) -> Result<(), ShelfFault>
        ensures bytes { OnOk result
            (AppendsFile (files_of (S.told self.old.storage)) name.now most
            into.old.items into.new.items) }
        ensures prefix { OnErr result (IsPrefixOf into.old.items into.new.items) }
        ensures files { files_of (S.told self.new.storage) ≡ files_of (S.told self.old.storage) }
        ensures failed { IsErrOf result ShelfFault.Failed →
            Rose (S.failed self.old.storage) (S.failed self.new.storage) }
        ensures falls { CountsNeverFall
            (shelf_of (S.told self.old.storage) (S.failed self.old.storage)
            (S.asked self.old.storage))
            (shelf_of (S.told self.new.storage) (S.failed self.new.storage)
            (S.asked self.new.storage)) }
        ensures stays { (IsErrOf result ShelfFault.Failed → ⊥) → CountsStay
            (shelf_of (S.told self.old.storage) (S.failed self.old.storage)
            (S.asked self.old.storage))
            (shelf_of (S.told self.new.storage) (S.failed self.new.storage)
            (S.asked self.new.storage)) }
        ensures asked { HasAsked name.now (S.asked self.new.storage) }

        // `Failed` comes exactly where a call of the storage failed.
        ensures counted { IsErrOf result ShelfFault.Failed →
            CountsOne (S.failed self.old.storage) (S.failed self.new.storage) }
        ensures uncounted { (IsErrOf result ShelfFault.Failed → ⊥) →
            S.failed self.new.storage ≡ S.failed self.old.storage }
        ensures closed { S.is_open self.new.storage ≡ false }
    {
        let answer = read_named(&mut self.storage, name, most, into);
        self.storage.close();
        answer
    }

    fn write(&mut self, name: &str, bytes: &[u8]) -> Result<(), ShelfFault>
        ensures bytes { OnOk result
            (HoldsUnder (files_of (S.told self.new.storage)) name.now bytes.now) }
        ensures others { KeepsOthers name.now (files_of (S.told self.old.storage))
            (files_of (S.told self.new.storage)) }
        ensures memory { IsErrOf result ShelfFault.Memory →
            files_of (S.told self.new.storage) ≡ files_of (S.told self.old.storage) }
        ensures failed { IsErrOf result ShelfFault.Failed →
            Rose (S.failed self.old.storage) (S.failed self.new.storage) }
        ensures falls { CountsNeverFall
            (shelf_of (S.told self.old.storage) (S.failed self.old.storage)
            (S.asked self.old.storage))
            (shelf_of (S.told self.new.storage) (S.failed self.new.storage)
            (S.asked self.new.storage)) }
        ensures stays { (IsErrOf result ShelfFault.Failed → ⊥) → CountsStay
            (shelf_of (S.told self.old.storage) (S.failed self.old.storage)
            (S.asked self.old.storage))
            (shelf_of (S.told self.new.storage) (S.failed self.new.storage)
            (S.asked self.new.storage)) }
        ensures asked { HasAsked name.now (S.asked self.new.storage) }

        // `Failed` comes exactly where a call of the storage failed.
        ensures counted { IsErrOf result ShelfFault.Failed →
            CountsOne (S.failed self.old.storage) (S.failed self.new.storage) }
        ensures uncounted { (IsErrOf result ShelfFault.Failed → ⊥) →
            S.failed self.new.storage ≡ S.failed self.old.storage }
        ensures closed { S.is_open self.new.storage ≡ false }
        ensures never_memory { IsErrOf result ShelfFault.Memory → ⊥ }

        // The storage kept the file behind its last write.
        ensures kept { OnOk result (S.is_kept self.new.storage ≡ true) }
    {
        let answer = write_named(&mut self.storage, name, bytes);
        self.storage.close();
        Ok(answer?)
    }

    fn ask_to_write(&mut self, name: &str) -> Result<(), ShelfFault>
        ensures files { files_of (S.told self.new.storage) ≡ files_of (S.told self.old.storage) }
        ensures failed { IsErrOf result ShelfFault.Failed →
            Rose (S.failed self.old.storage) (S.failed self.new.storage) }
        ensures falls { CountsNeverFall
            (shelf_of (S.told self.old.storage) (S.failed self.old.storage)
            (S.asked self.old.storage))
            (shelf_of (S.told self.new.storage) (S.failed self.new.storage)
            (S.asked self.new.storage)) }
        ensures stays { (IsErrOf result ShelfFault.Failed → ⊥) → CountsStay
            (shelf_of (S.told self.old.storage) (S.failed self.old.storage)
            (S.asked self.old.storage))
            (shelf_of (S.told self.new.storage) (S.failed self.new.storage)
            (S.asked self.new.storage)) }
        ensures asked { HasAsked name.now (S.asked self.new.storage) }

        // `Failed` comes exactly where the call of the storage failed.
        ensures counted { IsErrOf result ShelfFault.Failed →
            CountsOne (S.failed self.old.storage) (S.failed self.new.storage) }
        ensures uncounted { (IsErrOf result ShelfFault.Failed → ⊥) →
            S.failed self.new.storage ≡ S.failed self.old.storage }
        ensures never_memory { IsErrOf result ShelfFault.Memory → ⊥ }
    {
        Ok(self.storage.ask_to_write(name)?)
    }
}

//! Named files in memory, for tests.
ghost use Rattle.std.specs.Prelude.{◌≡◌, ◌⊎◌, ◌↔◌, ◌++◌, ◌∷◌, [], ℕ, List, Option, Some, None, map, OnOk, OnErr, IfSome, IfOk, IsErrOf, IsNone, IsSome, string_bytes};
ghost use Rattle.ev_outside.specs.Counts.{one_more, Rose};
ghost use Rattle.ev_text.specs.Scans.{IsPrefixOf};
ghost use Rattle.ev_outside.specs.Shelf.{Files, AppendsFile, CountsNeverFall, CountsStay, HoldsUnder, KeepsOthers};

use super::shelf::{Shelf, ShelfFault};
use std::alloc::{AllocError, Global};
use std::collections::BTreeMap;

/// Named files in memory, whose calls fail where they are told to, and where a name that isn't
/// there is read.
///
/// Its calls of `read`, `write` and `ask_to_write` are numbered together from 0; a call that was
/// refused memory isn't counted. The count stops at its last value, 2^64 - 1.
#[derive(Drop)]
pub struct MemoryShelf {
    files: BTreeMap<String, Vec<u8>>,
    failed_reads: Vec<String>,
    failed_writes: Vec<String>,
    calls: u64,
    fails: Vec<u64>,
}

impl MemoryShelf {
    ghost use Rattle.ev_outside.specs.MemoryShelf.{empty_with, state_of, ChangesFile};

    /// An empty shelf whose calls with the numbers in `fails` will fail.
    pub fn new(alloc: Global, fails: Vec<u64>) -> MemoryShelf
        ensures { state_of result ≡ empty_with fails.items }
    {
        MemoryShelf {
            files: BTreeMap::new(alloc),
            failed_reads: Vec::new(alloc),
            failed_writes: Vec::new(alloc),
            calls: 0,
            fails,
        }
    }

    /// Leaves exactly these bytes under the name. It is no call that is counted or fails.
    pub fn set(&mut self, name: &str, bytes: &[u8]) -> Result<(), AllocError>
        ensures ok { OnOk result
            (ChangesFile name.now bytes.now (state_of self.old) (state_of self.new)) }
        ensures err { OnErr result (state_of self.new ≡ state_of self.old) }
    {
        let alloc = *self.fails.allocator();
        let name = String::from_str(alloc, name)?;
        let bytes = Vec::from_slice(alloc, bytes)?;
        self.files.insert(name, bytes)?;
        Ok(())
    }

    /// The bytes under the name. None comes exactly where the name isn't there.
    pub fn get(&self, name: &str) -> Option<&[u8]>
        ensures none { IsNone result ↔ IsNone ((state_of self.now).files name.now) }
        ensures some { IfSome result
            (λ bytes. (state_of self.now).files name.now ≡ Some bytes.now) }
    {
        match self.files.get(name) {
            Some(bytes) => Some(bytes.as_slice()),
            None => None,
        }
    }
}

impl MemoryShelf {
    ghost use Rattle.std.specs.Prelude.{◌≡◌, ◌++◌, ◌∷◌, []};
    ghost use Rattle.ev_outside.specs.Counts.{Rose};
    ghost use Rattle.ev_outside.specs.Shelf.{CountsStay};
    ghost use Rattle.ev_outside.specs.MemoryShelf.{read_failed, state_of, told_by, write_failed};

    /// Counts a read of this name that fails, and answers why the call is refused.
    fn refuse_read(&mut self, name: &str) -> ShelfFault
        ensures failed { result ≡ ShelfFault.Failed
            → state_of self.new ≡ read_failed name.now (state_of self.old) }
        ensures rose { result ≡ ShelfFault.Failed
            → Rose ((told_by self.old).failed_reads name.now)
            ((told_by self.new).failed_reads name.now) }
        ensures files { (state_of self.new).files ≡ (state_of self.old).files }
        ensures memory { result ≡ ShelfFault.Memory → state_of self.new ≡ state_of self.old }
        ensures stays { (result ≡ ShelfFault.Failed → ⊥)
            → CountsStay (told_by self.old) (told_by self.new) }
    {
        match add_name(&mut self.failed_reads, name) {
            Ok(()) => {
                self.calls = self.calls.saturating_add(1);
                ShelfFault::Failed
            }
            Err(_) => ShelfFault::Memory,
        }
    }

    /// Counts a write of this name that fails, and answers why the call is refused.
    fn refuse_write(&mut self, name: &str) -> ShelfFault
        ensures failed { result ≡ ShelfFault.Failed
            → state_of self.new ≡ write_failed name.now (state_of self.old) }
        ensures rose { result ≡ ShelfFault.Failed
            → Rose ((told_by self.old).failed_writes name.now)
            ((told_by self.new).failed_writes name.now) }
        ensures files { (state_of self.new).files ≡ (state_of self.old).files }
        ensures memory { result ≡ ShelfFault.Memory → state_of self.new ≡ state_of self.old }
        ensures stays { (result ≡ ShelfFault.Failed → ⊥)
            → CountsStay (told_by self.old) (told_by self.new) }
    {
        match add_name(&mut self.failed_writes, name) {
            Ok(()) => {
                self.calls = self.calls.saturating_add(1);
                ShelfFault::Failed
            }
            Err(_) => ShelfFault::Memory,
        }
    }
}

/// Adds a name to a list of names.
fn add_name(names: &mut Vec<String>, name: &str) -> Result<(), AllocError>
    ensures ok { OnOk result
        (map (λ listed. string_bytes listed) names.new.items
        ≡ map (λ listed. string_bytes listed) names.old.items ++ name.now ∷ []) }
    ensures err { OnErr result (names.new.items ≡ names.old.items) }
{
    let copy = String::from_str(*names.allocator(), name)?;
    names.push(copy)?;
    Ok(())
}

impl Shelf for MemoryShelf {
    ghost use Rattle.std.specs.Prelude.{◌≡◌, ◌⊎◌, ◌++◌, ◌∷◌, [], Some};
    ghost use Rattle.std.specs.Prelude.{OnOk, OnErr, IsErrOf, IsNone, IsSome};
    ghost use Rattle.ev_outside.specs.Counts.{one_more, Rose};
    ghost use Rattle.ev_text.specs.Scans.{IsPrefixOf};
    ghost use Rattle.ev_outside.specs.Shelf.{AppendsFile, CountsNeverFall, CountsStay};
    ghost use Rattle.ev_outside.specs.Shelf.{HoldsUnder, KeepsOthers};
    ghost use Rattle.ev_outside.specs.MemoryShelf.{one_call_more, state_of, told_by};
    ghost use Rattle.ev_outside.specs.MemoryShelf.{read_failed, write_failed};
    ghost use Rattle.ev_outside.specs.MemoryShelf.{IsNextToFail, ChangesFile};

    ghost state = { told_by };

    fn read(&mut self, name: &str, most: usize, into: &mut Vec<u8>) -> Result<(), ShelfFault>
        ensures bytes { OnOk result
            (AppendsFile (told_by self.old).files name.now most into.old.items into.new.items) }
        ensures prefix { OnErr result (IsPrefixOf into.old.items into.new.items) }
        ensures files { (told_by self.new).files ≡ (told_by self.old).files }
        ensures failed { IsErrOf result ShelfFault.Failed
            → Rose ((told_by self.old).failed_reads name.now)
            ((told_by self.new).failed_reads name.now) }
        ensures falls { CountsNeverFall (told_by self.old) (told_by self.new) }
        ensures stays { (IsErrOf result ShelfFault.Failed → ⊥)
            → CountsStay (told_by self.old) (told_by self.new) }

        // Exactly when this shelf refuses, and what it counts.
        ensures answered { OnOk result ((IsNextToFail (state_of self.old) → ⊥)
            × IsSome ((state_of self.old).files name.now)
            × (state_of self.new ≡ one_call_more (state_of self.old))) }
        ensures refused { IsErrOf result ShelfFault.Failed
            → (IsNextToFail (state_of self.old) ⊎ IsNone ((state_of self.old).files name.now))
            × (state_of self.new ≡ read_failed name.now (state_of self.old)) }
        ensures memory { IsErrOf result ShelfFault.Memory → state_of self.new ≡ state_of self.old }
        ensures unread { OnErr result (into.new.items ≡ into.old.items) }
    {
        if self.fails.contains(&self.calls) {
            return Err(self.refuse_read(name));
        }
        let Some(bytes) = self.files.get(name) else {
            return Err(self.refuse_read(name));
        };
        let count = most.min(bytes.len());
        if into.extend_from_slice(&bytes[..count]).is_err() {
            return Err(ShelfFault::Memory);
        }
        self.calls = self.calls.saturating_add(1);
        Ok(())
    }

    /// Leaves exactly these bytes under the name. A call that is to fail changes no name.
    fn write(&mut self, name: &str, bytes: &[u8]) -> Result<(), ShelfFault>
        ensures bytes { OnOk result (HoldsUnder (told_by self.new).files name.now bytes.now) }
        ensures others { KeepsOthers name.now (told_by self.old).files (told_by self.new).files }
        ensures memory { IsErrOf result ShelfFault.Memory
            → (told_by self.new).files ≡ (told_by self.old).files }
        ensures failed { IsErrOf result ShelfFault.Failed
            → Rose ((told_by self.old).failed_writes name.now)
            ((told_by self.new).failed_writes name.now) }
        ensures falls { CountsNeverFall (told_by self.old) (told_by self.new) }
        ensures stays { (IsErrOf result ShelfFault.Failed → ⊥)
            → CountsStay (told_by self.old) (told_by self.new) }

        // Exactly when this shelf refuses, and what it counts.
        ensures answered { OnOk result ((IsNextToFail (state_of self.old) → ⊥)
            × ChangesFile name.now bytes.now (one_call_more (state_of self.old))
            (state_of self.new)) }
        ensures refused { IsErrOf result ShelfFault.Failed → IsNextToFail (state_of self.old)
            × (state_of self.new ≡ write_failed name.now (state_of self.old)) }
        ensures unchanged { IsErrOf result ShelfFault.Memory
            → state_of self.new ≡ state_of self.old }
    {
        if self.fails.contains(&self.calls) {
            return Err(self.refuse_write(name));
        }
        match self.set(name, bytes) {
            Ok(()) => {
                self.calls = self.calls.saturating_add(1);
                Ok(())
            }
            Err(_) => Err(ShelfFault::Memory),
        }
    }

    fn ask_to_write(&mut self, name: &str) -> Result<(), ShelfFault>
        ensures files { (told_by self.new).files ≡ (told_by self.old).files }
        ensures failed { IsErrOf result ShelfFault.Failed
            → Rose ((told_by self.old).failed_writes name.now)
            ((told_by self.new).failed_writes name.now) }
        ensures falls { CountsNeverFall (told_by self.old) (told_by self.new) }
        ensures stays { (IsErrOf result ShelfFault.Failed → ⊥)
            → CountsStay (told_by self.old) (told_by self.new) }

        // Exactly when this shelf refuses, and what it counts.
        ensures answered { OnOk result ((IsNextToFail (state_of self.old) → ⊥)
            × (state_of self.new ≡ one_call_more (state_of self.old))) }
        ensures refused { IsErrOf result ShelfFault.Failed → IsNextToFail (state_of self.old)
            × (state_of self.new ≡ write_failed name.now (state_of self.old)) }
        ensures unchanged { IsErrOf result ShelfFault.Memory
            → state_of self.new ≡ state_of self.old }
    {
        if self.fails.contains(&self.calls) {
            return Err(self.refuse_write(name));
        }
        self.calls = self.calls.saturating_add(1);
        Ok(())
    }
}

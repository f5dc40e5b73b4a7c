//! Loops over the calls of a system, which may take or give a part of what they are asked for.
ghost use Rattle.std.specs.Prelude.{◌≡◌, ◌+◌, ◌++◌, ◌≤◌, List, ℕ, take, length, OnOk, OnErr, IfSome, IsErrOf, MatchResult, true};
ghost use Rattle.ev_text.specs.Scans.{IsPrefixOf};
ghost use Rattle.ev_outside.specs.Counts.{CountsOne, IsCounted};
ghost use Rattle.ev_outside.specs.Shelf.{AppendsFile, HasAsked, HoldsUnder, KeepsOthers};
ghost use Rattle.ev_outside.specs.Storage.{files_of, rest_of};

use super::shelf::ShelfFault;
use super::storage::{CallFailed, Storage, Stream};
use std::alloc::AllocError;

/// The most bytes that one read asks for.
const CHUNK: usize = 4096;

/// Opens the file, and appends what it gives, or its first `most` bytes.
pub(crate) fn read_named<S: Storage>(
    storage: &mut S,
    name: &str,
    most: usize,
    into: &mut Vec<u8>,
) -> Result<(), ShelfFault>
    ensures bytes { OnOk result (AppendsFile (files_of (S.told storage.old)) name.now most
        into.old.items into.new.items) }
    ensures prefix { OnErr result (IsPrefixOf into.old.items into.new.items) }
    ensures files { files_of (S.told storage.new) ≡ files_of (S.told storage.old) }
    ensures failed { IsErrOf result ShelfFault.Failed →
        CountsOne (S.failed storage.old) (S.failed storage.new) }
    ensures stays { (IsErrOf result ShelfFault.Failed → ⊥) →
        S.failed storage.new ≡ S.failed storage.old }
    ensures asked { HasAsked name.now (S.asked storage.new) }
{
    storage.open(name)?;
    read_up_to(storage, most, into)
}

/// Makes the file, writes all the bytes into it, in order, and sees that they are kept.
pub(crate) fn write_named<S: Storage>(
    storage: &mut S,
    name: &str,
    bytes: &[u8],
) -> Result<(), CallFailed>
    ensures bytes { OnOk result (HoldsUnder (files_of (S.told storage.new)) name.now bytes.now) }
    ensures kept { OnOk result (S.is_kept storage.new ≡ true) }
    ensures others { KeepsOthers name.now (files_of (S.told storage.old))
        (files_of (S.told storage.new)) }
    ensures counts { IsCounted result (S.failed storage.old) (S.failed storage.new) }
    ensures asked { HasAsked name.now (S.asked storage.new) }
{
    storage.create(name)?;
    write_whole(storage, bytes)?;
    storage.keep()
}

/// Appends what the open file still gives, or its first `most` bytes.
pub(crate) fn read_up_to<S: Storage>(
    storage: &mut S,
    most: usize,
    into: &mut Vec<u8>,
) -> Result<(), ShelfFault>
    ensures bytes { OnOk result
        (IfSome (rest_of (S.told storage.old))
        (λ rest. into.new.items ≡ into.old.items ++ take most rest)) }
    ensures prefix { IsPrefixOf into.old.items into.new.items }
    ensures most { length into.new.items ≤ length into.old.items + most }
    ensures files { files_of (S.told storage.new) ≡ files_of (S.told storage.old) }
    ensures failed { IsErrOf result ShelfFault.Failed →
        CountsOne (S.failed storage.old) (S.failed storage.new) }
    ensures stays { (IsErrOf result ShelfFault.Failed → ⊥) →
        S.failed storage.new ≡ S.failed storage.old }
    ensures asked { S.asked storage.new ≡ S.asked storage.old }
{
    let mut chunk = [0u8; CHUNK];
    let mut left = most;
    while left > 0 {
        let wanted = left.min(CHUNK);
        match storage.read(&mut chunk[..wanted]) {
            Ok(0) => return Ok(()),
            Ok(count) => {
                if let Err(AllocError) = into.extend_from_slice(&chunk[..count]) {
                    return Err(ShelfFault::Memory);
                }
                left -= count;
            }
            Err(CallFailed) => return Err(ShelfFault::Failed),
        }
    }
    Ok(())
}

/// Writes all the bytes, in order.
pub(crate) fn write_whole<S: Stream>(stream: &mut S, bytes: &[u8]) -> Result<(), CallFailed>
    ensures takes { MatchResult result (λ _. S.takes stream.old bytes.now stream.new)
        (λ _. (part : List ℕ) × IsPrefixOf part bytes.now × S.takes stream.old part stream.new) }
    ensures counts { IsCounted result (S.failed stream.old) (S.failed stream.new) }
    ensures asked { S.asked stream.new ≡ S.asked stream.old }
{
    let mut at = 0;
    while at < bytes.len() {
        match stream.write(&bytes[at..]) {
            Ok(count) => at += count,
            Err(CallFailed) => return Err(CallFailed),
        }
    }
    Ok(())
}

//! The first steps of each job on a fleet of several kinds of vehicles: the instance of each kind
//! is read, and they are found to go with one another.

ghost use Rattle.std.specs.Prelude.{◌≡◌, ◌++◌, ◌∷◌, ◌≤◌, [], IfErr, IfNone, IfOk, IfSome, IsErrOf, List, OnOk, Result, length, map, string_bytes, ℕ};
ghost use Rattle.certificate_parts.specs.Ranges.{customer_count};
ghost use Rattle.ev_model.specs.Network.{Network};
ghost use Rattle.ev_outside.specs.Shelf.{CountsNeverFall, CountsStay};
ghost use Rattle.instance_reader.specs.Instance.{most_customers};
ghost use Rattle.mixed_model.specs.Kinds.{AreKinds, first_of, most_kinds};
ghost use Rattle.mixed_run.specs.KindFiles.{AreUnfit, HasKinds, IsFileRefused, IsKindsRefused, kind_reads};
ghost use Rattle.mixed_run.specs.KindReading.{IsHalt, ReadAs};
ghost use Rattle.mixed_run.specs.Names.{names_of};
ghost use Rattle.job_frame.specs.Task.{AreRead};

use crate::refusal::{Halt, MixedRefusal};
use ev_outside::{Shelf, ShelfFault};
use instance_reader::{Instance, MOST_CUSTOMERS};
use job_frame::{Ended, MOST_BYTES, limited_instance, read_file};
use mixed_model::kinds_agree;
use plan_writer::Refusal;
use std::alloc::{AllocFailed, Global};

/// The kinds of vehicles of the files, one to eight: each file is an instance that takes the limit
/// of the words, they agree, and there aren't too many customers. The files are read in their
/// order, until one breaks a rule or fails, or memory is refused.
pub fn kinds_of_files<S: Shelf>(
    alloc: Global,
    files: &[String],
    limit: Option<u64>,
    shelf: &mut S,
) -> Result<Vec<Instance>, Halt>
    requires some { 1 ≤ length files.now }
    requires few { length files.now ≤ most_kinds }
    ensures ok { IfOk result (λ kinds. (bytes : List (List ℕ))
        × AreRead (S.state shelf.old).files (kind_reads (names_of files.now)) bytes
        × HasKinds limit bytes kinds.items) }
    ensures halt { IfErr result (IsHalt (IsKindsRefused limit) limit (names_of files.now)
        (S.state shelf.old) (S.state shelf.new)) }
    ensures stays { (IsErrOf result (Halt.Stopped ShelfFault.Failed) → ⊥)
        → CountsStay (S.state shelf.old) (S.state shelf.new) }
    ensures falls { CountsNeverFall (S.state shelf.old) (S.state shelf.new) }
    ensures files { (S.state shelf.new).files ≡ (S.state shelf.old).files }
{
    let mut kinds = Vec::new(alloc);
    read_kinds(alloc, files, limit, shelf, &mut kinds)?;
    match unfit(kinds.as_slice()) {
        Some(refusal) => Err(Halt::Refused(refusal)),
        None => Ok(kinds),
    }
}

/// Reads the files in order, and appends their instances. It takes a stack frame for each file.
fn read_kinds<S: Shelf>(
    alloc: Global,
    files: &[String],
    limit: Option<u64>,
    shelf: &mut S,
    kinds: &mut Vec<Instance>,
) -> Result<(), Halt>
    ensures ok { OnOk result ((more : List Network)
        × ReadAs limit (names_of files.now) (S.state shelf.old).files more
        × (kinds.new.items ≡ kinds.old.items ++ more)) }
    ensures halt { IfErr result (IsHalt (IsFileRefused limit) limit (names_of files.now)
        (S.state shelf.old) (S.state shelf.new)) }
    ensures stays { (IsErrOf result (Halt.Stopped ShelfFault.Failed) → ⊥)
        → CountsStay (S.state shelf.old) (S.state shelf.new) }
    ensures falls { CountsNeverFall (S.state shelf.old) (S.state shelf.new) }
    ensures files { (S.state shelf.new).files ≡ (S.state shelf.old).files }
{
    match files {
        [] => Ok(()),
        [file, others @ ..] => {
            let kind = match read_kind(alloc, file, limit, shelf) {
                Ok(kind) => kind,
                Err(halt) => return Err(halt),
            };
            match kinds.push(kind) {
                Ok(()) => {}
                Err(AllocFailed { .. }) => return Err(Halt::Stopped(ShelfFault::Memory)),
            }
            read_kinds(alloc, others, limit, shelf, kinds)
        }
    }
}

/// The instance of a file, with the limit of the words.
fn read_kind<S: Shelf>(
    alloc: Global,
    file: &String,
    limit: Option<u64>,
    shelf: &mut S,
) -> Result<Instance, Halt>
    ensures ok { IfOk result (λ g. ReadAs limit (string_bytes file.now ∷ [])
        (S.state shelf.old).files (g ∷ [])) }
    ensures halt { IfErr result (IsHalt (IsFileRefused limit) limit (string_bytes file.now ∷ [])
        (S.state shelf.old) (S.state shelf.new)) }
    ensures stays { (IsErrOf result (Halt.Stopped ShelfFault.Failed) → ⊥)
        → CountsStay (S.state shelf.old) (S.state shelf.new) }
    ensures falls { CountsNeverFall (S.state shelf.old) (S.state shelf.new) }
    ensures files { (S.state shelf.new).files ≡ (S.state shelf.old).files }
{
    let bytes = match read_file(alloc, file.as_str(), MOST_BYTES, shelf) {
        Ok(bytes) => bytes,
        Err(fault) => return Err(Halt::Stopped(fault)),
    };
    match limited_instance(alloc, bytes.as_slice(), limit) {
        Ok(inst) => {
            // That the instance's network is one is told by its calls.
            let _nodes = inst.nodes();
            Ok(inst)
        }
        Err(Ended::Refused(refusal)) => Err(Halt::Refused(MixedRefusal::Plain(refusal))),
        Err(Ended::Memory) => Err(Halt::Stopped(ShelfFault::Memory)),
    }
}

/// Why instances aren't those of a fleet's kinds: they don't agree, or have too many customers.
fn unfit(kinds: &[Instance]) -> Option<MixedRefusal>
    requires some { 1 ≤ length kinds.now }
    requires few { length kinds.now ≤ most_kinds }
    ensures agree { IfNone result (AreKinds kinds.now) }
    ensures few { IfNone result (customer_count (first_of kinds.now) ≤ most_customers) }
    ensures unfit { IfSome result (AreUnfit kinds.now) }
{
    if let Some(kind) = kinds_agree(kinds) {
        return Some(MixedRefusal::Kinds(kind));
    }
    let count = kinds[0].customers().len();
    if count > MOST_CUSTOMERS {
        return Some(MixedRefusal::Plain(Refusal::Customers(count)));
    }
    None
}

ghost use Rattle.std.specs.Prelude.{◌+◌, ◌≤◌, IsErrOf, length};
ghost use Rattle.ev_text.specs.Scans.{IsPrefixOf};

use crate::files::{CHARGED, words_of};
use ev_outside::{MemorySink, Shelf, ShelfFault};
use evroute_run::{Status, run};
use worked_instances::ONE_STATION;

/// Files of which `A` holds an instance and `P` a plan, and all others more bytes than are ever
/// asked for.
#[derive(Drop)]
struct LongFiles {
    reads: u64,
}

impl Shelf for LongFiles {
    ghost use Rattle.std.specs.Prelude.{None};

    ghost state = { λ _. record {
      files = None;
      failed_reads = λ name. 0;
      failed_writes = λ name. 0;
      asked = None;
    } };

    fn read(&mut self, name: &str, most: usize, into: &mut Vec<u8>) -> Result<(), ShelfFault> {
        self.reads = self.reads.saturating_add(1);
        let text = match name {
            "A" => ONE_STATION,
            "P" => CHARGED,
            _ => return spaces(most, into),
        };
        let bytes = text.as_bytes();
        if bytes.len() > most {
            return Ok(());
        }
        match into.extend_from_slice(bytes) {
            Ok(()) => Ok(()),
            Err(_) => Err(ShelfFault::Memory),
        }
    }

    fn write(&mut self, _name: &str, _bytes: &[u8]) -> Result<(), ShelfFault> {
        Ok(())
    }

    fn ask_to_write(&mut self, _name: &str) -> Result<(), ShelfFault> {
        Ok(())
    }
}

/// Appends as many spaces as are asked for.
fn spaces(most: usize, into: &mut Vec<u8>) -> Result<(), ShelfFault>
    ensures prefix { IsPrefixOf into.old.items into.new.items }
    ensures most { length into.new.items ≤ length into.old.items + most }
    ensures memory { IsErrOf result ShelfFault.Failed → ⊥ }
{
    let Some(len) = into.len().checked_add(most) else {
        return Err(ShelfFault::Memory);
    };
    match into.resize(len, b' ') {
        Ok(()) => Ok(()),
        Err(_) => Err(ShelfFault::Memory),
    }
}

// As built this takes a second. By `rt try` it takes most of the time that a test has.
#[test]
fn a_certificate_that_is_one_byte_too_long_is_told_by_its_number(rt: HostRuntime) {
    let alloc = rt.alloc();
    let words = words_of(alloc, "check A P Q").expect(&rt, "memory");
    let mut out = MemorySink::new(alloc, Vec::new(alloc));
    let mut shelf = LongFiles { reads: 0 };
    let status = run(alloc, words.as_slice(), &mut shelf, &mut out);
    assert_eq!(rt; status, Status::Refused);
    assert_eq!(rt;
        out.bytes(),
        b"refused certificate 4 268435457\n".as_slice()
    );
    assert_eq!(rt; shelf.reads, 3);
}

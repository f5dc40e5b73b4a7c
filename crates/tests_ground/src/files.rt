//! Named files, over the calls of the system and in memory.

use ev_outside::{
    FileShelf, MemoryShelf, PieceStorage, Shelf, ShelfFault, StorageShelf, SureShelf,
};
use std::alloc::Global;
use std::fs;
use std::process::Abort;

/// What a read of at most `most` bytes appends to a buffer that holds one byte already.
fn read_from<S: Shelf>(
    alloc: Global,
    shelf: &mut S,
    name: &str,
    most: usize,
) -> Result<Vec<u8>, ShelfFault> {
    let mut into = Vec::new(alloc);
    if into.push(b'>').is_err() {
        return Err(ShelfFault::Memory);
    }
    shelf.read(name, most, &mut into)?;
    Ok(into)
}

/// Writes by the trait alone.
fn write_to<S: Shelf>(shelf: &mut S, name: &str, bytes: &[u8]) -> Result<(), ShelfFault> {
    shelf.write(name, bytes)
}

/// A read of at most `most` bytes gives these, or the test fails.
fn assert_read<S: Shelf>(
    rt: &impl Abort,
    alloc: Global,
    shelf: &mut S,
    name: &str,
    most: usize,
    bytes: &[u8],
) {
    let read = read_from(alloc, shelf, name, most).expect(rt, "a read");
    let is_so = read.first() == Some(&b'>') && read.get(1..) == Some(bytes);
    assert!(rt; is_so, "of at most {most}");
}

/// Ten thousand bytes, of which no two of 251 in a row are the same.
fn long_bytes(rt: &impl Abort, alloc: Global) -> Vec<u8> {
    let mut long = Vec::new(alloc);
    for at in 0..10000u32 {
        long.push((at % 251) as u8).expect(rt, "memory");
    }
    long
}

/// A file of several pieces is read whole, and up to a byte inside a piece.
#[test]
fn a_long_file_is_read_up_to_a_byte(rt: HostRuntime) {
    let alloc = rt.alloc();
    let name = "ev_outside_long_file";
    let mut shelf = FileShelf::new(alloc, &rt);
    let long = long_bytes(&rt, alloc);
    write_to(&mut shelf, name, long.as_slice()).expect(&rt, "a write");
    for &(most, want) in &[
        (20000, 10000),
        (10000, 10000),
        (9999, 9999),
        (4096, 4096),
        (0, 0),
    ] {
        let wanted = long.get(..want).expect(&rt, "so many bytes");
        assert_read(&rt, alloc, &mut shelf, name, most, wanted);
    }
    fs::remove_file(&rt, name).expect(&rt, "a file that is removed");
}

/// Whether a file can be written is asked without a change: a folder can't be, nor a file in a
/// folder that isn't there or is a file; and none is made or cut.
#[test]
fn a_question_whether_a_file_can_be_written_changes_nothing(rt: HostRuntime) {
    let alloc = rt.alloc();
    let (name, none) = ("ev_outside_asked_file", "ev_outside_no_file");
    let mut shelf = FileShelf::new(alloc, &rt);
    write_to(&mut shelf, name, b"text").expect(&rt, "a write");
    for &(asked, want) in &[
        (name, true),
        (none, true),
        (".", false),
        ("ev_outside_no_folder/file", false),
        ("ev_outside_asked_file/file", false),
        ("", false),
    ] {
        assert_eq!(rt; can_be_written(&mut shelf, asked), want, "{asked}");
    }
    assert_read(&rt, alloc, &mut shelf, name, 100, b"text");
    assert!(rt; fs::metadata(&rt, none).is_err());
    fs::remove_file(&rt, name).expect(&rt, "a file that is removed");
}

/// Whether a shelf tells that a file can be written.
fn can_be_written<S: Shelf>(shelf: &mut S, name: &str) -> bool {
    shelf.ask_to_write(name).is_ok()
}

/// A shelf of one file over a storage that takes `piece` bytes at a time.
fn shelf_in_pieces(rt: &impl Abort, alloc: Global, piece: usize) -> StorageShelf<PieceStorage> {
    let mut files = MemoryShelf::new(alloc, Vec::new(alloc));
    files.set("plan", b"five!").expect(rt, "memory");
    StorageShelf::over(PieceStorage::new(alloc, files, piece, Vec::new(alloc)))
}

#[test]
fn files_are_read_and_written_whole_in_pieces_of_any_length(rt: HostRuntime) {
    let alloc = rt.alloc();
    for &piece in &[1, 2, 1000] {
        let mut shelf = shelf_in_pieces(&rt, alloc, piece);
        assert_read(&rt, alloc, &mut shelf, "plan", 100, b"five!");
        assert!(rt; can_be_written(&mut shelf, "copy"));
        write_to(&mut shelf, "copy", b"copy!").expect(&rt, "a write");
        assert_read(&rt, alloc, &mut shelf, "copy", 4, b"copy");
    }
}

#[test]
fn sure_files_never_fail(rt: HostRuntime) {
    let alloc = rt.alloc();
    let mut shelf = SureShelf::new(alloc);
    assert_read(&rt, alloc, &mut shelf, "plan", 100, b"");
    assert!(rt; can_be_written(&mut shelf, "plan"));
    write_to(&mut shelf, "plan", b"text").expect(&rt, "a write");
    assert_read(&rt, alloc, &mut shelf, "plan", 3, b"tex");
    shelf.set("plan", b"other").expect(&rt, "memory");
    assert_read(&rt, alloc, &mut shelf, "plan", 100, b"other");
}

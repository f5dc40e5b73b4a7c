//! The regular files that were read or written, each under its name, so that none of them is
//! written under another one.
ghost use Rattle.std.specs.Prelude.{◌≡◌, ◌↔◌, ◌∷◌, ◌++◌, [], All, IsTrue, OnErr, OnOk, string_bytes};

use std::alloc::{AllocError, Global};
use std::fs::Metadata;
use std::os::unix::fs::MetadataExt;

/// What tells a file of the system from any other, whatever its names.
#[derive(Clone, Copy, PartialEq, Eq)]
pub(crate) struct FileId {
    device: u64,
    number: u64,
}

impl FileId {
    /// The file that has this metadata.
    pub(crate) fn of(found: &Metadata) -> FileId {
        FileId {
            device: found.dev(),
            number: found.ino(),
        }
    }
}

/// A file under the name by which it was asked for.
#[derive(Drop)]
struct KnownFile {
    name: String,
    id: FileId,
}

impl KnownFile {
    /// Whether this is another file, or has this name.
    fn agrees(&self, name: &str, id: FileId) -> bool
        ensures { IsTrue result ↔ (self.now.id ≡ id → string_bytes self.now.name ≡ name.now) }
    {
        self.id != id || self.name.as_str() == name
    }
}

/// The files that are known, each under its name.
#[derive(Drop)]
pub(crate) struct KnownFiles {
    files: Vec<KnownFile>,
}

impl KnownFiles {
    /// No file yet. The memory is for their names.
    pub(crate) fn new(alloc: Global) -> KnownFiles
        ensures { result.files.items ≡ [] }
    {
        KnownFiles {
            files: Vec::new(alloc),
        }
    }

    /// Whether the file is known under no other name than this.
    pub(crate) fn is_only_here(&self, name: &str, id: FileId) -> bool
        ensures { IsTrue result ↔ All
            (λ file. file.id ≡ id → string_bytes file.name ≡ name.now) self.now.files.items }
    {
        self.files.iter().all(|file| file.agrees(name, id))
    }

    /// The file is known under this name too. Nothing changes where memory is refused.
    pub(crate) fn add(&mut self, name: &str, id: FileId) -> Result<(), AllocError>
        ensures known { OnOk result ((file : KnownFile) × (file.id ≡ id)
            × (string_bytes file.name ≡ name.now)
            × (self.new.files.items ≡ self.old.files.items ++ file ∷ [])) }
        ensures memory { OnErr result (self.new.files.items ≡ self.old.files.items) }
    {
        let name = String::from_str(*self.files.allocator(), name)?;
        self.files.push(KnownFile { name, id })?;
        Ok(())
    }
}

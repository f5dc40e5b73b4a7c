//! What a program has outside itself: named files ([`Shelf`]) and its output ([`Sink`]).
//!
//! Both are traits whose calls have a written meaning. [`StorageShelf`] and [`StreamSink`] are
//! proved to meet it over the calls of a system ([`Storage`], [`Stream`]), which may take or give a
//! part. Over the real calls, [`SystemFiles`] and [`SystemOutput`], they are [`FileShelf`] and
//! [`OutSink`]. [`MemoryShelf`] and [`MemorySink`] are fakes in memory whose calls fail where a
//! test wants them to, those of [`SureShelf`] and [`SureSink`] never do.
#![tactic(auto)]

mod answers;
mod asking;
mod failure;
mod files;
mod folder;
mod kept;
mod known_files;
mod memory_shelf;
mod memory_sink;
mod output;
mod piece_storage;
mod shelf;
mod sink;
mod storage;
mod streams;
mod sure_shelf;
mod sure_sink;
mod system;

pub use asking::ask_to_write;
pub use failure::Failure;
pub use files::{FileShelf, StorageShelf};
pub use memory_shelf::MemoryShelf;
pub use memory_sink::MemorySink;
pub use output::{OutSink, StreamSink};
pub use piece_storage::PieceStorage;
pub use shelf::{Shelf, ShelfFault};
pub use sink::{Sink, SinkFault};
pub use storage::{CallFailed, Storage, Stream};
pub use sure_shelf::SureShelf;
pub use sure_sink::SureSink;
pub use system::{SystemFiles, SystemOutput};

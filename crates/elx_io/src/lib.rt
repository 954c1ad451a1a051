//! The outside as the compiler sees it: shelves of named files, a sink of bytes, and a builder of lines of text.
#![tactic(auto)]

mod call_log;
mod edge;
mod failing;
mod file_list;
mod folder;
mod lines;
mod mem_shelf;
mod mem_sink;
mod output;
mod safe_shelf;
mod safe_sink;
mod shelf;
mod sink;
mod whole;

pub use folder::FolderShelf;
pub use lines::Lines;
pub use mem_shelf::MemShelf;
pub use mem_sink::MemSink;
pub use output::OutSink;
pub use safe_shelf::SafeShelf;
pub use safe_sink::SafeSink;
pub use shelf::{Shelf, ShelfErr};
pub use sink::{Sink, SinkErr};

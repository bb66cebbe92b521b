//! What a program asks of the outside: a shelf that files are read from, and sinks that texts are written to.
//!
//! Each port has a meaning that clauses speak of: what it holds, and how often it has failed. An object in
//! memory is given for each, one that fails where it is told to and one that never fails.
#![tactic(auto)]

mod clean_shelf;
mod clean_sink;
mod file;
mod mem_shelf;
mod mem_sink;
mod shelf;
mod sink;

pub use clean_shelf::CleanShelf;
pub use clean_sink::CleanSink;
pub use mem_shelf::MemShelf;
pub use mem_sink::MemSink;
pub use shelf::{Shelf, ShelfError};
pub use sink::{Sink, SinkError};

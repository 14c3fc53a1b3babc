//! Files and output as a program of the controller meets them: as traits whose faults are counted, over
//! memory for tests, and over the host's files and standard output.
#![tactic(auto)]

mod failure;
mod fault;
mod host;
#[cfg(test)]
mod host_tests;
mod mem_shelf;
mod mem_sink;
mod outside;
mod reading;
mod whole;
mod write;

pub use failure::Access;
pub use fault::{ShelfFail, SinkFail};
pub use host::{FileShelf, OutSink};
pub use mem_shelf::MemShelf;
pub use mem_sink::MemSink;
pub use outside::{Shelf, Sink};
pub use write::write_pieces;

//! Reads script lines from bytes, and writes replies as bytes: a source of bytes, its division into lines, the JSON values
//! of the lines, the replies that wait to be written, and a sink of bytes. This crate does not know about commands.
#![tactic(auto)]

mod line;
mod outbox;
mod reader;
mod reading;
mod sink;
mod source;

pub use outbox::Outbox;
pub use reader::LineReader;
pub use reading::{Reading, parse};
pub use sink::{Sink, Unwritten, WriteSink, send};
pub use source::{CHUNK, ReadSource, Source, Unread, front, read_into};

//! The streams of programs: reading an input whole or line by line, and writing bytes to an output.
//!
//! - [`read_all`](input::read_all) reads an input to its end, [`read_into`](input::read_into) into memory of
//!   the caller.
//! - [`next_line`](read::next_line) reads the next line into a buffer, so the memory is that of the
//!   longest line.
//! - [`write_bytes`](write::write_bytes) writes all of some bytes, and
//!   [`write_and_flush`](write::write_and_flush) flushes after them.
//!
//! All are generic over the stream, and their contracts say which bytes are read and written where
//! the stream knows them. `specs/Lines.antt` defines which lists of lines an input is.
#![tactic(auto)]

pub mod input;
pub mod laws;
pub mod read;
pub mod write;

//! The calls of the library for C: JSON Pointers and JSON documents as bytes, handles and buffers.
//!
//! `jsonptr_c` exports them. A text comes in as bytes, which need not be UTF-8, and a result is
//! written to a buffer of the caller, with the length that it needs.
//!
//! In the examples `rt` is the runtime that `main` and each test receive, and `alloc` is
//! `rt.alloc()`, the allocator.
#![tactic(auto)]

mod apart;
pub mod buffer;
pub mod call_error;
pub mod change;
pub mod depths;
pub mod documents;
pub mod edit;
pub mod error_numbers;
pub mod fragments;
mod given;
pub mod handle;
pub mod keys;
pub mod laws;
pub mod locations;
mod mark;
pub mod message;
pub mod node;
pub mod open_text;
pub mod outcome;
pub mod patches;
pub mod pointers;
pub mod read;
pub mod setters;
mod slot;
pub mod text_calls;
pub mod text_edits;
pub mod text_format;
pub mod text_handle;
pub mod text_reads;
mod text_slot;
pub mod texts;
mod toml_edits;
pub mod toml_value;
pub mod values;

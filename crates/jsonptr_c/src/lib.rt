//! The functions of the library that C calls.
//!
//! They do nothing but call `jsonptr_c_calls`, which has their contracts, and report the outcome. C
//! passes a slice as a pointer and a length, and nothing for `alloc`. `tools/c/guard.c` calls them,
//! and `tools/c/jsonptr.h` declares what it exports.
#![tactic(auto)]

mod documents;
mod errors;
mod keys;
mod locations;
mod pointers;
mod setters;
mod text_edits;

//! The types of documents.
use crate::out::Out;
use crate::toml_text;
use jsonptr::{Fault, Pointer, PointerBuf, assign};
use jsonptr_session::undo::{Undo, UndoRefused, json, toml_value};
use jsonptr_session::{Call, Reply, run_json, run_json_with, run_toml, run_toml_with};
use jsonptr_tabled::TabledPointer;
use jsonptr_value::Nested;
use std::alloc::{AllocError, Global};
use std::fmt::Display;

/// A JSON or TOML document.
pub trait Document: Display + Nested + Sized {
    /// Parses a value.
    fn read(alloc: Global, text: &str) -> Option<Self>;

    /// Appends the text of a value.
    fn show(&self, out: &mut Out<'_>);

    /// Assigns a value, and returns its undo.
    fn assign_with_undo(
        &mut self,
        alloc: Global,
        pointer: Pointer<'_>,
        value: Self,
    ) -> Result<Undo<Self>, Fault<assign::Error>>;

    /// Undoes an assignment.
    fn undo(&mut self, alloc: Global, undo: Undo<Self>) -> Result<(), UndoRefused<Self>>;

    /// Runs calls on a plain pointer, and returns the replies.
    fn run(
        &mut self,
        alloc: Global,
        pointer: &mut PointerBuf,
        calls: Vec<Call<Self>>,
    ) -> Result<Vec<Reply<Self>>, AllocError>;

    /// Runs calls on a tabled pointer, and returns the replies.
    fn run_tabled(
        &mut self,
        alloc: Global,
        pointer: &mut TabledPointer,
        calls: Vec<Call<Self>>,
    ) -> Result<Vec<Reply<Self>>, AllocError>;
}

impl Document for serde_json::Value {
    fn read(alloc: Global, text: &str) -> Option<serde_json::Value> {
        serde_json::Value::from_str(alloc, text).ok()
    }

    fn show(&self, out: &mut Out<'_>) {
        out.show(self);
    }

    fn assign_with_undo(
        &mut self,
        alloc: Global,
        pointer: Pointer<'_>,
        value: serde_json::Value,
    ) -> Result<Undo<serde_json::Value>, Fault<assign::Error>> {
        json::assign_with_undo(alloc, self, pointer, value)
    }

    fn undo(
        &mut self,
        alloc: Global,
        undo: Undo<serde_json::Value>,
    ) -> Result<(), UndoRefused<serde_json::Value>> {
        json::undo(alloc, self, undo)
    }

    fn run(
        &mut self,
        alloc: Global,
        pointer: &mut PointerBuf,
        calls: Vec<Call<serde_json::Value>>,
    ) -> Result<Vec<Reply<serde_json::Value>>, AllocError> {
        run_json(alloc, pointer, self, calls)
    }

    fn run_tabled(
        &mut self,
        alloc: Global,
        pointer: &mut TabledPointer,
        calls: Vec<Call<serde_json::Value>>,
    ) -> Result<Vec<Reply<serde_json::Value>>, AllocError> {
        run_json_with(alloc, pointer, self, calls)
    }
}

impl Document for toml::Value {
    fn read(alloc: Global, text: &str) -> Option<toml::Value> {
        toml::Value::from_str(alloc, text).ok()
    }

    fn show(&self, out: &mut Out<'_>) {
        if out.is_case() {
            out.show(self);
        } else {
            toml_text::write(out, self);
        }
    }

    fn assign_with_undo(
        &mut self,
        alloc: Global,
        pointer: Pointer<'_>,
        value: toml::Value,
    ) -> Result<Undo<toml::Value>, Fault<assign::Error>> {
        toml_value::assign_with_undo(alloc, self, pointer, value)
    }

    fn undo(
        &mut self,
        alloc: Global,
        undo: Undo<toml::Value>,
    ) -> Result<(), UndoRefused<toml::Value>> {
        toml_value::undo(alloc, self, undo)
    }

    fn run(
        &mut self,
        alloc: Global,
        pointer: &mut PointerBuf,
        calls: Vec<Call<toml::Value>>,
    ) -> Result<Vec<Reply<toml::Value>>, AllocError> {
        run_toml(alloc, pointer, self, calls)
    }

    fn run_tabled(
        &mut self,
        alloc: Global,
        pointer: &mut TabledPointer,
        calls: Vec<Call<toml::Value>>,
    ) -> Result<Vec<Reply<toml::Value>>, AllocError> {
        run_toml_with(alloc, pointer, self, calls)
    }
}

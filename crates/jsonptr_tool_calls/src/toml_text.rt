//! The text of a TOML value in a field.
use crate::out::Out;
use toml::{Table, Value};

/// A part of a value that is still to be written.
#[derive(Drop)]
enum Part<'v> {
    /// A mark.
    Mark(&'static str),
    /// A key, with a colon after it.
    Key(&'v str),
    /// A value.
    Value(&'v Value),
}

/// The parts of a value that are still to be written, the next one last.
#[derive(Drop)]
struct Parts<'v> {
    left: Vec<Part<'v>>,
    is_failed: bool,
}

impl<'v> Parts<'v> {
    /// Adds a part.
    fn add(&mut self, part: Part<'v>) {
        if self.left.push(part).is_err() {
            self.is_failed = true;
        }
    }

    /// Adds the members of a table.
    fn add_members(&mut self, members: &'v Table) {
        self.add(Part::Mark("}"));
        let mut is_last = true;
        for (key, member) in members.iter().rev() {
            if !is_last {
                self.add(Part::Mark(", "));
            }
            is_last = false;
            self.add(Part::Value(member));
            self.add(Part::Key(key.as_str()));
        }
    }

    /// Adds the elements of an array.
    fn add_elements(&mut self, elements: &'v [Value]) {
        self.add(Part::Mark("]"));
        let mut is_last = true;
        for element in elements.iter().rev() {
            if !is_last {
                self.add(Part::Mark(", "));
            }
            is_last = false;
            self.add(Part::Value(element));
        }
    }

    /// Writes the next part. Returns whether there was one.
    fn write_next(&mut self, out: &mut Out<'_>) -> bool {
        match self.left.pop() {
            Some(Part::Mark(mark)) => out.show(mark),
            Some(Part::Key(key)) => {
                out.show(key);
                out.show(": ");
            }
            Some(Part::Value(value)) => self.write_value(out, value),
            None => return false,
        }
        true
    }

    /// Writes a value, or begins it and adds its parts.
    fn write_value(&mut self, out: &mut Out<'_>, value: &'v Value) {
        match value {
            Value::Table(members) => {
                out.show("{");
                self.add_members(members);
            }
            Value::Array(elements) => {
                out.show("[");
                self.add_elements(elements);
            }
            Value::String(text) => {
                out.show("'");
                out.show(text);
                out.show("'");
            }
            Value::Float(_) => out.show("float"),
            other => out.show(other),
        }
    }
}

/// Writes a value.
pub fn write(out: &mut Out<'_>, value: &Value) {
    let mut parts = Parts {
        left: Vec::new(out.alloc()),
        is_failed: false,
    };
    parts.add(Part::Value(value));
    for _turn in 0..u64::MAX {
        if !parts.write_next(out) {
            break;
        }
    }
    if parts.is_failed {
        out.memory();
    }
}

//! The results of calls, as they are written.
use jsonptr::diagnostic::Label;
use jsonptr::{Pointer, RichParseError, Token};
use std::alloc::{AllocError, Global};
use std::cmp::Ordering;
use std::fmt::{self, Debug, Display, Write};
use std::io::{self, Write as Writes};

/// How many bytes of text are kept before they are written.
const KEPT: usize = 65_536;

/// Where results go. Its methods that write return nothing: [`Out::finish`] reports what failed.
///
/// In a case a result is a line after the mark `-- answer`, and the call begins at the mark
/// `-- call`. In a request it is the value of a field.
#[derive(Drop)]
pub struct Out<'r> {
    rt: &'r HostRuntime,
    text: String,
    is_case: bool,
    is_failed: bool,
}

impl fmt::Write for Out<'_> {
    fn write_str(&mut self, text: &str) -> fmt::Result {
        if self.is_case {
            self.push(text);
        } else {
            for c in text.chars() {
                self.push_escaped(c);
            }
        }
        Ok(())
    }
}

impl<'r> Out<'r> {
    /// Makes one that writes to the standard output.
    pub fn new(rt: &'r HostRuntime) -> Out<'r> {
        Out {
            rt,
            text: String::new(rt.alloc()),
            is_case: false,
            is_failed: false,
        }
    }

    /// Returns the allocator.
    pub fn alloc(&self) -> Global {
        self.rt.alloc()
    }

    /// Returns whether the results are those of a case.
    pub fn is_case(&self) -> bool {
        self.is_case
    }

    /// Writes all that is kept, and reports whether anything failed.
    ///
    /// # Errors
    ///
    /// An error if a line was not a case, if an allocation failed between calls, or if the output
    /// cannot be written.
    pub fn finish(mut self) -> io::Result<()> {
        self.flush();
        if self.is_failed {
            Err(io::Error::from(io::ErrorKind::InvalidInput))
        } else {
            Ok(())
        }
    }

    /// Notes whether a step succeeded.
    fn note(&mut self, is_done: bool) {
        if !is_done {
            self.is_failed = true;
        }
    }

    /// Writes a text at once.
    fn write_now(&mut self, text: &str) {
        let is_done = self.rt.stdout().write_all(text.as_bytes()).is_ok();
        self.note(is_done);
    }

    /// Writes all that is kept.
    fn flush(&mut self) {
        let is_done = self.rt.stdout().write_all(self.text.as_bytes()).is_ok();
        self.note(is_done);
        self.text.clear();
    }

    /// Appends a text unchanged.
    fn push(&mut self, text: &str) {
        let is_done = self.text.push_str(text).is_ok();
        self.note(is_done);
    }

    /// Appends a character, or its escape.
    fn push_escaped(&mut self, c: char) {
        match c {
            '\t' => self.push("\\t"),
            '\n' => self.push("\\n"),
            '\r' => self.push("\\r"),
            '\\' => self.push("\\\\"),
            other => {
                let is_done = self.text.push(other).is_ok();
                self.note(is_done);
            }
        }
    }

    /// Appends the displayed text of a value.
    pub fn show<T: Display + Drop>(&mut self, value: T) {
        let is_done = write!(self, "{value}").is_ok();
        self.note(is_done);
    }

    /// Appends the text of a value for debugging.
    pub fn debug<T: Debug>(&mut self, value: &T) {
        let is_done = write!(self, "{value:?}").is_ok();
        self.note(is_done);
    }

    /// Appends a line of a case.
    pub fn line<T: Display + Drop>(&mut self, value: T) {
        self.show(value);
        self.push("\n");
    }

    /// Sets whether the results are those of a case.
    pub fn set_case(&mut self, is_case: bool) {
        self.is_case = is_case;
    }

    /// Ends a request.
    pub fn end_request(&mut self) {
        self.push("\n");
        if self.text.len() > KEPT {
            self.flush();
        }
    }

    /// Notes that the line is neither a case nor a request.
    pub fn unknown(&mut self) {
        if self.is_case {
            self.is_failed = true;
        } else {
            self.name("unknown");
        }
    }

    /// Notes that an allocation failed outside the call of a case.
    pub fn memory(&mut self) {
        self.is_failed = true;
    }

    /// Writes that the call of a case begins.
    pub fn begin(&mut self) {
        if self.is_case {
            self.flush();
            self.write_now("-- call\n");
        }
    }

    /// Writes that the call of a case has ended.
    pub fn end(&mut self) {
        if self.is_case {
            self.write_now("-- answer\n");
        }
    }

    /// Writes that the state of a case's arguments follows.
    pub fn state(&mut self) {
        self.push("-- state\n");
    }

    /// Writes the name of the next field.
    pub fn name(&mut self, name: &str) {
        if !self.text.is_empty() && !self.text.ends_with('\n') {
            self.push("\t");
        }
        self.push(name);
        self.push("=");
    }

    /// Writes a field.
    pub fn field<T: Display + Drop>(&mut self, name: &str, value: T) {
        self.name(name);
        self.show(value);
    }

    /// Writes a text of a list, with its mark after it.
    pub fn item<T: Display + Drop>(&mut self, value: T) {
        self.show(value);
        self.push("\\;");
    }

    /// Writes a result after the mark.
    fn ended<T: Display + Drop>(&mut self, value: T) {
        self.show(value);
        if self.is_case {
            self.push("\n");
        }
    }

    /// Writes a result.
    pub fn said<T: Display + Drop>(&mut self, value: T) {
        self.end();
        self.ended(value);
    }

    /// Writes that there is no result.
    pub fn nothing(&mut self) {
        self.end();
        self.push(if self.is_case { "none\n" } else { "None" });
    }

    /// Writes a result that may be missing.
    pub fn some<T: Display + Drop>(&mut self, value: T) {
        self.end();
        if !self.is_case {
            self.push("=");
        }
        self.ended(value);
    }

    /// Writes a result, or the error.
    pub fn result<T: Display + Drop, E: Display + Drop>(&mut self, made: Result<T, E>) {
        match made {
            Ok(value) => self.said(value),
            Err(error) => self.said(error),
        }
    }

    /// Writes whether a call failed.
    pub fn done<E: Display + Drop>(&mut self, done: Result<(), E>) {
        match done {
            Ok(()) => self.said("done"),
            Err(error) => self.said(error),
        }
    }

    /// Writes a part of a pointer, or that there is none.
    pub fn part(&mut self, part: Option<Pointer<'_>>) {
        match part {
            Some(part) => self.some(part),
            None => self.nothing(),
        }
    }

    /// Writes a token in its encoded form, or that there is none.
    pub fn token(&mut self, token: Option<Token<'_>>) {
        match token {
            Some(token) => self.some(token.encoded()),
            None => self.nothing(),
        }
    }

    /// Writes a token in its encoded form, or the error.
    pub fn made<E: Display + Drop>(&mut self, made: Result<Token<'_>, E>) {
        match made {
            Ok(token) => self.said(token.encoded()),
            Err(error) => self.said(error),
        }
    }

    /// Writes the token that a call removed.
    pub fn removed<E: Display + Drop>(&mut self, removed: Result<Option<Token<'_>>, E>) {
        match removed {
            Ok(token) => self.token(token),
            Err(error) => self.said(error),
        }
    }

    /// Writes the two texts of a split, or that there is none.
    pub fn split(&mut self, parts: Option<(&str, &str)>) {
        match parts {
            Some((front, rest)) => {
                self.end();
                self.parts(front, rest);
            }
            None => self.nothing(),
        }
    }

    /// Writes two texts.
    fn parts(&mut self, front: &str, rest: &str) {
        if self.is_case {
            self.show(front);
            self.push(" and ");
            self.line(rest);
        } else {
            self.item(front);
            self.item(rest);
        }
    }

    /// Writes an order.
    pub fn order(&mut self, order: Ordering) {
        match order {
            Ordering::Less => self.said("Less"),
            Ordering::Equal => self.said("Equal"),
            Ordering::Greater => self.said("Greater"),
        }
    }

    /// Writes the error of a text that is not a pointer, and the text.
    pub fn report(&mut self, report: &RichParseError) {
        self.end();
        self.show(report);
        self.push(": ");
        self.line(report.subject());
    }

    /// Writes labels, or that there are none.
    pub fn labels(&mut self, labels: Result<Option<Vec<Label>>, AllocError>) {
        match labels {
            Ok(Some(labels)) => {
                self.end();
                for label in &labels {
                    self.label(label);
                }
            }
            Ok(None) => self.nothing(),
            Err(error) => self.said(error),
        }
    }

    /// Writes a label that a call returned.
    pub fn label_copied(&mut self, label: &Label) {
        self.end();
        self.label(label);
    }

    /// Writes a label.
    fn label(&mut self, label: &Label) {
        self.show(label.offset());
        self.push("+");
        self.show(label.len());
        self.push(" ");
        if self.is_case {
            self.line(label.text());
        } else {
            self.item(label.text());
        }
    }

    /// Displays a value between the marks.
    pub fn display<T: Display>(&mut self, value: &T) {
        self.begin();
        let is_done = writeln!(self.rt.stdout(), "{value}").is_ok();
        self.note(is_done);
        self.end();
    }
}

//! The pointer of the value that a reader of JSON text is in.

use json::Token as JsonToken;
use jsonptr::{PointerBuf, Token};
use std::alloc::{AllocError, Global};
use std::borrow::CowStr;

/// The pointer of a value that is read token by token, and the arrays and objects around it.
///
/// It is a hint: no contract says that it is right. A caller checks it by resolving it.
#[derive(Drop)]
pub struct Path {
    pointer: PointerBuf,
    /// For each array or object around the value, the index of the next element if it is an array.
    open: Vec<Option<usize>>,
}

impl Path {
    /// Returns the path of a document of which nothing is read.
    pub fn new(alloc: Global) -> Path {
        Path {
            pointer: PointerBuf::new(alloc),
            open: Vec::new(alloc),
        }
    }

    /// Returns the pointer.
    pub fn into_pointer(self) -> PointerBuf {
        self.pointer
    }

    /// Goes to the value that the next token belongs to: the one that it is or begins, or the array or
    /// object that it ends or is a key of.
    ///
    /// # Errors
    ///
    /// [`AllocError`] if an allocation fails.
    pub fn enter(&mut self, alloc: Global, token: JsonToken<'_>) -> Result<(), AllocError> {
        match token {
            JsonToken::EndObject | JsonToken::EndArray => {
                self.open.pop();
            }
            JsonToken::Key(_) | JsonToken::Bad => {}
            _ => if let Some(Some(index)) = self.open.last() {
                let token = Token::from_number(alloc, *index)?;
                self.pointer.push_back(token)?;
            },
        }
        Ok(())
    }

    /// Goes on after the token.
    ///
    /// # Errors
    ///
    /// [`AllocError`] if an allocation fails.
    pub fn leave(&mut self, alloc: Global, token: JsonToken<'_>) -> Result<(), AllocError> {
        match token {
            JsonToken::BeginObject => self.open.push(None)?,
            JsonToken::BeginArray => self.open.push(Some(0))?,
            JsonToken::Key(key) => {
                let token = Token::new(alloc, CowStr::Borrowed(key))?;
                self.pointer.push_back(token)?;
            }
            JsonToken::Bad => {}
            _ => self.end()?,
        }
        Ok(())
    }

    /// Ends a value.
    fn end(&mut self) -> Result<(), AllocError> {
        if let Some(next) = self.open.last_mut() {
            if let Some(index) = next {
                *index = index.saturating_add(1);
            }
            self.pointer.pop_back()?;
        }
        Ok(())
    }
}

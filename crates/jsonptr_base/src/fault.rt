//! The error of a call that can fail with an error of its own and can also run out of memory.
ghost use Rattle.std.specs.Prelude.{◌≡◌};
ghost use Rattle.jsonptr_base.specs.Fault.{fault_text, refused_of, ForRefused, Maps};
ghost use Rattle.jsonptr_base.specs.declared.fault.Fault.TheVariants.{Memory};

use std::alloc::AllocError;
use std::error::Error;
use std::fmt;

/// Why a call that may allocate failed: with its own error, or because an allocation failed.
///
/// In both cases, whatever the call borrowed is unchanged.
///
/// # Examples
///
/// ```rust
/// let fault = PointerBuf::from_text(alloc, "size")
///     .err()
///     .ok_or("an error")?;
/// assert_eq!(rt; fault, Fault::Refused(ParseError::NoLeadingSlash));
/// ```
#[derive(Debug, PartialEq, Eq, Drop)]
pub enum Fault<E> {
    /// The call failed with this error.
    Refused(E),
    /// An allocation failed.
    Memory(AllocError),
}

impl<E> Fault<E> {
    /// Returns the call's own error as `Ok`. A failed allocation is the `Err`, so `?` passes it on.
    ///
    /// # Errors
    ///
    /// [`AllocError`] if the fault is [`Fault::Memory`].
    ///
    /// # Examples
    ///
    /// ```rust
    /// let fault = PointerBuf::from_text(alloc, "size")
    ///     .err()
    ///     .ok_or("an error")?;
    /// assert_eq!(rt; fault.refused()?, ParseError::NoLeadingSlash);
    /// ```
    pub fn refused(self) -> Result<E, AllocError>
        ensures { result ≡ refused_of self }
    {
        match self {
            Fault::Refused(error) => Ok(error),
            Fault::Memory(error) => Err(error),
        }
    }

    /// Converts the error of the call by `op`, and leaves a failed allocation unchanged.
    ///
    /// # Conditions
    ///
    /// The error of the call, if there is one, meets the precondition of `op`.
    ///
    /// # Examples
    ///
    /// ```rust
    /// let fault = PointerBuf::from_text(alloc, "/~").err().ok_or("an error")?;
    /// assert_eq!(rt; fault.map(|error| error.source_offset()), Fault::Refused(1));
    /// ```
    pub fn map<F, O: FnOnce(E) -> F>(self, op: O) -> Fault<F>
        requires { ForRefused self (O.pre op) }
        ensures { Maps self (O.post op) result }
    {
        match self {
            Fault::Refused(error) => Fault::Refused(op(error)),
            Fault::Memory(error) => Fault::Memory(error),
        }
    }
}

/// Makes a [`Fault::Memory`], so that `?` passes on a failed allocation.
impl<E> From<AllocError> for Fault<E> {
    ghost from_gives = { λ e fault. fault ≡ Memory e };

    fn from(error: AllocError) -> Fault<E> {
        Fault::Memory(error)
    }
}

/// Prints the error of the call, or "out of memory".
impl<E: fmt::Display> fmt::Display for Fault<E> {
    ghost output = { fault_text E.output };

    fn fmt<W: fmt::Write>(&self, f: &mut fmt::Formatter<W>) -> fmt::Result {
        match self {
            Fault::Refused(error) => error.fmt(f),
            Fault::Memory(_) => f.write_str("out of memory"),
        }
    }
}

impl<E: Error> Error for Fault<E> {}

//! The errors of the program, and its exit status.
ghost use Rattle.std.specs.Prelude.{◌≡◌, MatchResult};
ghost use Rattle.std.specs.Process.{exit_status};
ghost use Rattle.jsonptr_run_command.specs.Faults.{of_assign_fault, of_in_text_fault, of_input_fault, of_patch_fault, of_resolve_fault};
ghost use Rattle.jsonptr_run_command.specs.Run.{status_of};
ghost use Rattle.jsonptr_run_command.specs.declared.fault.RunFault.TheVariants.{BadPointer, Memory, Write};

use jsonptr::{Fault, ParseError, assign, resolve};
use jsonptr_io::input::InputError;
use jsonptr_io::write::WriteError;
use jsonptr_patch::PatchError;
use jsonptr_text_resolve::InTextError;
use std::alloc::AllocError;
use std::process::ExitCode;
use thiserror::Error;

/// An error of the program. Its text is the line on standard error.
#[derive(Debug, Drop, Error)]
pub enum RunFault {
    /// An unknown command or operation, a wrong number of words, or a position to split at that is
    /// not a number.
    #[error("usage: jsonptr_run resolve POINTER, delete POINTER, tokens POINTER, assign POINTER VALUE, split POINTER POSITION, patch OPERATIONS")]
    Usage,
    /// The text of a pointer is not a valid JSON Pointer.
    #[error(transparent)]
    BadPointer(ParseError),
    /// The text of a value is not a JSON text.
    #[error("VALUE is not JSON")]
    ValueNotJson,
    /// The pointer does not resolve to a value of the input.
    #[error(transparent)]
    NoValue(resolve::Error),
    /// No value can be assigned at the pointer in the input.
    #[error(transparent)]
    BadPlace(assign::Error),
    /// The pointer of the value to delete does not resolve in the input.
    #[error("delete failed: json pointer does not resolve")]
    NotThere,
    /// The position to split at is greater than the number of tokens.
    #[error("split failed: position {position} is above the token count {count}")]
    BadSplit {
        /// The position, in tokens.
        position: usize,
        /// The number of tokens of the pointer.
        count: usize,
    },
    /// An operation of the patch fails.
    #[error(transparent)]
    BadPatch(PatchError),
    /// The input is not a JSON text, or not UTF-8.
    #[error("input is not JSON")]
    InputNotJson,
    /// An allocation failed.
    #[error("out of memory")]
    Memory(AllocError),
    /// A read failed.
    #[error("reading failed")]
    Read,
    /// A write failed.
    #[error("writing failed")]
    Write,
}

impl RunFault {
    /// Returns the exit status of the program.
    pub fn status(&self) -> u8
        ensures { result ≡ status_of self.now }
    {
        match self {
            RunFault::BadPointer(_)
            | RunFault::NoValue(_)
            | RunFault::BadPlace(_)
            | RunFault::NotThere
            | RunFault::BadSplit { .. }
            | RunFault::BadPatch(_) => 1,
            RunFault::Usage => 2,
            RunFault::ValueNotJson | RunFault::InputNotJson => 3,
            RunFault::Memory(_) => 4,
            RunFault::Read | RunFault::Write => 5,
        }
    }
}

/// Returns the exit code of the program, which is 0 if the run succeeded.
pub fn exit_code(outcome: &Result<(), RunFault>) -> ExitCode
    ensures { MatchResult outcome.now
        (λ _. exit_status result ≡ 0)
        (λ fault. exit_status result ≡ status_of fault) }
{
    match outcome {
        Ok(()) => ExitCode::SUCCESS,
        Err(fault) => ExitCode::from(fault.status()),
    }
}

impl From<AllocError> for RunFault {
    ghost from_gives = { λ error fault. fault ≡ Memory error };

    fn from(error: AllocError) -> RunFault {
        RunFault::Memory(error)
    }
}

impl From<ParseError> for RunFault {
    ghost from_gives = { λ error fault. fault ≡ BadPointer error };

    fn from(error: ParseError) -> RunFault {
        RunFault::BadPointer(error)
    }
}

impl From<Fault<resolve::Error>> for RunFault {
    ghost from_gives = { λ error fault. fault ≡ of_resolve_fault error };

    fn from(error: Fault<resolve::Error>) -> RunFault {
        match error {
            Fault::Refused(error) => RunFault::NoValue(error),
            Fault::Memory(error) => RunFault::Memory(error),
        }
    }
}

impl From<InTextError> for RunFault {
    ghost from_gives = { λ error fault. fault ≡ of_in_text_fault error };

    fn from(error: InTextError) -> RunFault {
        match error {
            InTextError::NotJson => RunFault::InputNotJson,
            InTextError::Resolve(error) => RunFault::NoValue(error),
            InTextError::Memory(error) => RunFault::Memory(error),
        }
    }
}

impl From<Fault<assign::Error>> for RunFault {
    ghost from_gives = { λ error fault. fault ≡ of_assign_fault error };

    fn from(error: Fault<assign::Error>) -> RunFault {
        match error {
            Fault::Refused(error) => RunFault::BadPlace(error),
            Fault::Memory(error) => RunFault::Memory(error),
        }
    }
}

impl From<Fault<PatchError>> for RunFault {
    ghost from_gives = { λ error fault. fault ≡ of_patch_fault error };

    fn from(error: Fault<PatchError>) -> RunFault {
        match error {
            Fault::Refused(error) => RunFault::BadPatch(error),
            Fault::Memory(error) => RunFault::Memory(error),
        }
    }
}

impl From<InputError> for RunFault {
    ghost from_gives = { λ error fault. fault ≡ of_input_fault error };

    fn from(error: InputError) -> RunFault {
        match error {
            InputError::Memory(error) => RunFault::Memory(error),
            InputError::Read => RunFault::Read,
        }
    }
}

impl From<WriteError> for RunFault {
    ghost from_gives = { λ _ fault. fault ≡ Write };

    fn from(_error: WriteError) -> RunFault {
        RunFault::Write
    }
}

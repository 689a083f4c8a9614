//! A file that is written beside another result, whole or not at all.

use crate::in_place::{NAMES, open_file, path_beside, replace_text};
use crate::input::file_error;
use crate::program_error::ProgramError;
use std::fs::OpenOptions;
use std::io::ErrorKind;
use std::{fs, io};

/// A file that was written. It stays, or what was there before comes back.
#[derive(Drop)]
pub struct Written {
    /// Its path, or that of the file that a link leads to.
    path: String,
    /// A link to the file that was there before, if one was.
    old: Option<String>,
}

impl Written {
    /// Writes the text to the file, which is created if it is missing, and else replaced.
    ///
    /// A symbolic link is followed, and stays. After an error the file is what it was before.
    pub fn write(rt: &HostRuntime, path: &str, text: &str) -> Result<Written, ProgramError> {
        match Written::prepare(rt, path) {
            Ok(written) => {
                let replaced = replace(rt, path, text);
                written.settle(rt, replaced)
            }
            Err(error) => Err(file_error(rt.alloc(), path, &error)),
        }
    }

    /// Creates the file, or links the one that is there.
    fn prepare(rt: &HostRuntime, path: &str) -> io::Result<Written> {
        match OpenOptions::new()
            .write(true)
            .create_new(true)
            .open(rt, path)
        {
            Ok(_) => Ok(Written {
                path: String::from_str(rt.alloc(), path)?,
                old: None,
            }),
            Err(error) if error.kind() == ErrorKind::AlreadyExists => Written::link(rt, path),
            Err(error) => Err(error),
        }
    }

    /// Links the file that is there under a free name beside it.
    fn link(rt: &HostRuntime, path: &str) -> io::Result<Written> {
        let path = String::from_str(rt.alloc(), fs::canonicalize(rt, path)?.as_path().as_str())?;
        if !fs::metadata(rt, path.as_str())?.is_file() {
            return Err(io::Error::new(ErrorKind::InvalidInput, "not a regular file"));
        }
        for number in 0..NAMES {
            let old = path_beside(rt.alloc(), path.as_str(), number)?;
            if link_if_free(rt, path.as_str(), old.as_str())? {
                return Ok(Written {
                    path,
                    old: Some(old),
                });
            }
        }
        Err(io::Error::from(ErrorKind::AlreadyExists))
    }

    /// Lets the file stay if the change was made, and else brings back what was there before.
    pub fn settle(
        self,
        rt: &HostRuntime,
        change: Result<(), ProgramError>,
    ) -> Result<Written, ProgramError> {
        match change {
            Ok(()) => Ok(self),
            Err(error) => {
                // The first error is the one to report.
                let _ = self.take_back(rt);
                Err(error)
            }
        }
    }

    /// Brings back what was there before.
    fn take_back(&self, rt: &HostRuntime) -> io::Result<()> {
        match &self.old {
            Some(old) => {
                fs::rename(rt, old.as_str(), self.path.as_str())?;
                // Between two names of one file, a rename does nothing.
                let _ = fs::remove_file(rt, old.as_str());
                Ok(())
            }
            None => fs::remove_file(rt, self.path.as_str()),
        }
    }

    /// Removes the link to the file that was there before.
    pub fn keep(self, rt: &HostRuntime) {
        if let Some(old) = &self.old {
            let _ = fs::remove_file(rt, old.as_str());
        }
    }
}

/// Links the file under a new path, or returns `false` if that is taken.
fn link_if_free(rt: &HostRuntime, path: &str, new: &str) -> io::Result<bool> {
    match fs::hard_link(rt, path, new) {
        Ok(()) => Ok(true),
        Err(error) if error.kind() == ErrorKind::AlreadyExists => Ok(false),
        Err(error) => Err(error),
    }
}

/// Replaces the text of the file.
fn replace(rt: &HostRuntime, path: &str, text: &str) -> Result<(), ProgramError> {
    let (target, _) = open_file(rt, path)?;
    replace_text(rt, path, &target, text)
}

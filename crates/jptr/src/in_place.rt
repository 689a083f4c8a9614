//! Editing a file in place: it is locked and read, and its text is replaced.
ghost use Rattle.std.specs.Prelude.{reverse};

use crate::input::file_error;
use crate::program_error::ProgramError;
use crate::shown::shown;
use jptr_tasks::replacement::{Event, FileSystem, Replaced, replace};
use std::alloc::{AllocError, Global};
use std::fs::{File, Metadata, OpenOptions, Permissions, TryLockError};
use std::io::{ErrorKind, Read, Write};
use std::os::unix::fs::{MetadataExt, OpenOptionsExt, PermissionsExt, fchown};
use std::{fs, io};

/// The number of names that are tried for a file beside another one.
pub const NAMES: u32 = 1_000;

/// The rights of the group.
const GROUP: u32 = 0o070;

/// The right to run a program as the owner of its file.
const SET_USER: u32 = 0o4000;

/// The right to run a program as the group of its file.
const SET_GROUP: u32 = 0o2000;

/// Opens the file for an edit, and reads its text.
pub fn open_file(rt: &HostRuntime, path: &str) -> Result<(EditedFile, Vec<u8>), ProgramError> {
    match EditedFile::open(rt, path) {
        Ok(opened) => Ok(opened),
        Err(error) => Err(file_error(rt.alloc(), path, &error)),
    }
}

/// Replaces the text of the file. If the folder cannot be synced after that, it prints a warning.
pub fn replace_text(
    rt: &HostRuntime,
    path: &str,
    target: &EditedFile,
    text: &str,
) -> Result<(), ProgramError> {
    match target.replace(rt, text) {
        Ok(Replaced::Durable) => Ok(()),
        Ok(Replaced::NotSynced(error)) => {
            let name = shown(rt.alloc(), path)?;
            let _ = eprintln!(rt;
                "jptr: {name}: changed, but its folder could not be synced: {error}"
            );
            Ok(())
        }
        Err(error) => Err(file_error(rt.alloc(), path, &error)),
    }
}

/// A regular file that is open for an edit. While it is, no other edit of this program opens it, if the
/// file system has locks.
#[derive(Drop)]
pub struct EditedFile {
    /// Its path, without links.
    path: String,
    /// The open file, which has the lock.
    file: File,
    /// What the system said of it when it was opened.
    seen: Metadata,
}

impl EditedFile {
    /// Opens the file, and reads its text. A symbolic link is followed, and stays.
    ///
    /// # Errors
    ///
    /// Those of the system; one if the file is not a regular file; and one if another edit has it
    /// open.
    fn open(rt: &HostRuntime, path: &str) -> io::Result<(EditedFile, Vec<u8>)> {
        let path = String::from_str(rt.alloc(), fs::canonicalize(rt, path)?.as_path().as_str())?;
        let mut file = File::open(rt, path.as_str())?;
        let seen = file.metadata()?;
        if !seen.is_file() {
            return Err(io::Error::new(ErrorKind::InvalidInput, "not a regular file"));
        }
        match file.try_lock() {
            Ok(()) => {}
            Err(TryLockError::WouldBlock) => {
                return Err(io::Error::new(ErrorKind::ResourceBusy, "another edit is at work"));
            }
            // Some file systems have no locks.
            Err(TryLockError::Error(_)) => {}
        }
        let mut bytes = Vec::new(rt.alloc());
        file.read_to_end(&mut bytes)?;
        Ok((EditedFile { path, file, seen }, bytes))
    }

    /// Replaces the text of the file.
    ///
    /// # Errors
    ///
    /// Those of the system, and one if somebody else has changed the file since it was opened. The
    /// file has the old text.
    fn replace(&self, rt: &HostRuntime, text: &str) -> io::Result<Replaced<io::Error>> {
        let mut system = System {
            rt,
            target: self,
            text,
            temporary: None,
            log: Vec::new(rt.alloc()),
        };
        replace(&mut system)
    }
}

/// A file and its folder, as the system has them, and the calls that were made.
#[derive(Drop)]
struct System<'t> {
    /// The runtime.
    rt: &'t HostRuntime,
    /// The file that is replaced.
    target: &'t EditedFile,
    /// The new text.
    text: &'t str,
    /// The temporary file, once it is there.
    temporary: Option<Temporary>,
    /// The calls that were made, and whether each succeeded.
    log: Vec<Event>,
}

/// The temporary file, which is renamed over the file.
#[derive(Drop)]
struct Temporary {
    /// Its path.
    path: String,
    /// The open file.
    file: File,
}

impl FileSystem for System<'_> {
    type Error = io::Error;

    ghost events = { λ system. reverse system.log.items };

    fn create(&mut self) -> io::Result<()> {
        self.log.reserve(1)?;
        let created = create_beside(self.rt, self.target.path.as_str());
        self.log.push_reserved(Event::Create(created.is_ok()));
        self.temporary = Some(created?);
        Ok(())
    }

    fn write(&mut self) -> io::Result<()> {
        self.log.reserve(1)?;
        let result = match &mut self.temporary {
            Some(temporary) => temporary.file.write_all(self.text.as_bytes()),
            None => Err(no_file()),
        };
        self.log.push_reserved(Event::Write(result.is_ok()));
        result
    }

    fn take_rights(&mut self) -> io::Result<()> {
        self.log.reserve(1)?;
        let result = match &self.temporary {
            Some(temporary) => take_rights(&temporary.file, &self.target.seen),
            None => Err(no_file()),
        };
        self.log.push_reserved(Event::TakeRights(result.is_ok()));
        result
    }

    fn sync(&mut self) -> io::Result<()> {
        self.log.reserve(1)?;
        let result = match &self.temporary {
            Some(temporary) => temporary.file.sync_all(),
            None => Err(no_file()),
        };
        self.log.push_reserved(Event::Sync(result.is_ok()));
        result
    }

    fn look(&mut self) -> io::Result<()> {
        self.log.reserve(1)?;
        let result = look(self.rt, self.target);
        self.log.push_reserved(Event::Look(result.is_ok()));
        result
    }

    fn rename(&mut self) -> io::Result<()> {
        self.log.reserve(1)?;
        let result = match &self.temporary {
            Some(temporary) => fs::rename(
                self.rt,
                temporary.path.as_str(),
                self.target.path.as_str(),
            ),
            None => Err(no_file()),
        };
        self.log.push_reserved(Event::Rename(result.is_ok()));
        result
    }

    fn sync_folder(&mut self) -> io::Result<()> {
        self.log.reserve(1)?;
        let result = sync_folder(self.rt, self.target.path.as_str());
        self.log.push_reserved(Event::SyncFolder(result.is_ok()));
        result
    }

    fn remove(&mut self) -> io::Result<()> {
        self.log.reserve(1)?;
        let result = match &self.temporary {
            Some(temporary) => fs::remove_file(self.rt, temporary.path.as_str()),
            None => Err(no_file()),
        };
        self.log.push_reserved(Event::Remove(result.is_ok()));
        result
    }
}

/// Creates the temporary file beside the file, which only its owner can read. No link is followed.
fn create_beside(rt: &HostRuntime, target: &str) -> io::Result<Temporary> {
    for number in 0..NAMES {
        let path = path_beside(rt.alloc(), target, number)?;
        if let Some(file) = create_if_free(rt, path.as_str())? {
            return Ok(Temporary { path, file });
        }
    }
    Err(io::Error::from(ErrorKind::AlreadyExists))
}

/// Returns the path with this number of a file beside another one.
pub fn path_beside(alloc: Global, path: &str, number: u32) -> Result<String, AllocError> {
    format!(in alloc; "{path}.jptr-{number}")
}

/// Creates a file that only its owner can read, or returns `None` if the path is taken.
fn create_if_free(rt: &HostRuntime, path: &str) -> io::Result<Option<File>> {
    let opened = OpenOptions::new()
        .write(true)
        .create_new(true)
        .mode(0o600)
        .open(rt, path);
    match opened {
        Ok(file) => Ok(Some(file)),
        Err(error) if error.kind() == ErrorKind::AlreadyExists => Ok(None),
        Err(error) => Err(error),
    }
}

/// Returns the error of a call before the temporary file is there.
fn no_file() -> io::Error {
    io::Error::from(ErrorKind::NotFound)
}

/// Gives the open file the owner, the group and the rights of the one that was seen.
///
/// Only a privileged process can give a file away, and another one can give it only a group of its
/// own. Rights that would then belong to another user or group are not given.
fn take_rights(file: &File, seen: &Metadata) -> io::Result<()> {
    let mut mode = seen.mode() & 0o7777;
    if fchown(file, Some(seen.uid()), None).is_err() {
        mode &= !SET_USER;
    }
    if fchown(file, None, Some(seen.gid())).is_err() {
        mode &= !(GROUP | SET_GROUP);
    }
    file.set_permissions(Permissions::from_mode(mode))
}

/// Fails if the file is not the one that was opened, or was changed since.
fn look(rt: &HostRuntime, target: &EditedFile) -> io::Result<()> {
    let now = fs::metadata(rt, target.path.as_str())?;
    if is_same(&now, &target.seen) {
        Ok(())
    } else {
        let message = "it was changed by somebody else, so nothing is written";
        Err(io::Error::new(ErrorKind::Other, message))
    }
}

/// Returns whether the metadata are those of one file that was not changed in between. A time of
/// modification can be set back, and the time of change cannot.
fn is_same(now: &Metadata, seen: &Metadata) -> bool {
    (now.dev(), now.ino(), now.size()) == (seen.dev(), seen.ino(), seen.size())
        && (now.mtime(), now.mtime_nsec()) == (seen.mtime(), seen.mtime_nsec())
        && (now.ctime(), now.ctime_nsec()) == (seen.ctime(), seen.ctime_nsec())
}

/// Syncs the folder of the file, so that the new name is on the device.
fn sync_folder(rt: &HostRuntime, path: &str) -> io::Result<()> {
    let folder = match path.rfind('/') {
        Some(0) | None => "/",
        Some(end) => &path[..end],
    };
    File::open(rt, folder)?.sync_all()
}

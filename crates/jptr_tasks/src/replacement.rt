//! Replacing the text of a file, so that a crash at any moment leaves the old text or the new one,
//! whole.
//!
//! The new text is written to a temporary file beside the file, which is then renamed over it. The
//! order of the calls is proved here, over any [`FileSystem`].
ghost use Rattle.std.specs.Prelude.{◌≡◌, [], ◌∷◌, List, true, Ok, OnErr, OnOk};
ghost use Rattle.jptr_tasks.specs.Replacement.{AtEachMoment, IsDurable, IsGuarded, IsReplaced, IsUnchanged};
ghost use Rattle.jptr_tasks.specs.PrivateReplacement.{IsSafe, all_calls};
ghost use Rattle.jptr_tasks.specs.declared.replacement.Event.{Event as SpecEvent};
ghost use Rattle.jptr_tasks.specs.declared.replacement.Event.TheVariants as event;
ghost use Rattle.jptr_tasks.specs.declared.replacement.Replaced.TheVariants.{Durable};

/// A call that was made, and whether it succeeded.
#[derive(Clone, Copy, Debug, PartialEq, Eq)]
pub enum Event {
    /// The temporary file was created, which only its owner may read.
    Create(bool),
    /// The new text was appended to it.
    Write(bool),
    /// It was given the owner, the group and the rights of the file, or fewer rights.
    TakeRights(bool),
    /// It was synced to the device.
    Sync(bool),
    /// The file was looked at: it is still the one that was read.
    Look(bool),
    /// The temporary file was renamed over the file.
    Rename(bool),
    /// The folder was synced to the device.
    SyncFolder(bool),
    /// The temporary file was removed.
    Remove(bool),
}

/// The system's calls on a file, its folder, and the temporary file with the new text.
pub trait FileSystem {
    ghost use Rattle.jptr_tasks.specs.Replacement.{Tries};

    /// Why a call fails.
    type Error: Drop;

    /// The calls that were made, the latest first.
    ghost events: { Self → List SpecEvent };

    /// Creates the temporary file beside the file, which only its owner may read.
    fn create(&mut self) -> Result<(), Self::Error>
        ensures { Tries event.Create (events self.old) result (events self.new) };

    /// Appends the new text to the file that was created. If it fails, it may have appended other bytes.
    fn write(&mut self) -> Result<(), Self::Error>
        ensures { Tries event.Write (events self.old) result (events self.new) };

    /// Gives the temporary file the owner, the group and the rights of the file, or fewer rights.
    fn take_rights(&mut self) -> Result<(), Self::Error>
        ensures { Tries event.TakeRights (events self.old) result (events self.new) };

    /// Syncs the temporary file to the device.
    fn sync(&mut self) -> Result<(), Self::Error>
        ensures { Tries event.Sync (events self.old) result (events self.new) };

    /// Fails if the file is not the one that was read any more.
    fn look(&mut self) -> Result<(), Self::Error>
        ensures { Tries event.Look (events self.old) result (events self.new) };

    /// Renames the temporary file over the file.
    fn rename(&mut self) -> Result<(), Self::Error>
        ensures { Tries event.Rename (events self.old) result (events self.new) };

    /// Syncs the folder to the device.
    fn sync_folder(&mut self) -> Result<(), Self::Error>
        ensures { Tries event.SyncFolder (events self.old) result (events self.new) };

    /// Removes the temporary file.
    fn remove(&mut self) -> Result<(), Self::Error>
        ensures { Tries event.Remove (events self.old) result (events self.new) };
}

/// How well a file is replaced.
#[derive(Debug, Drop)]
pub enum Replaced<E: Drop> {
    /// The file has the new text, also after a crash.
    Durable,
    /// The file has the new text. After a crash it may have the old one, since the folder was not
    /// synced for this reason.
    NotSynced(E),
}

/// Replaces the text of the file.
///
/// Creates a temporary file, writes the new text to it once, copies the file's rights to it, and
/// syncs it. Looks whether the file was changed since it was read. If not, renames the temporary file
/// over it, and syncs the folder.
///
/// At each moment a program that opens the file reads a text, which is the old one or the new one, and
/// a crash leaves one of them. With [`Replaced::Durable`] it leaves the new one.
///
/// # Errors
///
/// That of the first call that fails, up to the rename. The file has the old text. That the temporary
/// file is removed then, and whose error it is, is tested.
///
/// # Conditions
///
/// No call was made yet: the events of the system are empty.
pub fn replace<S: FileSystem>(system: &mut S) -> Result<Replaced<S::Error>, S::Error>
    requires { S.events system.old ≡ [] }
    ensures moments { AtEachMoment (S.events system.new) }
    ensures replaced { OnOk result (IsReplaced (S.events system.new)) }
    ensures durable { result ≡ Ok Durable → IsDurable (S.events system.new) }
    ensures unchanged { OnErr result (IsUnchanged (S.events system.new)) }
    ensures guarded { IsGuarded (S.events system.new) }
{
    system.create()?;
    match fill(system) {
        Ok(()) => match system.sync_folder() {
            Ok(()) => Ok(Replaced::Durable),
            Err(error) => Ok(Replaced::NotSynced(error)),
        },
        Err(error) => {
            let _ = system.remove();
            Err(error)
        }
    }
}

/// Fills the temporary file, and renames it over the file.
fn fill<S: FileSystem>(system: &mut S) -> Result<(), S::Error>
    requires { S.events system.old ≡ event.Create true ∷ [] }
    ensures filled { OnOk result (S.events system.new ≡ all_calls) }
    ensures safe { OnErr result (IsSafe (S.events system.new)) }
{
    system.write()?;
    system.take_rights()?;
    system.sync()?;
    system.look()?;
    system.rename()
}

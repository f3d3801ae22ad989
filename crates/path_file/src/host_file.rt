//! A file of the system, by std's calls.
ghost use Rattle.std.specs.Prelude.{None};

use crate::draft::Draft;
use crate::fault::{Call, Fault};
use crate::system_file::SystemFile;
use edge::RawFile;
use std::fs::{self, File, Metadata, OpenOptions, TryLockError};
use std::io::{self, ErrorKind};
use std::os::fd::AsRawFd;
use std::os::unix::fs::FileExt;
use std::rt::Files;

/// What a run does with its file.
#[derive(Clone, Copy)]
pub enum Access {
    /// It reads it, beside other runs that read it. There is none where there is none, and what it writes it alone sees.
    Read,
    /// It reads and writes it, and no other run has it meanwhile. Where there is none it is made.
    Write,
}

/// How a file is open.
#[derive(Drop)]
enum Opened {
    Not,
    File(File),
    /// It is in memory, as the run that only reads wrote it, or since there is none.
    Draft(Draft),
}

/// The file at a path in a folder. A link is followed to the file where it leads, and only a regular file is opened. It is locked
/// until it is closed: by the lock of one writer, or by that which readers share; where that cannot be had at once, it is not
/// opened. A file that is made is empty, and its folder is synced. As a `RawFile` it tells nothing of what it holds. What is trusted
/// is that std's calls do what they are called for, and that it makes them.
#[derive(Drop)]
pub struct HostFile<'a, R: Files<File = File>> {
    files: &'a R,
    folder: &'a str,
    path: &'a str,
    access: Access,
    opened: Opened,
    refused: Option<Fault>,
}

impl<'a, R: Files<File = File>> HostFile<'a, R> {
    /// The file at `path`, which is that of a name in `folder`. No call is made yet.
    pub fn new(files: &'a R, folder: &'a str, path: &'a str, access: Access) -> Self {
        HostFile {
            files,
            folder,
            path,
            access,
            opened: Opened::Not,
            refused: None,
        }
    }

    /// Opens the file, where it is not open. Why that fails is noted.
    fn open(&mut self) -> io::Result<()> {
        if matches!(self.opened, Opened::Not) {
            let opened = match self.access {
                Access::Read => self.for_reading(),
                Access::Write => self.for_writing(),
            };
            match opened {
                Ok(opened) => self.opened = opened,
                Err(fault) => {
                    self.refused = Some(fault);
                    return Err(fault.error);
                }
            }
        }
        self.refused = None;
        Ok(())
    }

    /// The file, opened to be read, and locked.
    fn for_reading(&self) -> Result<Opened, Fault> {
        match self.found() {
            Ok(file) => {
                locked(file.try_lock_shared())?;
                Ok(Opened::File(file))
            }
            Err(error) if error.kind() == ErrorKind::NotFound && !self.is_named() => {
                Draft::of(&[]).map(Opened::Draft).map_err(not_opened)
            }
            Err(error) => Err(not_opened(error)),
        }
    }

    /// The file, opened to be read and written, and locked; it is made where there is none.
    fn for_writing(&self) -> Result<Opened, Fault> {
        let found = match self.found() {
            Err(error) if error.kind() == ErrorKind::NotFound => self.made()?,
            found => found.map_err(not_opened)?,
        };
        locked(found.try_lock())?;
        Ok(Opened::File(found))
    }

    /// The file that stands there, opened.
    fn found(&self) -> io::Result<File> {
        // A fifo would be waited for, and a device may act, so the kind is asked for first; and again, since it may have changed.
        regular(&fs::metadata(self.files, self.path)?)?;
        let file = OpenOptions::new()
            .read(true)
            .write(matches!(self.access, Access::Write))
            .open(self.files, self.path)?;
        regular(&file.metadata()?)?;
        apart(file)
    }

    /// A new file there; or the one that another run made meanwhile. A link that leads nowhere is no place for one.
    fn made(&self) -> Result<File, Fault> {
        let made = OpenOptions::new()
            .read(true)
            .write(true)
            .create_new(true)
            .open(self.files, self.path);
        match made {
            Err(error) if error.kind() == ErrorKind::AlreadyExists => {
                self.found().map_err(not_opened)
            }
            made => {
                let file = apart(made.map_err(not_opened)?).map_err(not_opened)?;
                self.sync_folder().map_err(|error| Fault {
                    call: Call::Sync,
                    error,
                })?;
                Ok(file)
            }
        }
    }

    /// Waits until the name of the file is kept.
    fn sync_folder(&self) -> io::Result<()> {
        File::open(self.files, self.folder)?.sync_all()
    }

    /// Whether there is something of that name, be it a link that leads nowhere.
    fn is_named(&self) -> bool {
        fs::symlink_metadata(self.files, self.path).is_ok()
    }

    /// Takes what a run that only reads writes. It is at most what is read at the beginning of a file without records: the whole of it.
    fn draft(&mut self, bytes: &[u8], at: u64) -> io::Result<()> {
        let len = self.len()?;
        if at > 0 || (bytes.len() as u64) < len {
            return Err(ErrorKind::PermissionDenied.into());
        }
        self.opened = Opened::Draft(Draft::of(bytes)?);
        Ok(())
    }
}

impl<'a, R: Files<File = File>> SystemFile for HostFile<'a, R> {
    ghost refused = { λ f. f.refused };

    fn refused(&self) -> Option<Fault> {
        self.refused
    }
}

impl<'a, R: Files<File = File>> RawFile for HostFile<'a, R> {
    ghost now = { λ _. None };

    ghost moment = { λ _. 0 };

    ghost images = { λ _ _. ⊥ };

    ghost images_at = { λ _ _ _. ⊥ };

    ghost since = { λ _ _ _. ⊥ };

    fn len(&mut self) -> io::Result<u64> {
        self.open()?;
        match &self.opened {
            Opened::File(file) => Ok(file.metadata()?.len()),
            Opened::Draft(draft) => Ok(draft.len()),
            Opened::Not => Err(closed()),
        }
    }

    fn read_exact_at(&mut self, into: &mut [u8], at: u64) -> io::Result<()> {
        self.open()?;
        match &self.opened {
            Opened::File(file) => file.read_exact_at(into, at),
            Opened::Draft(draft) => draft.read_exact_at(into, at),
            Opened::Not => Err(closed()),
        }
    }

    fn write_all_at(&mut self, bytes: &[u8], at: u64) -> io::Result<()> {
        self.open()?;
        match (&self.opened, self.access) {
            (Opened::Not, _) => Err(closed()),
            (Opened::File(file), Access::Write) => file.write_all_at(bytes, at),
            _ => self.draft(bytes, at),
        }
    }

    fn sync_all(&mut self) -> io::Result<()> {
        self.open()?;
        match &self.opened {
            Opened::File(file) => file.sync_all(),
            Opened::Draft(_) => Ok(()),
            Opened::Not => Err(closed()),
        }
    }

    ghost now_is_image = { λ _. tt };

    ghost images_at_now = { λ _ _. (λ image. image, λ image. image) };

    ghost some_image = { λ _. tt };

    ghost since_is = { λ _ _ _. (λ image. absurd image, λ was. absurd was.image) };

    ghost counts_now = { λ _ _ image. image };

    ghost only_now = { λ _ _ since. since };

    ghost since_earlier = { λ _ _ _ _ _ since. since };
}

/// The error of a call on a file that is not open.
fn closed() -> io::Error {
    ErrorKind::NotFound.into()
}

/// The fault of an opening.
fn not_opened(error: io::Error) -> Fault {
    Fault {
        call: Call::Open,
        error,
    }
}

/// What came of asking for the lock.
fn locked(asked: Result<(), TryLockError>) -> Result<(), Fault> {
    asked.map_err(|refused| Fault {
        call: Call::Lock,
        error: refused.into(),
    })
}

/// An error where this is of something else than a regular file.
fn regular(found: &Metadata) -> io::Result<()> {
    if found.is_file() {
        Ok(())
    } else {
        Err(ErrorKind::NotSeekable.into())
    }
}

/// The file by a number that is none of a standard stream, so that nothing that is printed comes into it where such a stream was
/// closed.
fn apart(file: File) -> io::Result<File> {
    if file.as_raw_fd() > 2 {
        Ok(file)
    } else {
        file.try_clone()
    }
}

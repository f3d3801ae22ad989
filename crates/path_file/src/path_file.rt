//! A file that knows which of its calls failed last.
ghost use Rattle.std.specs.Prelude.{◌≡◌, None, Some, Option, OnOk, IfErr};
ghost use Rattle.path_file.specs.declared.fault.Fault.{Fault as FaultValue};
ghost use Rattle.path_file.specs.Faults.{fault_of};

use crate::fault::{Call, Fault};
use crate::system_file::SystemFile;
use edge::{FileDisk, RawFile};
use std::io;

/// A file of the system whose last call that failed is noted. Its calls are those of the system's file, and what that tells it
/// tells too.
#[derive(Drop)]
pub struct PathFile<F: SystemFile> {
    file: F,
    fault: Option<Fault>,
}

impl<F: SystemFile> PathFile<F> {
    /// This file. No call is made yet.
    pub fn new(file: F) -> Self
        ensures file { result.file ≡ file }
        ensures fault { result.fault ≡ None }
    {
        PathFile { file, fault: None }
    }

    /// What came of a call. That it failed is noted, with the system's error.
    fn noted<T>(&mut self, call: Call, done: io::Result<T>) -> io::Result<T>
        ensures same { result ≡ done }
        ensures file { self.new.file ≡ self.old.file }
        ensures done { OnOk result (self.new.fault ≡ self.old.fault) }
        ensures failed { IfErr done (λ e. self.new.fault ≡ Some (fault_of (F.refused self.old.file) call e)) }
    {
        if let Err(error) = &done {
            self.fault = Some(self.fault_of(call, *error));
        }
        done
    }

    /// The fault of a call with this error: that of the opening, where the file was not opened for it.
    fn fault_of(&self, call: Call, error: io::Error) -> Fault
        ensures { result ≡ fault_of (F.refused self.now.file) call error }
    {
        match self.file.refused() {
            Some(refused) => refused,
            None => Fault { call, error },
        }
    }
}

impl<F: SystemFile> RawFile for PathFile<F> {
    ghost now = { λ f. F.now f.file };

    ghost moment = { λ f. F.moment f.file };

    ghost images = { λ f. F.images f.file };

    ghost images_at = { λ f. F.images_at f.file };

    ghost since = { λ f. F.since f.file };

    fn len(&mut self) -> io::Result<u64> {
        let done = self.file.len();
        self.noted(Call::Measure, done)
    }

    fn read_exact_at(&mut self, into: &mut [u8], at: u64) -> io::Result<()> {
        let done = self.file.read_exact_at(into, at);
        self.noted(Call::Read, done)
    }

    fn write_all_at(&mut self, bytes: &[u8], at: u64) -> io::Result<()> {
        let done = self.file.write_all_at(bytes, at);
        self.noted(Call::Write, done)
    }

    fn sync_all(&mut self) -> io::Result<()> {
        let done = self.file.sync_all();
        self.noted(Call::Sync, done)
    }

    ghost now_is_image = { λ f. F.now_is_image f.file };

    ghost images_at_now = { λ f. F.images_at_now f.file };

    ghost some_image = { λ f. F.some_image f.file };

    ghost since_is = { λ f. F.since_is f.file };

    ghost counts_now = { λ f. F.counts_now f.file };

    ghost only_now = { λ f. F.only_now f.file };

    ghost since_earlier = { λ f. F.since_earlier f.file };
}

/// What knows the call of the system that failed last.
pub trait KnowsFault {
    /// That call, none where none failed.
    ghost fault: { Self → Option FaultValue };

    /// That call, none where none failed.
    fn fault(&self) -> Option<Fault>
        ensures { result ≡ fault self.now };
}

impl<F: SystemFile> KnowsFault for FileDisk<PathFile<F>> {
    ghost fault = { λ disk. disk.file.fault };

    fn fault(&self) -> Option<Fault> {
        self.file().fault
    }
}

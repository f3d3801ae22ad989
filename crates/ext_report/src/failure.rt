//! Why a run has no answer, and its status.
ghost use Rattle.std.specs.Prelude.{◌≡◌};
ghost use Rattle.ext_report.specs.declared.failure.Failure.TheVariants.{Certificate as NoCertificate, Memory as WantOfMemory};
ghost use Rattle.ext_report.specs.Failure.{status_of, words_failure, read_failure, file_failure, build_failure, resume_failure, classes_failure};

use crate::status::{
    MALFORMED, NO_CERTIFICATE, NO_CLASS, NO_MEMORY, NO_MODULE, NONZERO, OUTSIDE_GRAMMAR,
    PAST_LIMIT, READING, SAVE_FILE, SAVING, WRITING,
};
use cert_check::CertFault;
use edge::ReadFault;
use ext_products::{ClassesFault, Refusal};
use ext_words::WordsFault;
use memory::Memory;
use module_build::BuildFault;
use module_check::CheckFault;
use module_json::{Malformed, What};
use module_spec::Spec;
use save_file::ResumeFault;
use save_journal::OpenFault;
use std::alloc::{AllocError, AllocFailed};

/// Why a run has no answer. A program needs it too, as it needs `report`, for arguments that cannot be read.
#[derive(Drop)]
pub enum Failure {
    /// The words are outside the grammar.
    Words,
    /// What was read is no module file.
    Malformed(Malformed),
    /// The module file that was read describes no module.
    NotModule(Spec, CheckFault),
    /// What was to be built has too much of this.
    PastLimit(What),
    /// The module file could not be read.
    Reading,
    /// The answer could not be written.
    Writing,
    /// The save file could not be read or written.
    Saving,
    /// What is in the save file's place is none of the module. A disk that failed is `Saving`, and memory that ran out is
    /// `Memory`.
    SaveFile(ResumeFault),
    /// The save file is one of the module, and no certificate of the range.
    Certificate(CertFault),
    /// There is nothing to tell of the classes that the words name.
    Classes(Refusal),
    /// There was no memory.
    Memory,
}

impl From<Memory> for Failure {
    ghost from_gives = { λ _ failure. failure ≡ WantOfMemory };

    fn from(_: Memory) -> Self {
        Failure::Memory
    }
}

impl From<AllocError> for Failure {
    ghost from_gives = { λ _ failure. failure ≡ WantOfMemory };

    fn from(_: AllocError) -> Self {
        Failure::Memory
    }
}

impl<T: Drop> From<AllocFailed<T>> for Failure {
    ghost from_gives = { λ _ failure. failure ≡ WantOfMemory };

    fn from(_: AllocFailed<T>) -> Self {
        Failure::Memory
    }
}

impl From<WordsFault> for Failure {
    ghost from_gives = { λ fault failure. failure ≡ words_failure fault };

    fn from(fault: WordsFault) -> Self {
        match fault {
            WordsFault::Words => Failure::Words,
            WordsFault::Memory => Failure::Memory,
        }
    }
}

impl From<ReadFault> for Failure {
    ghost from_gives = { λ fault failure. failure ≡ read_failure fault };

    fn from(fault: ReadFault) -> Self {
        match fault {
            ReadFault::Failed => Failure::Reading,
            ReadFault::Memory => Failure::Memory,
        }
    }
}

impl From<Malformed> for Failure {
    ghost from_gives = { λ malformed failure. failure ≡ file_failure malformed };

    fn from(malformed: Malformed) -> Self {
        match malformed {
            Malformed::Memory => Failure::Memory,
            _ => Failure::Malformed(malformed),
        }
    }
}

impl From<BuildFault> for Failure {
    ghost from_gives = { λ fault failure. failure ≡ build_failure fault };

    fn from(fault: BuildFault) -> Self {
        match fault {
            BuildFault::Limit { what } => Failure::PastLimit(what),
            BuildFault::Memory => Failure::Memory,
        }
    }
}

impl From<ResumeFault> for Failure {
    ghost from_gives = { λ fault failure. failure ≡ resume_failure fault };

    fn from(fault: ResumeFault) -> Self {
        match fault {
            ResumeFault::Open(OpenFault::Failed) => Failure::Saving,
            ResumeFault::Open(OpenFault::Memory) | ResumeFault::Memory => Failure::Memory,
            _ => Failure::SaveFile(fault),
        }
    }
}

impl From<CertFault> for Failure {
    ghost from_gives = { λ fault failure. failure ≡ NoCertificate fault };

    fn from(fault: CertFault) -> Self {
        Failure::Certificate(fault)
    }
}

impl From<ClassesFault> for Failure {
    ghost from_gives = { λ fault failure. failure ≡ classes_failure fault };

    fn from(fault: ClassesFault) -> Self {
        match fault {
            ClassesFault::Refused(refusal) => Failure::Classes(refusal),
            ClassesFault::Memory => Failure::Memory,
        }
    }
}

impl Failure {
    /// The status that a program ends with.
    pub fn status(&self) -> u8
        ensures { result ≡ status_of self.now }
    {
        match self {
            Failure::Words => OUTSIDE_GRAMMAR,
            Failure::Malformed(Malformed::Memory) => NO_MEMORY,
            Failure::Malformed(_) => MALFORMED,
            Failure::NotModule(_, CheckFault::Memory) => NO_MEMORY,
            Failure::NotModule(_, _) => NO_MODULE,
            Failure::PastLimit(_) => PAST_LIMIT,
            Failure::Reading => READING,
            Failure::Writing => WRITING,
            Failure::Saving => SAVING,
            Failure::SaveFile(_) => SAVE_FILE,
            Failure::Certificate(_) => NO_CERTIFICATE,
            Failure::Classes(Refusal::NoClass { .. } | Refusal::OutOfRange { .. }) => NO_CLASS,
            Failure::Classes(Refusal::Nonzero { .. }) => NONZERO,
            Failure::Memory => NO_MEMORY,
        }
    }
}

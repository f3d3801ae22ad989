//! A file of the system that has to be opened.
ghost use Rattle.std.specs.Prelude.{◌≡◌, Option};
ghost use Rattle.path_file.specs.declared.fault.Fault.{Fault as FaultValue};

use crate::fault::Fault;
use edge::RawFile;

/// A file of the system, whose first call opens it; an opening that fails is tried again at the next call.
pub trait SystemFile: RawFile {
    /// Why it was not opened at its last call, none where it was.
    ghost refused: { Self → Option FaultValue };

    /// Why it was not opened at its last call, none where it was.
    fn refused(&self) -> Option<Fault>
        ensures { result ≡ refused self.now };
}

//! What the program tells behind the line of a failure: which call on the save file failed, and what is wrong with the words.
ghost use Rattle.std.specs.Prelude.{◌≡◌, ◌≤◌, ◌++◌, option_map, IfOk, OnOk, OnErr};
ghost use Rattle.std.specs.IoError.{error_kind};
ghost use Rattle.std.specs.Process.{exit_status};
ghost use Rattle.edge.specs.Faults.{HasRisen};
ghost use Rattle.edge.specs.Sink.{with_more, HasPrefixMore};
ghost use Rattle.ext_words.specs.Words.{texts_of};
ghost use Rattle.ext_program.specs.SecondLine.{call_text, reason_text, fault_line, remark_for, HasToldLine, HasToldFault, HasRemarked};

use edge::{Failed, Sink, write_all};
use ext_report::{NO_CLASS, OUTSIDE_GRAMMAR, SAVING};
use ext_words::{remark, remark_on_classes};
use memory::Memory;
use path_file::{Call, Fault};
use std::alloc::Global;
use std::io::{Error, ErrorKind};
use std::process::ExitCode;

/// What the program ends with: the status of the run. Where that is the status of a failed save file, and it is known which call on it
/// failed, a line says so.
pub(crate) fn finished<E: Sink>(status: u8, fault: Option<Fault>, err: &mut E) -> ExitCode
    ensures status { exit_status result ≡ status }
    ensures told { HasToldFault E.written E.faults status fault err.old err.new }
{
    if status == SAVING {
        if let Some(fault) = &fault {
            tell(fault, err);
        }
    }
    ExitCode::from(status)
}

/// Tells more of words outside the grammar, or of a class that is not there, where there is more to tell and memory for it.
pub(crate) fn remarked<E: Sink>(alloc: Global, status: u8, words: &[&str], err: &mut E)
    ensures { HasRemarked E.written E.faults status (texts_of words.now) err.old err.new }
{
    if let Ok(Some(line)) = remark_for(alloc, status, words) {
        tell_line(line.as_slice(), err);
    }
}

/// What there is to tell of these words behind the line of a failure with this status.
fn remark_for(alloc: Global, status: u8, words: &[&str]) -> Result<Option<Vec<u8>>, Memory>
    ensures { IfOk result (λ line. option_map (λ l. l.items) line ≡ remark_for status (texts_of words.now)) }
{
    if status == OUTSIDE_GRAMMAR {
        remark(alloc, words)
    } else if status == NO_CLASS {
        remark_on_classes(alloc, words)
    } else {
        Ok(None)
    }
}

/// Writes a line. Where it cannot be written, some first bytes of it are.
fn tell_line<E: Sink>(line: &[u8], err: &mut E)
    ensures { HasToldLine E.written E.faults line.now err.old err.new }
{
    let _ = write_all(err, line);
}

/// Tells which call on the save file failed. Where the line cannot be written, the status stays what it is.
fn tell<E: Sink>(fault: &Fault, err: &mut E)
    ensures { HasToldLine E.written E.faults (fault_line fault.now) err.old err.new }
{
    let _ = write_line(fault, err);
}

/// Writes the line on a call on the save file that failed. After an error some first bytes are written.
fn write_line<E: Sink>(fault: &Fault, err: &mut E) -> Result<(), Failed>
    ensures whole { OnOk result (E.written err.new ≡ with_more (E.written err.old) (fault_line fault.now)) }
    ensures never_fall { E.faults err.old ≤ E.faults err.new }
    ensures cause { OnErr result (HasRisen (E.faults err.old) (E.faults err.new)) }
    ensures prefix { HasPrefixMore (fault_line fault.now) (E.written err.old) (E.written err.new) }
{
    if fault.is_held() {
        return write_all(err, b"ext: another run holds ext.save\n");
    }
    write_both(err, call_text(fault.call), reason_text(&fault.error))
}

/// Writes one text and another behind it. After an error some first bytes are written.
fn write_both<E: Sink>(err: &mut E, one: &[u8], other: &[u8]) -> Result<(), Failed>
    ensures whole { OnOk result (E.written err.new ≡ with_more (E.written err.old) (one.now ++ other.now)) }
    ensures never_fall { E.faults err.old ≤ E.faults err.new }
    ensures cause { OnErr result (HasRisen (E.faults err.old) (E.faults err.new)) }
    ensures prefix { HasPrefixMore (one.now ++ other.now) (E.written err.old) (E.written err.new) }
{
    write_all(err, one)?;
    write_all(err, other)
}

/// How the line begins: which call failed.
fn call_text(call: Call) -> &'static [u8]
    ensures { result.now ≡ call_text call }
{
    match call {
        Call::Open => b"ext: ext.save: cannot open: ",
        Call::Lock => b"ext: ext.save: cannot lock: ",
        Call::Measure => b"ext: ext.save: cannot tell its length: ",
        Call::Read => b"ext: ext.save: cannot read: ",
        Call::Write => b"ext: ext.save: cannot write: ",
        Call::Sync => b"ext: ext.save: cannot sync: ",
    }
}

/// How the line ends: the system's error, by its kind.
fn reason_text(error: &Error) -> &'static [u8]
    ensures { result.now ≡ reason_text (error_kind error.now) }
{
    match error.kind() {
        ErrorKind::NotFound => b"no such file\n",
        ErrorKind::PermissionDenied => b"permission denied\n",
        ErrorKind::ReadOnlyFilesystem => b"read-only file system\n",
        ErrorKind::StorageFull => b"no space left on device\n",
        ErrorKind::QuotaExceeded => b"disk quota exceeded\n",
        ErrorKind::FileTooLarge => b"file too large\n",
        ErrorKind::NotSeekable => b"not a regular file\n",
        ErrorKind::FilesystemLoop => b"too many links\n",
        ErrorKind::UnexpectedEof => b"it ends too early\n",
        ErrorKind::StaleNetworkFileHandle => b"stale file handle\n",
        ErrorKind::Unsupported => b"not supported\n",
        ErrorKind::Uncategorized => b"input/output error\n",
        _ => b"another error\n",
    }
}

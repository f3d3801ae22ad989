//! Laws over the definitions, as contracts of functions that do nothing.
ghost use Rattle.ext_run.specs.Answer.{AnswerIsUnique};
ghost use Rattle.ext_run.specs.Certificates.{CertificateIsDecided};
ghost use Rattle.ext_run.specs.Devices.{device_of, store_of};
ghost use Rattle.ext_run.specs.Existence.{AnswerExists};
ghost use Rattle.ext_run.specs.NextRun.{NextRunMayUse, NextRunPrintsTheSame, VerifyAcceptsWhatIsMade, ShortDiskIsOurs};

use edge::{Disk, Sink, Source};

/// Words have at most one answer to an input.
pub fn answer_is_unique()
    ensures { AnswerIsUnique }
{}

/// All words have an answer to each input. If they read it, it is asked that the input has a value as JSON, or is refused as
/// having none.
pub fn answer_exists()
    ensures { AnswerExists }
{
    resolution_existence::canonical_table_exists();
    resolution_laws::canonical_table_is_minimal_resolution();
    module_check::modules_are_graded_modules();
    module_check::accepted_is_module();
    ext_table::each_layout_has_answer();
    ext_products::one_product_answer_exists();
    ext_brackets::bracket_answer_exists();
    adem_laws::admissible_basis();
}

/// No save file of a module is a certificate of a range and none, and it is none for one reason at most.
pub fn certificate_is_decided()
    ensures { CertificateIsDecided }
{}

/// What a run for a module has left of the disk of its save file, a run for the same module may use that finds it: wherever the
/// first one was cut off, and whatever each of them uses it for. (`run` and `run_one` promise their text where the disk
/// may be used.)
pub fn next_run_may_use_what_is_left<D: Disk>()
    ensures { NextRunMayUse (store_of D.now D.moment D.images D.images_at D.since D.faults) }
{}

/// A run that finds what one of the same words and the same input has left of its disk, wherever that was cut off, prints the text
/// that the words have, and so that of the first run if that had one: it ends with just that text and status 0, if none of its calls
/// fails and memory does not end. Where the words have a refusal in place of a text, it ends with that.
pub fn next_run_prints_the_same<S: Source, O: Sink, E: Sink, D: Disk>()
    ensures { NextRunPrintsTheSame (device_of S.left S.faults) (device_of O.written O.faults)
        (device_of E.written E.faults) (store_of D.now D.moment D.images D.images_at D.since D.faults) }
{}

/// What a run with `--save` makes on a disk without records is a certificate of its range: `verify` accepts it, of this range or of a
/// part of it, if the run had an answer. It prints the chart then, if none of its calls fails and memory does not end.
pub fn verify_accepts_what_is_made<S: Source, O: Sink, E: Sink, D: Disk>()
    ensures { VerifyAcceptsWhatIsMade (device_of S.left S.faults) (device_of O.written O.faults)
        (device_of E.written E.faults) (store_of D.now D.moment D.images D.images_at D.since D.faults) }
{
    cert_check::canonical_table_lacks_quasis_alone();
}

/// A disk of which a crash leaves no more than a header and a gate, as an empty one, is every module's, with no
/// squares.
pub fn short_disk_is_ours<D: Disk>()
    ensures { ShortDiskIsOurs D.images }
{}

//! The statuses that a program ends with, by name.
ghost use Rattle.std.specs.Prelude.{◌≡◌};
ghost use Rattle.ext_report.specs.declared.status.TheConstants.{WRITTEN, OUTSIDE_GRAMMAR, MALFORMED, NO_MODULE, READING, WRITING, SAVING, SAVE_FILE, NONZERO, NO_CLASS, NO_MEMORY, NO_CERTIFICATE, PAST_LIMIT};

/// The answer is written whole.
pub const WRITTEN: u8 = 0;

/// The words are outside the grammar.
pub const OUTSIDE_GRAMMAR: u8 = 2;

/// What was read is no module file.
pub const MALFORMED: u8 = 3;

/// The module file that was read describes no module.
pub const NO_MODULE: u8 = 4;

/// The module file could not be read.
pub const READING: u8 = 6;

/// The answer could not be written.
pub const WRITING: u8 = 7;

/// The save file could not be read or written.
pub const SAVING: u8 = 8;

/// What is in the save file's place is none of the module.
pub const SAVE_FILE: u8 = 9;

/// A product of classes that has to be zero is not.
pub const NONZERO: u8 = 10;

/// A class is not there, or what is asked for is out of the range.
pub const NO_CLASS: u8 = 11;

/// There was no memory.
pub const NO_MEMORY: u8 = 12;

/// The save file is one of the module, and no certificate of the range.
pub const NO_CERTIFICATE: u8 = 13;

/// What was to be built passes a limit.
pub const PAST_LIMIT: u8 = 14;

/// The statuses are these numbers.
pub fn statuses_are_these()
    ensures written { WRITTEN ≡ 0 }
    ensures grammar { OUTSIDE_GRAMMAR ≡ 2 }
    ensures malformed { MALFORMED ≡ 3 }
    ensures module_ { NO_MODULE ≡ 4 }
    ensures reading { READING ≡ 6 }
    ensures writing { WRITING ≡ 7 }
    ensures saving { SAVING ≡ 8 }
    ensures save_file { SAVE_FILE ≡ 9 }
    ensures nonzero { NONZERO ≡ 10 }
    ensures class { NO_CLASS ≡ 11 }
    ensures memory { NO_MEMORY ≡ 12 }
    ensures certificate { NO_CERTIFICATE ≡ 13 }
    ensures limit { PAST_LIMIT ≡ 14 }
{}

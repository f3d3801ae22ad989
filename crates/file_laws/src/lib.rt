//! The file of a module gives the module back, as the contract of a function that does nothing.
//!
//! The crate stands above `derived_laws`, since a module is the one that its squares determine; `built_laws` does not wait
//! for that.
#![tactic(auto)]

ghost use Rattle.file_laws.specs.Files.{FilesGiveBack};

/// The file of a module, its generators and the squares that are not zero, is accepted and gives the module back.
pub fn files_of_modules()
    ensures { FilesGiveBack }
{}

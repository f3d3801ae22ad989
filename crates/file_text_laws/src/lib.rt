//! The bytes of the file of a module describe that module, as the contract of a function that does nothing.
#![tactic(auto)]

ghost use Rattle.file_text_laws.specs.Texts.{AllBuiltAreNumbered, TextDescribesFile, TextGivesBack};

/// The text that `file_text` writes for a module whose generators are named by their numbers, as those of each sum, shift, tensor
/// product and dual are, is a module file. What is read of it has the generators of the module and the squares that are not zero; no
/// check refuses it, and the action that is derived from it is that of the module.
pub fn texts_of_modules()
    ensures numbered { AllBuiltAreNumbered }
    ensures describes { TextDescribesFile }
    ensures gives_back { TextGivesBack }
{}

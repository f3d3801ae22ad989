//! Laws over the definitions, as the contracts of functions that do nothing.
ghost use Rattle.module_json.specs.ModuleFile.{FileIsUnique};
ghost use Rattle.module_json.specs.Parts.{PartsAreUnique};

/// Bytes describe at most one module, or have at most one first refusal.
pub fn file_is_unique()
    ensures { FileIsUnique }
{}

/// Bytes describe at most one list of so many modules, or have at most one first refusal.
pub fn parts_are_unique()
    ensures { PartsAreUnique }
{}

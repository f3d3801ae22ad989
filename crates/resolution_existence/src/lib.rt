//! That the step, the canonical resolution and the table of a start exist, as contracts of functions that do nothing.
#![tactic(auto)]

ghost use Rattle.resolution_existence.specs.Existence.{
  ChoiceExists,
  StepExists,
  CanonicalTableExists,
  TableOfStartExists,
};

/// The new generators of a step can be chosen: among candidates over old rows, those outside the span of what is before them.
pub fn choice_exists()
    ensures { ChoiceExists }
{}

/// The step exists over squares whose images fit, with candidates that fit.
pub fn step_exists()
    ensures { StepExists }
{}

/// A module whose operations keep widths has a canonical resolution through each row and degree.
pub fn canonical_table_exists()
    ensures { CanonicalTableExists }
{}

/// If each square of a start is that of the start's own table, then this table has a square at each place.
pub fn table_of_start_exists()
    ensures { TableOfStartExists }
{}

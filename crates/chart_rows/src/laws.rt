//! What holds of parts that are refused, and of parts of canonical resolutions.
ghost use Rattle.chart_rows.specs.Placing.{RefusedAreNoChart};
ghost use Rattle.chart_rows.specs.Canonical.{ResolutionIsNotRefused, ResolutionIsPlaced, ResolutionMayStand};

use finite_module::modules_are_graded_modules;
use milnor_laws::linear_maps;
use resolution_existence::canonical_table_exists;
use resolution_laws::canonical_table_is_minimal_resolution;
use stem_laws::{
    images_in_stems_fit, new_generators_are_not_met, rows_in_stems_are_whole,
    squares_in_stems_are_steps, squares_in_stems_are_those_of_table,
};

/// Parts are refused only where one of them has a square that may not stand.
pub fn refused_parts_are_no_chart()
    ensures { RefusedAreNoChart }
{}

/// What the canonical resolution of a module has at a place may stand there, wherever the squares before it in its row and those of
/// lower degrees in the row below are there, and are those of the resolution.
pub fn resolution_may_stand()
    ensures { ResolutionMayStand }
{
    canonical_table_exists();
    canonical_table_is_minimal_resolution();
    modules_are_graded_modules();
    linear_maps();
    new_generators_are_not_met();
    images_in_stems_fit();
    rows_in_stems_are_whole();
    squares_in_stems_are_steps();
    squares_in_stems_are_those_of_table();
}

/// Parts of a module's canonical resolution that may stand say rows of it: images are those of the resolution, without coordinates that
/// are zero.
pub fn resolution_is_placed()
    ensures { ResolutionIsPlaced }
{}

/// Parts of a module's canonical resolution are refused for their order alone, so those that earlier runs have left are not.
pub fn resolution_is_not_refused()
    ensures { ResolutionIsNotRefused }
{
    resolution_may_stand();
}

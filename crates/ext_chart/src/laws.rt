//! What the texts say of squares in stems.
ghost use Rattle.ext_chart.specs.Alike.{StemsAreToldAlike};

/// The squares of a canonical resolution in stems are told as those of the whole resolution, though images on the edge
/// are shorter there: what they lack are coordinates that are 0, and those add no term to a text.
pub fn stems_are_told_alike()
    ensures { StemsAreToldAlike }
{
    stem_laws::new_generators_are_not_met();
    stem_laws::rows_in_stems_are_whole();
    stem_laws::squares_in_stems_are_those_of_table();
}

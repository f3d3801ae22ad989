//! How many rows span all vectors of their length, as the contract of a function that does nothing.
ghost use Rattle.f2_matrix.specs.Rank.{SpanningRowsAreFull};

/// Rows that span all vectors of their length are at least as many as that length. If they are just as many, they are
/// independent.
pub fn spanning_rows_are_full()
    ensures { SpanningRowsAreFull }
{}

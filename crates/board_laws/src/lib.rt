//! What every run of the board with contents gives, as contracts of functions that do nothing.
//!
//! The board with contents stands apart from the machine, which looks at no contents, and from the crate of squares, which
//! so need not be checked again with it.
#![tactic(auto)]

ghost use Rattle.board_laws.specs.Schedules.{EveryScheduleIsCanonical, EveryScheduleContinuesItsStart, EveryHistoryHasARun, EveryHistoryFromItsStartHasARun};

/// From a start of canonical squares, whatever the order in which squares are taken and given, and wherever the board stops and
/// opens again, each done square and each square of the file is canonical, although its rows were copied when it was taken. The
/// file is the start and then the squares that were given, or that a Stop found there, in this order, each once.
pub fn every_schedule_is_canonical()
    ensures { EveryScheduleIsCanonical }
{}

/// Every schedule continues the table of its start: squares that were read stand as they were read, and each other is the step
/// over the table's squares.
pub fn every_schedule_continues_its_start()
    ensures { EveryScheduleContinuesItsStart }
{}

/// Along each history that the machine accepts from a start of canonical squares there is a run with contents.
pub fn every_history_has_a_run()
    ensures { EveryHistoryHasARun }
{}

/// Every history has a run with contents if the squares of its start are those of the start's own table.
pub fn every_history_from_its_start_has_a_run()
    ensures { EveryHistoryFromItsStartHasARun }
{}

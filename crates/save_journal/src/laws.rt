//! What holds of the records of a file.
ghost use Rattle.save_journal.specs.Laws.{RecordsAreRead, RefusalsAreRead};

/// The records of a file are those that stand in it, behind its header and open gates, before a gate that is not open. A
/// file of at most 41 bytes has none.
pub fn records_are_read()
    ensures { RecordsAreRead }
{}

/// A file is refused exactly for what is wrong with it: its first bytes, or else the digest behind them, or else the first
/// record that is not whole or does not have the digest that it keeps.
pub fn refusals_are_read()
    ensures { RefusalsAreRead }
{}

//! Stocks of squares of which views are made.
ghost use Rattle.square.specs.Tables.{Staircase};
ghost use Rattle.live_view.specs.Counted.{AreCountsOf};

use finite_module::modules_are_graded_modules;
use image_worker::ImageStock;
use resolution_existence::canonical_table_exists;
use resolution_laws::empty_start_is_canonical;
use square::Keep;
use square_board::Stock;
use square_worker::Kept;
use stem_laws::squares_in_stems_are_those_of_table;

/// A stock whose numbers of generators are those of a table, wherever it has whole rows: of a table with its keeper they are those
/// of the table, and of images those of the canonical resolution.
pub trait Counted: Stock {
    /// The table, of which the module and the start count, and no square.
    ghost table_of: { Self.Subject → Staircase };

    /// The law, as the contract of a function that does nothing.
    fn counts_are_of_table()
        ensures { AreCountsOf Self.words table_of };
}

impl<K: Keep> Counted for Kept<K> {
    ghost table_of = { λ table. table };

    fn counts_are_of_table() {}
}

impl Counted for ImageStock {
    ghost use Rattle.live_view.specs.Counted.{canonical_of};

    ghost table_of = { canonical_of };

    fn counts_are_of_table() {
        canonical_table_exists();
        modules_are_graded_modules();
        empty_start_is_canonical();
        squares_in_stems_are_those_of_table();
    }
}

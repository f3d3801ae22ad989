//! Room for the table of an elimination by blocks. Surface: no run takes it.
ghost use Rattle.std.specs.Prelude.{◌≡◌, ◌≤◌, IfOk};

use f2_sums::Table;
use memory::Memory;
use std::alloc::Global;
use std::marker::Model;

/// Room for the sums of up to eight rows, seen as the length of a row.
#[derive(Debug, Drop)]
pub struct Scratch {
    pub(crate) table: Table,
}

impl Model for Scratch {
    ghost use Rattle.std.specs.Prelude.{◌≡◌, ℕ};
    ghost use Rattle.std.specs.Coded.{coded_ℕ};

    ghost Value = { ℕ };

    ghost coded = { coded_ℕ };

    ghost view = { λ s. s.table.cols };

    ghost invariant = { λ s. s.table.most ≡ 8 };
}

impl Scratch {
    /// Room for the rows of a matrix with this many columns.
    ///
    /// # Errors
    /// `Memory` if allocation fails.
    pub fn new(alloc: Global, cols: usize) -> Result<Self, Memory>
        ensures { IfOk result (λ s. s ≡ cols) }
    {
        let table = Table::new(alloc, cols, 8)?;
        Ok(Scratch { table })
    }
}

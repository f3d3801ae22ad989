//! Rows that several owners hold at once, with their pivots.
ghost use Rattle.std.specs.Prelude.{◌≡◌, map, length, IfOk};
ghost use Rattle.f2_matrix.specs.Preimages.{pivot_of};
ghost use Rattle.f2_matrix.specs.Inside.Extend.{IsPlaceFor};

use f2_vec::BitVec;
use memory::Memory;
use std::alloc::Global;
use std::marker::Model;
use std::sync::Arc;

/// Rows that are held once, whoever shares them, and are not changed any more. They are seen as the list of the vectors.
#[derive(Debug, Drop)]
pub struct Rows {
    held: Arc<RowsWithPivots>,
}

impl Model for Rows {
    ghost use Rattle.std.specs.Prelude.{Bool, List};
    ghost use Rattle.std.specs.Arc.{arc_value};

    ghost Value = { List (List Bool) };

    ghost view = { λ r. arc_value r.held };
}

impl Rows {
    /// These rows, to be shared.
    ///
    /// # Errors
    /// `Memory` if allocation fails.
    pub fn of(alloc: Global, rows: Vec<BitVec>) -> Result<Rows, Memory>
        ensures { IfOk result (λ shared. shared ≡ rows.items) }
    {
        let pivots = pivots_of(alloc, rows.as_slice())?;
        let held = Arc::new(alloc, RowsWithPivots { rows, pivots })?;
        Ok(Rows { held })
    }

    /// The rows, in order.
    pub fn as_slice(&self) -> &[BitVec]
        ensures { result.now ≡ self.now }
    {
        self.held.rows.as_slice()
    }

    /// One more owner of the same rows, which takes no memory.
    ///
    /// # Errors
    /// `Memory` where there are too many owners to count.
    pub fn share(&self) -> Result<Rows, Memory>
        ensures { IfOk result (λ shared. shared ≡ self.now) }
    {
        let held = Arc::try_clone(&self.held)?;
        Ok(Rows { held })
    }

    /// The pivot of each row, its length where it is zero.
    pub(crate) fn pivots(&self) -> &[usize]
        ensures { result.now ≡ map pivot_of self.now }
    {
        self.held.pivots.as_slice()
    }
}

/// Rows, seen as the list of them, and beside them the pivot of each.
#[derive(Debug, Drop)]
struct RowsWithPivots {
    rows: Vec<BitVec>,
    pivots: Vec<usize>,
}

impl Model for RowsWithPivots {
    ghost use Rattle.std.specs.Prelude.{◌≡◌, Bool, List, map};
    ghost use Rattle.f2_matrix.specs.Preimages.{pivot_of};

    ghost Value = { List (List Bool) };

    ghost view = { λ r. r.rows.items };

    ghost invariant = { λ r. r.pivots.items ≡ map pivot_of r.rows.items };
}

/// The pivot of each row, its length where it is zero.
///
/// # Errors
/// `Memory` if allocation fails.
pub fn pivots_of(alloc: Global, rows: &[BitVec]) -> Result<Vec<usize>, Memory>
    ensures { IfOk result (λ pivots. pivots.items ≡ map pivot_of rows.now) }
{
    let mut pivots = Vec::with_capacity(alloc, rows.len())?;
    for row in rows {
        pivots.push(pivot(row))?;
    }
    Ok(pivots)
}

/// The pivot of the row: the place of its first 1, its length where there is none.
pub fn pivot(row: &BitVec) -> usize
    ensures { result ≡ pivot_of row.now }
{
    match row.first_one() {
        Some(place) => place,
        None => row.len(),
    }
}

/// How many of the rows, whose pivots rise, a row with its pivot at this place stands behind.
pub(crate) fn place_for(rows: &[BitVec], place: usize) -> usize
    ensures { IsPlaceFor place rows.now result }
{
    for i in 0..rows.len() {
        if place < pivot(&rows[i]) {
            return i;
        }
    }
    rows.len()
}

//! The Milnor bases that tables and what squares are made from share, made in stages.
ghost use Rattle.std.specs.Prelude.{◌≡◌, ◌≤◌, ◌<◌, IfOk, IfSome, IsSome};
ghost use Rattle.std.specs.Arc.{arc_value};
ghost use Rattle.bidegree.specs.declared.range.TheConstants.{MAX_T};

use bidegree::MAX_T;
use memory::Memory;
use milnor_basis::{Basis, Counts};
use once_cell::race::OnceBox;
use std::alloc::Global;
use std::marker::Model;
use std::sync::Arc;

/// The greatest degree of the first stage. The last stage reaches `MAX_T`. Through degree 127 a basis has 80,750 elements, through
/// 159 it has 220,006, and through 255 it has 2,166,753.
const FIRST: u16 = 31;

/// The greatest degree of the second stage.
const SECOND: u16 = 63;

/// The greatest degree of the third stage.
const THIRD: u16 = 127;

/// The greatest degree of the fourth stage.
const FOURTH: u16 = 159;

/// The bases of the degrees 0 to `MAX`, with the products that were made over them.
#[derive(Drop)]
struct Stage<const MAX: u16> {
    basis: Arc<Basis>,
    ghost greatest: { arc_value basis ≡ MAX },
}

impl<const MAX: u16> Stage<MAX> {
    /// The bases of these degrees.
    fn boxed(alloc: Global) -> Result<Box<Self>, Memory>
        requires { MAX ≤ 255 }
    {
        let basis = Basis::new(alloc, MAX)?;
        let basis = Arc::new(alloc, basis)?;
        Ok(Box::new(alloc, Stage { basis })?)
    }

    /// Its bases, to be shared.
    fn basis(&self) -> &Arc<Basis>
        ensures { arc_value result.now ≡ MAX }
    {
        &self.basis
    }
}

/// The Milnor bases of the degrees through `MAX_T`, in stages that are made once a degree of theirs is asked for: a short
/// run needs the first alone. Threads may make one at a time; that of the first to finish is kept. How many elements there
/// are of each degree is known from the beginning.
#[derive(Drop)]
pub(crate) struct Bases {
    counts: Counts,
    first: OnceBox<Stage<FIRST>>,
    second: OnceBox<Stage<SECOND>>,
    third: OnceBox<Stage<THIRD>>,
    fourth: OnceBox<Stage<FOURTH>>,
    last: OnceBox<Stage<MAX_T>>,
}

impl Model for Bases {
    ghost use Rattle.std.specs.Prelude.{◌≡◌, ℕ};
    ghost use Rattle.bidegree.specs.declared.range.TheConstants.{MAX_T};

    ghost Value = { ℕ };

    ghost view = { λ b. b.counts };

    ghost invariant = { λ b. b.counts ≡ MAX_T };
}

impl Bases {
    /// No stage yet.
    ///
    /// # Errors
    /// `Memory` if allocation fails.
    pub(crate) fn new(alloc: Global) -> Result<Self, Memory> {
        Ok(Bases {
            counts: Counts::new(alloc, MAX_T)?,
            first: OnceBox::new(alloc),
            second: OnceBox::new(alloc),
            third: OnceBox::new(alloc),
            fourth: OnceBox::new(alloc),
            last: OnceBox::new(alloc),
        })
    }

    /// How many elements there are of each degree through `MAX_T`.
    pub(crate) fn counts(&self) -> &Counts
        ensures { result.now ≡ MAX_T }
    {
        &self.counts
    }

    /// Bases that reach degree `above`: those of the greatest stage that was made, since products are kept with each stage and
    /// are best made once, or else of the first stage that has the degree.
    ///
    /// # Errors
    /// `Memory` if allocation fails.
    pub(crate) fn through(&self, alloc: Global, above: u16) -> Result<&Arc<Basis>, Memory>
        requires { above ≤ MAX_T }
        ensures reaches { IfOk result (λ basis. above ≤ arc_value basis.now) }
        ensures within { IfOk result (λ basis. arc_value basis.now ≤ MAX_T) }
    {
        if let Some(basis) = serving(&self.last, alloc, FOURTH, above)? {
            return Ok(basis);
        }
        if let Some(basis) = serving(&self.fourth, alloc, THIRD, above)? {
            return Ok(basis);
        }
        if let Some(basis) = serving(&self.third, alloc, SECOND, above)? {
            return Ok(basis);
        }
        if let Some(basis) = serving(&self.second, alloc, FIRST, above)? {
            return Ok(basis);
        }
        let first = self.first.get_or_try_init(|| Stage::boxed(alloc))?;
        Ok(first.basis())
    }
}

/// The bases of a stage, if it was made already or if degree `above` is past the stage before it, which ends at `before`.
///
/// # Errors
/// `Memory` if allocation fails.
fn serving<const MAX: u16>(
    stage: &OnceBox<Stage<MAX>>,
    alloc: Global,
    before: u16,
    above: u16,
) -> Result<Option<&Arc<Basis>>, Memory>
    requires { MAX ≤ 255 }
    ensures greatest { IfOk result (λ found. IfSome found (λ basis. arc_value basis.now ≡ MAX)) }
    ensures past { IfOk result (λ found. before < above → IsSome found) }
{
    match stage.get() {
        Some(made) => Ok(Some(made.basis())),
        None if above > before => {
            let boxed = Stage::boxed(alloc)?;
            let made = stage.get_or_init(move || boxed);
            Ok(Some(made.basis()))
        }
        None => Ok(None),
    }
}

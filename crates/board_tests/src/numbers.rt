//! What no clause says: that a board works over a stock of anything, in each shape of ranges, and what workers then make.
ghost use Rattle.std.specs.Prelude.{◌≡◌, ◌≤◌, ◌<◌, IfOk};
ghost use Rattle.bidegree.specs.declared.shape.Shape.TheVariants.{Stems};
ghost use Rattle.board_tests.specs.Numbers.{numbers_words};

use bidegree::{Range, Shape};
use board_core::Cause;
use memory::Memory;
use square_board::{OpenGate, Stock, made_by};
use std::alloc::Global;
use std::marker::Model;
use std::sync::Wait;
use std::test::Fail;
use std::thread::Threads;
use std::time::Clock;

/// A stock whose squares are numbers. The first is 1, and each other is the sum of the one before it and of the one below it,
/// where these are done.
#[derive(Drop)]
struct Numbers {
    subject: (Shape, Range),
    /// How many squares of each row are done.
    fronts: Vec<u64>,
    /// The number at each place of the range, row by row, 0 where the square is not done.
    numbers: Vec<u64>,
}

impl Model for Numbers {
    ghost use Rattle.board_tests.specs.Numbers.{NumbersState, AreNumbers};

    ghost Value = { NumbersState };

    ghost view = { λ n. record { subject = n.subject; fronts = n.fronts.items } };

    ghost invariant = { λ n. AreNumbers n.subject n.fronts.items };
}

impl Numbers {
    /// No square is done.
    fn none(alloc: Global, shape: Shape, range: Range) -> Result<Numbers, Memory>
        requires rows { range.s ≤ 127 }
        requires degrees { range.t ≤ 255 }
        requires corner { shape ≡ Stems → range.s ≤ range.t }
        ensures { IfOk result (λ numbers. numbers.subject ≡ (shape, range)) }
    {
        let rows = usize::from(range.s) + 1;
        let columns = usize::from(range.t) + 1;
        Ok(Numbers {
            subject: (shape, range),
            fronts: vec![in alloc; 0; rows]?,
            numbers: vec![in alloc; 0; rows * columns]?,
        })
    }

    /// Which of all places this one is.
    fn place(&self, s: u16, above: u16) -> usize {
        let columns = usize::from(self.subject.1.t) + 1;
        usize::from(s) * columns + usize::from(above)
    }

    /// The number at a place.
    fn at(&self, s: u16, above: u16) -> u64 {
        match self.numbers.get(self.place(s, above)) {
            Some(number) => *number,
            None => 0,
        }
    }

    /// Writes the number at a place.
    fn write(&mut self, s: u16, above: u16, made: u64)
        ensures { self.new ≡ self.old }
    {
        let place = self.place(s, above);
        if let Some(number) = self.numbers.get_mut(place) {
            *number = made;
        }
    }
}

impl Stock for Numbers {
    type Subject = (Shape, Range);

    type Inputs = (u64, u64);

    type Made = u64;

    ghost words = { numbers_words };

    fn bottom(&self) -> i32 {
        let _subject = self.subject;
        0
    }

    fn shape(&self) -> Shape {
        self.subject.0
    }

    fn rows(&self) -> u16 {
        self.subject.1.s + 1
    }

    fn front(&self, s: u16) -> u64 {
        match self.fronts.get(usize::from(s)) {
            Some(front) => *front,
            None => 0,
        }
    }

    fn generators(&self, s: u16, above: u16) -> Option<usize> {
        if self.front(s) <= u64::from(above) {
            return None;
        }
        Some(1)
    }

    fn inputs(&self, _alloc: Global, s: u16, above: u16) -> Result<(u64, u64), Memory> {
        let before = if above == 0 {
            u64::from(s == 0)
        } else {
            self.at(s, above - 1)
        };
        let below = if s == 0 { 0 } else { self.at(s - 1, above) };
        Ok((before, below))
    }

    fn make(_alloc: Global, inputs: &(u64, u64)) -> Result<u64, Memory> {
        Ok(inputs.0.wrapping_add(inputs.1))
    }

    fn put(
        &mut self,
        _alloc: Global,
        s: u16,
        above: u16,
        _inputs: &(u64, u64),
        made: u64,
    ) -> Result<(), Cause> {
        self.fronts[usize::from(s)] = u64::from(above) + 1;
        self.write(s, above, made);
        Ok(())
    }

    fn reach(_inputs: &(u64, u64)) -> u16 {
        0
    }

    fn has_generators(_inputs: &(u64, u64), _a: u16) -> bool {
        false
    }

    fn make_products(
        _alloc: Global,
        _inputs: &(u64, u64),
        _a: u16,
        _above: u16,
    ) -> Result<(), Memory> {
        Ok(())
    }
}

const RANGE: Range = Range { s: 3, t: 5 };

// Whether so many workers make a last row of these numbers.
fn make<R: Threads + Wait + Clock + Sync>(
    rt: &R,
    alloc: Global,
    workers: usize,
    shape: Shape,
    last: &[u64],
) -> Result<bool, Memory>
    requires { 0 < workers }
{
    let none = Numbers::none(alloc, shape, RANGE)?;
    let (made, numbers) = made_by(rt, alloc, workers, none, RANGE, &OpenGate);
    for (above, number) in (0..6).zip(last.iter()) {
        if numbers.at(3, above) != *number {
            return Ok(false);
        }
    }
    Ok(made.is_ok())
}

#[test]
fn numbers_in_each_shape(rt: HostRuntime) -> Result<(), Fail> {
    let alloc = rt.alloc();
    // in a rectangle these are binomials
    let rectangle = [1, 4, 10, 20, 35, 56];
    // in stems 0 to 2 the row below has 14 at its last square and at the one behind it, where no square is below
    let stems = [1, 4, 10, 20, 34, 48];
    assert!(rt; make(&rt, alloc, 1, Shape::Rectangle, &rectangle)?);
    assert!(rt; make(&rt, alloc, 4, Shape::Rectangle, &rectangle)?);
    assert!(rt; make(&rt, alloc, 1, Shape::Stems, &stems)?);
    assert!(rt; make(&rt, alloc, 4, Shape::Stems, &stems)?);
    Ok(())
}

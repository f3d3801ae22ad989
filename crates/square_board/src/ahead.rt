//! Products that the next squares of a row will ask for, made before they are asked for.
ghost use Rattle.std.specs.Prelude.{◌≡◌};

use crate::stock::Stock;
use std::alloc::Global;
use std::marker::Model;

/// How many degrees past the next square of a row products are made.
const DEGREES: u16 = 6;

/// How many parts the products for one square have: a part has those for the generators of one degree above the bottom.
const PARTS: u16 = 256;

/// The products that the squares of a row past its next one will ask for, as far as the generators of the row are known. They
/// are kept with the Milnor bases, so that a square that asks for them finds them there. What is made of them is in no contract.
#[derive(Drop)]
pub struct Ahead<T: Stock> {
    inputs: T::Inputs,
    s: u16,
    front: u16,
    /// The greatest degree above the bottom of the squares that will be made.
    last: u16,
    /// The number of the worker who makes the products.
    worker: u64,
    /// How many parts are done.
    done: u16,
}

impl<T: Stock> Model for Ahead<T> {
    ghost use Rattle.square_board.specs.Jobs.{Advance};

    ghost Value = { Advance };

    ghost view = { λ a. record { s = a.s; front = a.front } };
}

impl<T: Stock> Ahead<T> {
    /// The products for the squares past the one that is made from these inputs, which is in row `s` and `front` degrees above
    /// the bottom, up to `last` degrees above the bottom. Workers of different numbers make them in different orders, so that
    /// they seldom make the same ones.
    pub(crate) fn new(inputs: T::Inputs, s: u16, front: u16, last: u16, worker: u64) -> Ahead<T>
        ensures { result ≡ record { s = s; front = front } }
    {
        Ahead {
            inputs,
            s,
            front,
            last,
            worker,
            done: 0,
        }
    }

    /// The row of the squares.
    pub fn s(&self) -> u16
        ensures { result ≡ self.now.s }
    {
        self.s
    }

    /// How many degrees the next square of the row is above the bottom.
    pub fn front(&self) -> u16
        ensures { result ≡ self.now.front }
    {
        self.front
    }

    /// Makes some of the products that are left, and says whether it did: there are none left otherwise, or there is no memory
    /// for them. Those that were to be made when the front of the row was `before` are left out, and none are where that is 0.
    pub fn make_some(&mut self, alloc: Global, before: u16) -> bool
        ensures { self.new ≡ self.old }
    {
        let Some(part) = self.next_part(before) else {
            return false;
        };
        self.done = part.done;
        T::make_products(alloc, &self.inputs, part.a, part.above).is_ok()
    }

    /// The next part that has products, none where none are left.
    fn next_part(&self, before: u16) -> Option<Part> {
        let reach = self.last.min(T::reach(&self.inputs));
        for number in self.done..DEGREES * PARTS {
            let above = self.front.saturating_add(number / PARTS + 1);
            if above > reach {
                return None;
            }
            let a = degree_of_part(number % PARTS, self.worker);
            let is_made = a < before && above <= before.saturating_add(DEGREES);
            if !is_made && T::has_generators(&self.inputs, a) {
                return Some(Part {
                    done: number + 1,
                    a,
                    above,
                });
            }
        }
        None
    }
}

/// The products for one square with the generators of one degree.
#[derive(Clone, Copy)]
struct Part {
    /// How many parts are done with it.
    done: u16,
    /// The degree of the generators above the bottom.
    a: u16,
    /// How many degrees the square is above the bottom.
    above: u16,
}

/// The degree above the bottom of the generators of a part. Each degree comes once.
fn degree_of_part(part: u16, worker: u64) -> u16 {
    let number = (worker % 128) as u16;
    let place = u32::from(part) * u32::from(2 * number + 1) + 77 * u32::from(number);
    (place % u32::from(PARTS)) as u16
}

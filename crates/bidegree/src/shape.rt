//! Which squares of a range are meant.
ghost use Rattle.std.specs.Prelude.{◌≡◌, ◌≤◌};
ghost use Rattle.bidegree.specs.LastDegrees.{last_degree};

use crate::range::Range;

/// Which squares of a range are meant: those of the whole rectangle, or those of its stems alone, through that of its last
/// corner.
#[derive(Clone, Copy, Debug, PartialEq, Eq)]
pub enum Shape {
    Rectangle,
    Stems,
}

impl Shape {
    /// The last degree of row `s`, which is in the range, above the bottom.
    pub fn last_degree(self, range: Range, s: u16) -> u16
        requires { s ≤ range.s }
        ensures { result ≡ last_degree self range s }
    {
        match self {
            Shape::Rectangle => range.t,
            Shape::Stems => range.t.saturating_sub(range.s - s),
        }
    }
}

#[cfg(test)]
mod tests {
    use super::*;

    #[test]
    fn last_degrees_of_rows(rt: HostRuntime) {
        let range = Range { s: 4, t: 12 };
        for (s, last) in [(0, 8), (1, 9), (4, 12)] {
            assert_eq!(rt; Shape::Stems.last_degree(range, s), last);
            assert_eq!(rt; Shape::Rectangle.last_degree(range, s), 12);
        }
    }
}

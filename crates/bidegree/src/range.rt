//! How far a resolution goes.
ghost use Rattle.std.specs.Prelude.{◌≡◌};
ghost use Rattle.bidegree.specs.declared.range.TheConstants.{MAX_S, MAX_T};

/// The greatest row of a square.
pub const MAX_S: u16 = 127;

/// How many degrees above the bottom a square may be: the bottom is the module's least degree.
pub const MAX_T: u16 = 255;

/// How far a resolution goes: through row `s` and through degree `t` above the bottom, which is the module's least degree.
/// Rows go to `MAX_S` and degrees to `MAX_T`.
#[derive(Clone, Copy, Debug, PartialEq, Eq)]
pub struct Range {
    pub s: u16,
    pub t: u16,
}

/// The limits of ranges, as a law: what the constants are.
pub fn limits_are_these()
    ensures rows { MAX_S ≡ 127 }
    ensures degrees { MAX_T ≡ 255 }
{}

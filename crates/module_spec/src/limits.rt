//! The limits of module files.
ghost use Rattle.std.specs.Prelude.{◌≡◌, pos};
ghost use Rattle.module_spec.specs.declared.limits.TheConstants.{MAX_FILE_BYTES, MAX_GENERATORS, MAX_ACTIONS, MAX_DEGREE, MAX_SPAN};
ghost use Rattle.module_spec.specs.Spec.{within_limit, is_near};

/// The greatest size of a module file, in bytes.
pub const MAX_FILE_BYTES: usize = 1 << 20;

/// The greatest number of generators.
pub const MAX_GENERATORS: usize = 64;

/// The greatest number of actions that a file may list.
pub const MAX_ACTIONS: usize = 4096;

/// The greatest internal degree of a generator. The least one is its negative.
pub const MAX_DEGREE: i32 = 128;

/// How far the internal degree of one generator may lie above that of another.
pub const MAX_SPAN: u16 = 64;

/// The powers of two that a difference of two degrees of a module can be: each n for which its texts have Sq^n.
pub const POWERS: [u16; 7] = [1, 2, 4, 8, 16, 32, 64];

/// The limits of module files, as a law: what the constants are.
pub fn limits_are_these()
    ensures bytes { MAX_FILE_BYTES ≡ 1048576 }
    ensures generators { MAX_GENERATORS ≡ 64 }
    ensures actions { MAX_ACTIONS ≡ 4096 }
    ensures degree { MAX_DEGREE ≡ pos 128 }
    ensures span { MAX_SPAN ≡ 64 }
{}

/// Whether a generator may have this internal degree.
pub fn is_degree(degree: i64) -> bool
    ensures { result ≡ within_limit degree }
{
    let greatest = i64::from(MAX_DEGREE);
    -greatest <= degree && degree <= greatest
}

/// Whether a degree lies at most [`MAX_SPAN`] above another.
pub fn is_near(degree: i64, other: i64) -> bool
    ensures { result ≡ is_near degree other }
{
    i128::from(degree) <= i128::from(other) + i128::from(MAX_SPAN)
}

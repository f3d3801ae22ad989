//! The limits of the words, as a law: what the constants are.
ghost use Rattle.std.specs.Prelude.{◌≡◌};
ghost use Rattle.ext_words.specs.declared.command.TheConstants.{MAX_WORKERS, MAX_SQUARES, MAX_SQUARES_DEGREE, MAX_SHIFT};

/// The limits of the grammar.
pub fn limits_are_these()
    ensures workers { MAX_WORKERS ≡ 64 }
    ensures squares { MAX_SQUARES ≡ 16 }
    ensures degree { MAX_SQUARES_DEGREE ≡ 127 }
    ensures shift { MAX_SHIFT ≡ 256 }
{}

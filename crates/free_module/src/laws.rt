//! Laws over the definitions, as contracts of functions that do nothing.
ghost use Rattle.free_module.specs.FreeBasis.{FreeBasisIsPairs};

/// The basis of a free module in degree t is the elements Sq(R) on a generator that are of degree t, each once, by
/// generator and then in right lexicographic order.
pub fn free_basis_is_pairs()
    ensures { FreeBasisIsPairs }
{}

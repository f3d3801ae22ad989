//! Actions of squares on generators.
use std::marker::Model;

/// One action of a module: Sq^n on a generator, and the numbers of the generators of the sum, in basis order and each
/// once.
#[derive(Drop)]
pub struct Entry {
    pub n: u32,
    pub generator: usize,
    pub sum: Vec<usize>,
}

impl Model for Entry {
    ghost use Rattle.module_spec.specs.Spec.{Entry as Listed};

    ghost Value = { Listed };

    ghost view = { λ e. record { n = e.n; generator = e.generator; sum = e.sum.items } };
}

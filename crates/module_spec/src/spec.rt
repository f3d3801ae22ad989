//! A module by its generators and its actions.
ghost use Rattle.std.specs.Prelude.{◌≡◌, ◌<◌, length, Some, option_map, slice_get};
ghost use Rattle.module_spec.specs.WellFormed.{IsWellFormed};

use crate::entry::Entry;
use crate::generator::Generator;
use std::marker::Model;

/// A module as a file describes it: its generators in basis order, which goes by degree and then by the bytes of the
/// names, and its actions, as they are listed.
#[derive(Drop)]
pub struct Spec {
    generators: Vec<Generator>,
    entries: Vec<Entry>,
}

impl Model for Spec {
    ghost use Rattle.module_spec.specs.Spec.{File};
    ghost use Rattle.module_spec.specs.WellFormed.{IsWellFormed};

    ghost Value = { File };

    ghost view = { λ s. record { generators = s.generators.items; entries = s.entries.items } };

    ghost invariant = { λ s. IsWellFormed (record { generators = s.generators.items; entries = s.entries.items }) };
}

impl Spec {
    /// The module with these generators and these actions, which are well formed.
    pub fn new(generators: Vec<Generator>, entries: Vec<Entry>) -> Spec
        requires { IsWellFormed (record { generators = generators.items; entries = entries.items }) }
        ensures { result ≡ record { generators = generators.items; entries = entries.items } }
    {
        Spec {
            generators,
            entries,
        }
    }

    /// How many generators the module has.
    pub fn count(&self) -> usize
        ensures count { result ≡ length self.now.generators }
        ensures well_formed { IsWellFormed self.now }
    {
        self.generators.len()
    }

    /// How many actions the module lists.
    pub fn entries(&self) -> usize
        ensures { result ≡ length self.now.entries }
    {
        self.entries.len()
    }

    /// The name of generator `i`.
    pub fn name(&self, i: usize) -> &str
        requires { i < length self.now.generators }
        ensures { option_map (λ g. g.name) (slice_get self.now.generators i) ≡ Some result.now }
    {
        self.generators[i].name.as_str()
    }

    /// The internal degree of generator `i`.
    pub fn degree(&self, i: usize) -> i32
        requires { i < length self.now.generators }
        ensures { option_map (λ g. g.degree) (slice_get self.now.generators i) ≡ Some result }
    {
        self.generators[i].degree
    }

    /// Action `i`: the number n of Sq^n, the generator that it acts on, and the generators of the sum, in basis order
    /// and each once.
    pub fn entry(&self, i: usize) -> (u32, usize, &[usize])
        requires { i < length self.now.entries }
        ensures { slice_get self.now.entries i
            ≡ Some (record { n = result.0; generator = result.1; sum = result.2.now }) }
    {
        let entry = &self.entries[i];
        (entry.n, entry.generator, entry.sum.as_slice())
    }
}

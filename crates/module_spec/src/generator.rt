//! Generators of a module.
use std::marker::Model;

/// A generator of a module: its name, and its internal degree.
#[derive(Drop)]
pub struct Generator {
    pub name: String,
    pub degree: i32,
}

impl Model for Generator {
    ghost use Rattle.std.specs.Prelude.{string_bytes};
    ghost use Rattle.module_spec.specs.Spec.{Generator as Named};

    ghost Value = { Named };

    ghost view = { λ g. record { name = string_bytes g.name; degree = g.degree } };
}

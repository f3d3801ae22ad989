//! Linear maps from a free module, given by the images of its generators.
#![tactic(auto)]

mod hom;

pub use hom::Hom;

//! The products of the classes h_v of the sphere with the classes of a module, read off the images of its generators.
#![tactic(auto)]

mod read_off;

pub use read_off::products_with_h;

//! The output of `massey`: resolves the sphere, makes the bracket, formats it.
#![tactic(auto)]

mod laws;
mod refusal;
mod text;

pub use laws::{bracket_answer_exists, bracket_answer_is_unique};
pub use text::bracket_text;

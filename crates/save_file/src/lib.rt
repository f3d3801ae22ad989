//! Save files: the bytes of squares and of quasi-inverses, written and read behind the squares before them, and the keeper that
//! puts them into a journal.
#![tactic(auto)]

mod body;
mod differential;
mod exactness;
mod fault;
mod laws;
mod outline;
mod products;
mod quasi;
mod reading;
mod resuming;
mod row_map;
mod rows;
mod saving;
mod writing;

pub use body::Body;
pub use exactness::may_be_exact;
pub use fault::{DecodeFault, ResumeFault};
pub use laws::{
    additions_have_the_rules, bodies_have_the_rules, each_addition_is_read, each_body_is_read,
    kinds_are_apart, one_addition, one_body, squares_are_closed,
};
pub use quasi::quasi_by_inverse;
pub use reading::decode;
pub use resuming::resume;
pub use saving::SaveFile;
pub use writing::{encode, encode_quasi};

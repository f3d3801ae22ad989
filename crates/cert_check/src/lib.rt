//! Certificates: a table whose squares have quasi-inverses tells that it is a minimal resolution. Rows are compared,
//! and nothing is reduced.
#![tactic(auto)]

mod checking;
mod fault;
mod laws;
mod rows;

pub use checking::verify;
pub use fault::CertFault;
pub use laws::canonical_table_lacks_quasis_alone;
pub use rows::are_same;

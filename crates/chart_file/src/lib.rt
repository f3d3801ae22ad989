//! Chart files: the images of the generators of a resolution as the bytes of a journal's records, a column at a time.
#![tactic(auto)]

mod fault;
mod laws;
mod part;
mod reading;
mod records;
mod writing;

pub use fault::{DecodeFault, PartsFault};
pub use laws::{one_list_of_parts, one_part, parts_go_on};
pub use part::{BareSquare, ColumnPart};
pub use reading::decode;
pub use records::{framed_part, parts_of};
pub use writing::encode;

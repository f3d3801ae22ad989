//! Tables of squares, products of classes and brackets as text, the line on an accepted module, what is told of save files, and
//! products of Steenrod's squares.
#![tactic(auto)]

mod bracket_text;
mod chart_text;
mod check_text;
mod class_products;
mod classes;
mod dump_text;
mod files_text;
mod laws;
mod lines;
mod named_target;
mod place;
mod row_gens;
mod shown;
mod squares_text;
mod summary_text;
mod terms;

pub use bracket_text::bracket_lines;
pub use chart_text::chart;
pub use check_text::check_line;
pub use class_products::{ProductLine, product_lines};
pub use dump_text::dump;
pub use files_text::{migrated_line, verified_chart};
pub use laws::stems_are_told_alike;
pub use place::Place;
pub use shown::Shown;
pub use squares_text::product;
pub use summary_text::summary;

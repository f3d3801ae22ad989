//! Where a class stands in a table.

/// The place of a class in a table: its row, how many degrees above the bottom it is, and its number in that square.
#[derive(Clone, Copy, Debug, PartialEq, Eq)]
pub struct Place {
    pub s: u16,
    pub above: u16,
    pub i: usize,
}

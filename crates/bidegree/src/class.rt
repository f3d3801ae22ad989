//! Classes of Ext.

/// The class that is dual to a generator of a resolution: its row, its internal degree, and its number among the generators
/// of that square, from 0.
#[derive(Clone, Copy, Debug, PartialEq, Eq)]
pub struct Class {
    pub s: u32,
    pub t: i32,
    pub i: usize,
}

//! What a bracket is made of.
ghost use Rattle.std.specs.Prelude.{◌≡◌, ◌+◌};
ghost use Rattle.massey.specs.Inside.{IsSetting, above_of as bracket_above, above_ab as product_above, above_bc as lower_above};

use crate::places::Places;
use bidegree::Range;
use chain_map::Source;
use square::Table;

/// What is read of a module's resolution, the table of the sphere's, their range, and where the classes of a bracket stand.
#[derive(Clone, Copy)]
pub(crate) struct Setting<'a> {
    pub(crate) table: &'a Source<'a>,
    pub(crate) sphere: &'a Table,
    pub(crate) range: Range,
    pub(crate) places: Places,
}

impl Setting<'_> {
    /// How many degrees ab is above the bottom of the sphere.
    pub(crate) fn above_ab(&self) -> u16
        requires { IsSetting self.now.table.now self.now.sphere.now self.now.range self.now.places }
        ensures { result ≡ product_above self.now.places }
    {
        self.places.a.above + self.places.b.above
    }

    /// How many degrees bc is above the module's bottom.
    pub(crate) fn above_bc(&self) -> u16
        requires { IsSetting self.now.table.now self.now.sphere.now self.now.range self.now.places }
        ensures { result ≡ lower_above self.now.places }
    {
        self.places.b.above + self.places.c.above
    }

    /// How many degrees the bracket is above the module's bottom.
    pub(crate) fn above(&self) -> u16
        requires { IsSetting self.now.table.now self.now.sphere.now self.now.range self.now.places }
        ensures { result ≡ bracket_above self.now.places }
    {
        self.places.a.above + self.places.b.above + self.places.c.above
    }
}

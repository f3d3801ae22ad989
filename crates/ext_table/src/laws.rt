//! Laws over the definitions, as contracts of functions that do nothing.
ghost use Rattle.ext_table.specs.Layouts.{EachLayoutHasAnswer, EachLayoutHasOneAnswer, LayoutsRefuseAlike};

/// In each layout there is an answer for all classes that products are asked with.
pub fn each_layout_has_answer()
    ensures { EachLayoutHasAnswer }
{
    lift_laws::each_class_lifts();
    lift_laws::lifts_give_one_product();
}

/// There is at most one answer in each layout.
pub fn each_layout_has_one_answer()
    ensures { EachLayoutHasOneAnswer }
{}

/// A class that is refused in one is refused in all.
pub fn layouts_refuse_alike()
    ensures { LayoutsRefuseAlike }
{}

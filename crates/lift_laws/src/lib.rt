//! Lifts of classes of Ext to chain maps, and products by them, as contracts of functions that do nothing.
#![tactic(auto)]

ghost use Rattle.lift_laws.specs.Lifts.{CanonicalTablesHaveImages, EachClassLifts, LiftsAreChainMaps};
ghost use Rattle.lift_laws.specs.Products.{LiftsGiveOneProduct};

/// Each class of a module's resolution has a lift to the resolution of the sphere, as far as the two go.
pub fn each_class_lifts()
    ensures { EachClassLifts }
{
    resolution_laws::canonical_table_is_minimal_resolution();
}

/// A lift is given by its values on generators. It is a chain map on all elements: its maps commute with each Sq(R), and with
/// d on each vector. Of the two tables this asks no more than that d takes generators to vectors of the free module below.
pub fn lifts_are_chain_maps()
    ensures { LiftsAreChainMaps }
{}

/// In a canonical table d takes generators to such vectors.
pub fn canonical_tables_have_images()
    ensures { CanonicalTablesHaveImages }
{}

/// Every lift of a class gives the same products with the classes of the sphere.
pub fn lifts_give_one_product()
    ensures { LiftsGiveOneProduct }
{
    resolution_laws::canonical_table_is_minimal_resolution();
}

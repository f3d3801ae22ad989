//! Ext of a module as a module over Ext of the sphere, as contracts of functions that do nothing.
#![tactic(auto)]

ghost use Rattle.yoneda_laws.specs.Elements.{
  ElementsHaveOneProduct,
  ProductsAreLinearInFirst,
  ProductsAreLinearInSecond,
  ProductsAssociate,
  ProductsOfClassesAreOfElements,
  SphereHasUnit,
  UnitActsAsOne,
};

/// An element of Ext of the sphere and one of Ext of a module have one product, whatever lift it is made by.
pub fn elements_have_one_product()
    ensures { ElementsHaveOneProduct }
{
    resolution_laws::canonical_table_is_minimal_resolution();
}

/// The product of two classes, by a lift of the second, is that of the elements.
pub fn products_of_classes_are_of_elements()
    ensures { ProductsOfClassesAreOfElements }
{
    resolution_laws::canonical_table_is_minimal_resolution();
}

/// Row 0 of the sphere's canonical resolution has one class, the unit.
pub fn sphere_has_unit()
    ensures { SphereHasUnit }
{
    resolution_laws::canonical_table_is_minimal_resolution();
}

/// The unit times an element is that element.
pub fn unit_acts_as_one()
    ensures { UnitActsAsOne }
{
    resolution_laws::canonical_table_is_minimal_resolution();
}

/// (a + b) x is a x + b x.
pub fn products_are_linear_in_first()
    ensures { ProductsAreLinearInFirst }
{
    resolution_laws::canonical_table_is_minimal_resolution();
}

/// a (x + y) is a x + a y.
pub fn products_are_linear_in_second()
    ensures { ProductsAreLinearInSecond }
{
    resolution_laws::canonical_table_is_minimal_resolution();
}

/// (a b) x is a (b x).
pub fn products_associate()
    ensures { ProductsAssociate }
{
    resolution_laws::canonical_table_is_minimal_resolution();
}

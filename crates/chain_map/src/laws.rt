//! Which tables are of the sphere's resolution, and what all have.
ghost use Rattle.chain_map.specs.Lifting.{TablesHaveImages, TablesOfTheSphere};

/// A table of the module with one generator, in degree 0, is that of a resolution of the field with two elements. So a table
/// is the sphere's by the dimensions of its module, and no file and no name is asked for.
pub fn tables_of_the_sphere()
    ensures { TablesOfTheSphere }
{}

/// In each table, whatever its squares hold, d takes generators to vectors of the free module below: so each lift over two tables
/// is a chain map on all elements.
pub fn tables_have_images()
    ensures { TablesHaveImages }
{}

//! How many generators a minimal resolution has, as contracts of functions that do nothing.
#![tactic(auto)]

ghost use Rattle.resolution_counts.specs.Cochains.{CochainsAreGivenByValues, CochainsHaveZeroDifferential, GeneratorsAreCounted};
ghost use Rattle.resolution_counts.specs.Counts.{MinimalResolutionsHaveSameCounts, MinimalTablesHaveSameCounts};

/// Two tables of a module over the Steenrod algebra that are exact, with each generator needed, have equally many
/// generators at each square.
pub fn minimal_tables_have_same_counts()
    ensures { MinimalTablesHaveSameCounts }
{}

/// Two minimal resolutions of a module over the Steenrod algebra have equally many generators at each square.
pub fn minimal_resolutions_have_same_counts()
    ensures { MinimalResolutionsHaveSameCounts }
{}

/// In a minimal resolution the cochains Hom(F_s, F2) of modules over the Steenrod algebra have zero differential. So the
/// cochains of row s in degree t are Ext^(s,t) of the module with coefficients in F2.
pub fn cochains_have_zero_differential()
    ensures { CochainsHaveZeroDifferential }
{}

/// A map of modules from a free module to F2 in degree t is given by its values on the generators of degree t, which may be
/// any. So these maps are a vector space of as many dimensions as there are generators of that degree.
pub fn cochains_are_given_by_values()
    ensures { CochainsAreGivenByValues }
{}

/// Row s of a table has as many generators of the degree of a square (s, t) as that square.
pub fn generators_are_counted()
    ensures { GeneratorsAreCounted }
{}

//! Adem's relations for Milnor's product, and the basis of admissible monomials, as contracts of functions that do nothing.
#![tactic(auto)]

ghost use Rattle.adem_laws.specs.Adem.{AdemBinomials, AdemRelations};
ghost use Rattle.adem_laws.specs.Admissible.{AdmissibleFormIsUnique, AdmissiblesAre, AdmissiblesAreBasis, ValuesLead};

/// Adem's relations hold for Milnor's product, in all degrees, and so do the congruences of binomials that they come to.
pub fn adem_relations()
    ensures relations { AdemRelations }
    ensures binomials { AdemBinomials }
{}

/// In each degree the values of the admissible monomials form a basis: each is an element of Milnor's basis and a sum of elements
/// that stand before it, another one for each monomial. So there is one way to write a vector as a sum of such values, and one
/// list of the monomials in it if the greater stand first.
pub fn admissible_basis()
    ensures members { AdmissiblesAre }
    ensures leading { ValuesLead }
    ensures basis { AdmissiblesAreBasis }
    ensures form { AdmissibleFormIsUnique }
{}

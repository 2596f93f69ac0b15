//! The laws of certificates of a program, and of what its equations hold, as contracts of functions that do nothing. A
//! crate above cites the law that it needs.
ghost use Rattle.um_proof.specs.EquationLaws.{
  RowsAreFew,
  RowsHoldDeclaredUnits,
  SchemesHoldDeclaredUnits,
  TypesHoldDeclaredUnits,
};
ghost use Rattle.um_proof.specs.Laws.{CertifiedSchemesArePrincipal, RefutedFunctionsHaveNoTyping};
ghost use Rattle.um_proof.specs.Laws.{CertifiedOverDeclaredUnits, CertificatesShowPrincipalSchemes};

/// The rows and the types of a function of a formed program whose functions have their shapes hold base units that the
/// program declares, and no others, if the functions before it have the schemes that are inferred for them; and so do
/// these schemes. The rows are at most 220,000. So no equation holds the base unit that stands for a unit parameter in
/// a certificate.
pub fn equations()
    ensures rows { RowsHoldDeclaredUnits }
    ensures types { TypesHoldDeclaredUnits }
    ensures schemes { SchemesHoldDeclaredUnits }
    ensures few { RowsAreFew }
{}

/// What valid certificates show, given principal schemes of the functions before: that the scheme of a function without
/// unit parameters is principal, and that a function that is refused has no typing.
pub fn certified_typings()
    ensures principal { CertifiedSchemesArePrincipal }
    ensures none { RefutedFunctionsHaveNoTyping }
{}

/// A valid certificate of a scheme of a function shows that this scheme is principal, given principal schemes of the
/// functions before, if the function's equations hold declared base units alone. Those of a formed program do, with the
/// schemes that are inferred.
pub fn certified_schemes()
    ensures declared { CertifiedOverDeclaredUnits }
    ensures inferred { CertificatesShowPrincipalSchemes }
{
    um_tree::literals_of_formed_programs();
    equations();
}

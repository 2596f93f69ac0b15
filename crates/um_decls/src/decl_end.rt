// Declarations that end: each is added to those before it.
ghost use Rattle.std.specs.Prelude.{◌≡◌, ◌++◌, ◌∷◌, [], IfOk, OnOk, option_map};
ghost use Rattle.um_tree.specs.RawTree.{decl_syntax};
ghost use Rattle.um_decls.specs.DeclTakes.{Ends};

use std::alloc::AllocError;
use um_tree::RawDecl;

/// One declaration more, after these. It is written into its place, because it is large.
#[inline(always)]
pub fn push_decl(decls: &mut Vec<RawDecl>, decl: RawDecl) -> Result<(), AllocError>
    ensures { OnOk result (decls.new.items ≡ decls.old.items ++ decl ∷ []) }
{
    match decls.reserve(1) {
        Ok(()) => Ok(decls.push_reserved(decl)),
        Err(error) => {
            drop(decl);
            Err(error)
        }
    }
}

/// The declaration is added to these, if one was found. Answers whether one was.
#[inline(never)]
pub fn push_found(decls: &mut Vec<RawDecl>, found: Option<RawDecl>) -> Result<bool, AllocError>
    ensures { IfOk result (λ whole. Ends (option_map decl_syntax found) whole decls.old.items decls.new.items) }
{
    match found {
        Some(decl) => {
            push_decl(decls, decl)?;
            Ok(true)
        }
        None => Ok(false),
    }
}

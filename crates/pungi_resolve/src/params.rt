//! Parameters, which are the first locals of a function (C11 6.9.1).
ghost use Rattle.std.specs.Prelude.{◌≡◌, ◌+◌, ◌∷◌, IfOk, OnOk, map};
ghost use Rattle.pungi_types.specs.Calls.{param_kind};
ghost use Rattle.pungi_resolve.specs.Functions.{param_kinds, params_kinds};
ghost use Rattle.pungi_resolve.specs.Stmts.{with_param, with_params, params_site};
ghost use Rattle.pungi_tree.specs.ExprView.{spec_view, param_declr_view, param_decl_view, param_decls_of, params_view};
ghost use Rattle.pungi_tree.specs.Syntax as plain;
ghost use Rattle.pungi_resolve.specs.Sites.{site_of};

use crate::walk::{Around, Walk};
use pungi_base::Memory;
use pungi_tree::{ParamDecl, ParamDeclr, Params};
use pungi_types::{Lookup, ValueKind, param_kind};

/// A parameter comes into force. One without a name, or that is not used, has none in the body.
fn resolve_param<N: Lookup>(
    names: &N,
    around: Around,
    walk: &mut Walk,
    p: &ParamDecl,
) -> Result<Option<ValueKind>, Memory>
    ensures kind { IfOk result (λ x. x ≡ param_kind (N.env names.now).file.items (spec_view p.now.spec)
        (param_declr_view p.now.declr)) }
    ensures after { OnOk result (site_of (N.env names.now) walk.new around.result
        ≡ with_param (site_of (N.env names.now) walk.old around.result) (plain.param_decl p.now.quals.items
        (spec_view p.now.spec) (param_declr_view p.now.declr))) }
{
    let kind = param_kind(names, &p.spec, &p.declr);
    match &p.declr {
        ParamDeclr::Named(declr) => {
            walk.declare(declr.name, kind)?;
            Ok(kind)
        }
        ParamDeclr::Bare(_) | ParamDeclr::Unused { .. } => {
            walk.skip(kind)?;
            Ok(kind)
        }
    }
}

fn resolve_list<N: Lookup>(
    names: &N,
    around: Around,
    walk: &mut Walk,
    list: &Vec<ParamDecl>,
) -> Result<Vec<Option<ValueKind>>, Memory>
    ensures kinds { IfOk result (λ x. x.items ≡ param_kinds (N.env names.now).file.items
        (param_decls_of (map param_decl_view list.now.items))) }
    ensures after { OnOk result (site_of (N.env names.now) walk.new around.result
        ≡ with_params (site_of (N.env names.now) walk.old around.result) (param_decls_of
        (map param_decl_view list.now.items))) }
{
    let mut kinds = Vec::new(around.alloc);
    for p in list {
        let kind = resolve_param(names, around, walk, p)?;
        kinds.push(kind)?;
    }
    Ok(kinds)
}

/// The parameters of a function come into force. Their kinds are returned.
pub(crate) fn resolve_params<N: Lookup>(
    names: &N,
    around: Around,
    walk: &mut Walk,
    params: &Params,
) -> Result<Vec<Option<ValueKind>>, Memory>
    ensures kinds { IfOk result (λ x. x.items ≡ params_kinds (N.env names.now).file.items (params_view params.now)) }
    ensures after { OnOk result (site_of (N.env names.now) walk.new around.result
        ≡ params_site (site_of (N.env names.now) walk.old around.result) (params_view params.now)) }
{
    resolve_list(names, around, walk, &params.list)
}

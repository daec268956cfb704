//! Where rules hold in the parameters of a function.
ghost use Rattle.std.specs.Prelude.{◌≡◌, ◌+◌, [], map, OnOk};
ghost use Rattle.pungi_types.specs.Findings.{least_from, ◌and◌};
ghost use Rattle.pungi_types.specs.Calls.{param_kind};
ghost use Rattle.pungi_types.specs.Stmts.{declared_n1};
ghost use Rattle.pungi_types.specs.Functions.{name_findings, param_findings, after_param, after_params};
ghost use Rattle.pungi_types.specs.Functions.{params_findings, params_frame, dots_findings};
ghost use Rattle.pungi_scope.specs.Frames.{frame_of};
ghost use Rattle.pungi_scope.specs.ScopeEnv.{inner_env};
ghost use Rattle.pungi_tree.specs.ExprView.{spec_view, declr_view, param_declr_view, param_decl_view, param_decls_of};
ghost use Rattle.pungi_tree.specs.ExprView.{params_view};
ghost use Rattle.pungi_tree.specs.Syntax as plain;

use crate::Scope;
use crate::decl::note_name;
use crate::steps::note_at;
use crate::walk::{Around, Walk};
use indexmap::IndexSet;
use pungi_base::{Key, Memory};
use pungi_tree::{ParamDecl, ParamDeclr, Params, Spec};
use pungi_types::{Lookup, ValueKind, keep, note_declared, param_kind};

/// What holds at the type of a parameter, and its kind.
fn check_type<N: Lookup>(
    names: &N,
    walk: &mut Walk,
    quals: &Vec<Key>,
    spec: &Spec,
    declr: &ParamDeclr,
) -> Option<ValueKind>
    ensures kind { result ≡ param_kind (N.env names.now).file.items (spec_view spec.now) (param_declr_view declr.now) }
    ensures found { walk.new ≡ record walk.old {
      first = least_from walk.old.first
          (declared_n1 quals.now.items (spec_view spec.now) (param_kind (N.env names.now).file.items
          (spec_view spec.now) (param_declr_view declr.now)));
    } }
{
    let kind = param_kind(names, spec, declr);
    note_declared(&mut walk.first, quals, spec, kind);
    kind
}

/// Declares the name of a parameter. One without a name, or that is not used, has none in the body.
fn declare_param<N: Lookup>(
    names: &N,
    around: &Around<'_>,
    walk: &mut Walk,
    block: &mut IndexSet<u32>,
    kind: Option<ValueKind>,
    p: &ParamDecl,
) -> Result<(), Memory>
    requires { kind ≡ param_kind (N.env names.now).file.items (spec_view p.now.spec) (param_declr_view p.now.declr) }
    ensures found { OnOk result (walk.new.first ≡ least_from walk.old.first
        (name_findings (frame_of (N.env names.now) walk.old block.old.keys around.now)
        (param_declr_view p.now.declr))) }
    ensures frame { OnOk result (frame_of (N.env names.now) walk.new block.new.keys around.now
        ≡ after_param (frame_of (N.env names.now) walk.old block.old.keys around.now)
        (plain.param_decl p.now.quals.items (spec_view p.now.spec) (param_declr_view p.now.declr))) }
{
    match &p.declr {
        ParamDeclr::Named(declr) => {
            let scope = Scope {
                names,
                locals: &walk.locals,
            };
            note_name(&scope, block, &mut walk.first, declr.name, declr.pos);
            walk.declare(declr.name, kind)?;
            keep(block, declr.name)?;
            Ok(())
        }
        ParamDeclr::Bare(_) | ParamDeclr::Unused { .. } => {
            walk.skip(kind)?;
            Ok(())
        }
    }
}

fn check_param<N: Lookup>(
    names: &N,
    around: &Around<'_>,
    walk: &mut Walk,
    block: &mut IndexSet<u32>,
    p: &ParamDecl,
) -> Result<(), Memory>
    ensures found { OnOk result (walk.new.first ≡ least_from walk.old.first
        (declared_n1 p.now.quals.items (spec_view p.now.spec) (param_kind (N.env names.now).file.items
        (spec_view p.now.spec) (param_declr_view p.now.declr))
        and name_findings (frame_of (N.env names.now) walk.old block.old.keys around.now)
        (param_declr_view p.now.declr))) }
    ensures frame { OnOk result (frame_of (N.env names.now) walk.new block.new.keys around.now
        ≡ after_param (frame_of (N.env names.now) walk.old block.old.keys around.now)
        (plain.param_decl p.now.quals.items (spec_view p.now.spec) (param_declr_view p.now.declr))) }
{
    let kind = check_type(names, walk, &p.quals, &p.spec, &p.declr);
    declare_param(names, around, walk, block, kind, p)?;
    Ok(())
}

fn check_list<N: Lookup>(
    names: &N,
    around: &Around<'_>,
    walk: &mut Walk,
    block: &mut IndexSet<u32>,
    list: &Vec<ParamDecl>,
) -> Result<(), Memory>
    ensures found { OnOk result (walk.new.first ≡ least_from walk.old.first
        (param_findings (frame_of (N.env names.now) walk.old block.old.keys around.now)
        (param_decls_of (map param_decl_view list.now.items)))) }
    ensures frame { OnOk result (frame_of (N.env names.now) walk.new block.new.keys around.now
        ≡ after_params (frame_of (N.env names.now) walk.old block.old.keys around.now)
        (param_decls_of (map param_decl_view list.now.items))) }
{
    for p in list {
        check_param(names, around, walk, block, p)?;
    }
    Ok(())
}

/// Walks through the parameters of a function.
pub(crate) fn check_params<N: Lookup>(
    names: &N,
    around: &Around<'_>,
    walk: &mut Walk,
    block: &mut IndexSet<u32>,
    params: &Params,
) -> Result<(), Memory>
    ensures found { OnOk result (walk.new.first ≡ least_from walk.old.first
        (params_findings (frame_of (N.env names.now) walk.old block.old.keys around.now) (params_view params.now))) }
    ensures frame { OnOk result (frame_of (N.env names.now) walk.new block.new.keys around.now
        ≡ params_frame (frame_of (N.env names.now) walk.old block.old.keys around.now) (params_view params.now)) }
{
    if let Some(pos) = params.dots {
        note_at(walk, true, pos, 1);
    }
    check_list(names, around, walk, block, &params.list)?;
    Ok(())
}

//! Where rules hold in declarations of locals.
ghost use Rattle.std.specs.Prelude.{◌≡◌, map, OnOk};
ghost use Rattle.pungi_types.specs.Findings.{least_from, ◌and◌};
ghost use Rattle.pungi_types.specs.Kinds.{declared_kind};
ghost use Rattle.pungi_types.specs.Stmts.{declared_n1, declared_n8, first_value_findings, var_findings, vars_findings};
ghost use Rattle.pungi_types.specs.Stmts.{decl_findings, after_var, after_vars, after_decl};
ghost use Rattle.pungi_scope.specs.Frames.{frame_of};
ghost use Rattle.pungi_scope.specs.ScopeEnv.{inner_env};
ghost use Rattle.pungi_tree.specs.ExprView.{spec_view, declr_view};
ghost use Rattle.pungi_tree.specs.StmtView.{init_option_view, var_decl_view, decl_view};

use crate::Scope;
use crate::walk::{Around, Walk};
use indexmap::IndexSet;
use pungi_base::{Key, Memory, Name, Pos};
use pungi_tree::{Decl, Declr, Init, Spec, VarDecl};
use pungi_types::{
    Finding, Lookup, ValueKind, declared_kind, initial, is_kept, keep, note, note_declared,
};
use std::alloc::Global;

/// What holds at the name of a local that is declared: it stands twice in one block, or is that of a function, row or
/// static.
pub(crate) fn note_name<N: Lookup>(
    names: &N,
    block: &IndexSet<u32>,
    first: &mut Option<Finding>,
    name: Name,
    pos: Pos,
)
    ensures { first.new ≡ least_from first.old (declared_n8 (N.env names.now) block.now.keys name pos) }
{
    let taken = is_kept(block, name) || names.is_taken(name);
    note(first, taken, pos, 8);
}

/// What holds at a declared variable, up to its first value, and its kind.
fn check_declr<N: Lookup>(
    names: &N,
    walk: &mut Walk,
    block: &IndexSet<u32>,
    quals: &Vec<Key>,
    spec: &Spec,
    declr: &Declr,
) -> Option<ValueKind>
    ensures kind { result ≡ declared_kind (N.env names.now).file.items (spec_view spec.now) (declr_view declr.now) }
    ensures found { walk.new ≡ record walk.old {
      first = least_from walk.old.first
          (declared_n1 quals.now.items (spec_view spec.now) (declared_kind (N.env names.now).file.items
          (spec_view spec.now) (declr_view declr.now))
          and declared_n8 (inner_env (N.env names.now) walk.old.locals) block.now.keys declr.now.name declr.now.pos);
    } }
{
    let scope = Scope {
        names,
        locals: &walk.locals,
    };
    let kind = declared_kind(&scope, spec, declr);
    note_declared(&mut walk.first, quals, spec, kind);
    note_name(&scope, block, &mut walk.first, declr.name, declr.pos);
    kind
}

/// What holds at the first value of a variable.
fn check_initial<N: Lookup>(
    alloc: Global,
    names: &N,
    walk: &mut Walk,
    kind: Option<ValueKind>,
    pos: Pos,
    value: &Option<Init>,
) -> Result<(), Memory>
    ensures { OnOk result (walk.new ≡ record walk.old {
      first = least_from walk.old.first
          (first_value_findings (inner_env (N.env names.now) walk.old.locals) kind pos (init_option_view value.now));
    }) }
{
    let scope = Scope {
        names,
        locals: &walk.locals,
    };
    initial(alloc, &scope, &mut walk.first, kind, pos, value)
}

fn check_var<N: Lookup>(
    names: &N,
    around: &Around<'_>,
    walk: &mut Walk,
    block: &mut IndexSet<u32>,
    quals: &Vec<Key>,
    spec: &Spec,
    var: &VarDecl,
) -> Result<(), Memory>
    ensures found { OnOk result (walk.new.first ≡ least_from walk.old.first
        (var_findings (frame_of (N.env names.now) walk.old block.old.keys around.now) quals.now.items
        (spec_view spec.now) (var_decl_view var.now))) }
    ensures frame { OnOk result (frame_of (N.env names.now) walk.new block.new.keys around.now
        ≡ after_var (frame_of (N.env names.now) walk.old block.old.keys around.now) (spec_view spec.now)
        (var_decl_view var.now)) }
{
    let kind = check_declr(names, walk, block, quals, spec, &var.declr);
    walk.declare(var.declr.name, kind)?;
    keep(block, var.declr.name)?;
    check_initial(around.alloc, names, walk, kind, var.declr.pos, &var.value)?;
    Ok(())
}

fn check_vars<N: Lookup>(
    names: &N,
    around: &Around<'_>,
    walk: &mut Walk,
    block: &mut IndexSet<u32>,
    quals: &Vec<Key>,
    spec: &Spec,
    list: &Vec<VarDecl>,
) -> Result<(), Memory>
    ensures found { OnOk result (walk.new.first ≡ least_from walk.old.first
        (vars_findings (frame_of (N.env names.now) walk.old block.old.keys around.now) quals.now.items
        (spec_view spec.now) (map var_decl_view list.now.items))) }
    ensures frame { OnOk result (frame_of (N.env names.now) walk.new block.new.keys around.now
        ≡ after_vars (frame_of (N.env names.now) walk.old block.old.keys around.now) (spec_view spec.now)
        (map var_decl_view list.now.items)) }
{
    for var in list {
        check_var(names, around, walk, block, quals, spec, var)?;
    }
    Ok(())
}

/// Walks through a declaration.
pub(crate) fn check_decl<N: Lookup>(
    names: &N,
    around: &Around<'_>,
    walk: &mut Walk,
    block: &mut IndexSet<u32>,
    d: &Decl,
) -> Result<(), Memory>
    ensures found { OnOk result (walk.new.first ≡ least_from walk.old.first
        (decl_findings (frame_of (N.env names.now) walk.old block.old.keys around.now) (decl_view d.now))) }
    ensures frame { OnOk result (frame_of (N.env names.now) walk.new block.new.keys around.now
        ≡ after_decl (frame_of (N.env names.now) walk.old block.old.keys around.now) (decl_view d.now)) }
{
    check_vars(names, around, walk, block, &d.quals, &d.type_name, &d.vars)?;
    Ok(())
}

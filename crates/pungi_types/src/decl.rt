// Where rules hold in declarations.
ghost use Rattle.std.specs.Prelude.{◌≡◌, ◌&&◌, not, is_some, OnOk};
ghost use Rattle.pungi_types.specs.Findings.{least_from};
ghost use Rattle.pungi_types.specs.Stmts.{has_file_storage, declared_n1, is_wrong_initial, first_value_findings};
ghost use Rattle.pungi_types.specs.Stmts.{condition_findings, is_wrong_return, return_findings, is_no_integer};
ghost use Rattle.pungi_types.specs.Stmts.{switched_findings};
ghost use Rattle.pungi_types.specs.Operators.{is_void};
ghost use Rattle.pungi_types.specs.Kinds.{declared_kind};
ghost use Rattle.pungi_types.specs.Calls.{param_kind};
ghost use Rattle.pungi_tree.specs.ExprView.{expr_view, spec_view, declr_view, param_declr_view};
ghost use Rattle.pungi_tree.specs.StmtView.{init_option_view};
ghost use Rattle.pungi_tree.specs.ExprView.{optional_view};

use crate::expr::check_expr;
use crate::findings::{note, note_used, operand};
use crate::lookup::Lookup;
use crate::operator::{fits, is_integer, is_void};
use crate::tail::is_plain;
use crate::types::not_void;
use crate::{Finding, ValueKind};
use pungi_base::{Key, Memory, Pos};
use pungi_tree::{Declr, Expr, Init, ParamDeclr, Spec};
use std::alloc::Global;

type Known = Option<ValueKind>;

fn has_file_storage(quals: &Vec<Key>) -> bool
    ensures { result ≡ has_file_storage quals.now.items }
{
    for key in quals {
        if matches!(key, Key::Static | Key::Extern) {
            return true;
        }
    }
    false
}

/// What holds at the type of what is declared.
pub fn note_declared(first: &mut Option<Finding>, quals: &Vec<Key>, spec: &Spec, kind: Known)
    ensures { first.new ≡ least_from first.old (declared_n1 quals.now.items (spec_view spec.now) kind) }
{
    note(
        first,
        kind.is_none() || has_file_storage(quals),
        spec.pos,
        1,
    );
}

/// The kind of what is declared. An array, a pointer to a function and `void` have none.
pub fn declared_kind<N: Lookup>(names: &N, spec: &Spec, declr: &Declr) -> Known
    ensures { result ≡ declared_kind (N.env names.now).file.items (spec_view spec.now) (declr_view declr.now) }
{
    if is_plain(declr) {
        not_void(names.type_kind(spec, declr.stars.len()))
    } else {
        None
    }
}

/// The kind of a parameter.
pub fn param_kind<N: Lookup>(names: &N, spec: &Spec, declr: &ParamDeclr) -> Known
    ensures { result ≡ param_kind (N.env names.now).file.items (spec_view spec.now) (param_declr_view declr.now) }
{
    match declr {
        ParamDeclr::Named(named) => declared_kind(names, spec, named),
        ParamDeclr::Bare(stars) => not_void(names.type_kind(spec, stars.len())),
        ParamDeclr::Unused { stars, .. } => not_void(names.type_kind(spec, stars.len())),
    }
}

/// What holds at the first value of what is declared at this place, of this kind.
pub fn initial<N: Lookup>(
    alloc: Global,
    names: &N,
    first: &mut Option<Finding>,
    kind: Known,
    pos: Pos,
    value: &Option<Init>,
) -> Result<(), Memory>
    ensures { OnOk result (first.new ≡ least_from first.old (first_value_findings (N.env names.now) kind pos
        (init_option_view value.now))) }
{
    match value {
        None => Ok(()),
        Some(Init::Table(_)) => {
            note(first, true, pos, 10);
            Ok(())
        }
        Some(Init::Value(e)) => {
            let given = check_expr(alloc, names, first, e)?;
            note(first, is_wrong_initial(kind, operand(given, e)), pos, 10);
            note_used(first, given, e);
            Ok(())
        }
    }
}

fn is_wrong_initial(wanted: Known, kind: Known) -> bool
    ensures { result ≡ is_wrong_initial wanted kind }
{
    is_void(kind) || ((wanted.is_some() && kind.is_some()) && !fits(wanted, kind))
}

/// What holds at a condition that stands at this place.
pub fn condition<N: Lookup>(
    alloc: Global,
    names: &N,
    first: &mut Option<Finding>,
    pos: Pos,
    e: &Expr,
) -> Result<(), Memory>
    ensures { OnOk result (first.new ≡ least_from first.old (condition_findings (N.env names.now) pos
        (expr_view e.now))) }
{
    let kind = check_expr(alloc, names, first, e)?;
    note(first, is_void(operand(kind, e)), pos, 10);
    note_used(first, kind, e);
    Ok(())
}

/// What holds at a `return` that stands at this place, in a function with a result of this kind.
pub fn return_value<N: Lookup>(
    alloc: Global,
    names: &N,
    first: &mut Option<Finding>,
    result_kind: Known,
    pos: Pos,
    value: &Option<Expr>,
) -> Result<(), Memory>
    ensures { OnOk result (first.new ≡ least_from first.old (return_findings (N.env names.now) result_kind pos
        (optional_view value.now))) }
{
    match value {
        None => {
            note(first, is_some_but_void(result_kind), pos, 10);
            Ok(())
        }
        Some(e) => {
            let kind = check_expr(alloc, names, first, e)?;
            note(
                first,
                is_wrong_return(result_kind, operand(kind, e)),
                pos,
                10,
            );
            note_used(first, kind, e);
            Ok(())
        }
    }
}

fn is_some_but_void(kind: Known) -> bool
    ensures { result ≡ (is_some kind && not (is_void kind)) }
{
    kind.is_some() && !is_void(kind)
}

fn is_wrong_return(wanted: Known, kind: Known) -> bool
    ensures { result ≡ is_wrong_return wanted kind }
{
    is_void(wanted) || ((wanted.is_some() && kind.is_some()) && !fits(wanted, kind))
}

/// What holds at the value by which a `switch` that stands at this place goes.
pub fn check_switched<N: Lookup>(
    alloc: Global,
    names: &N,
    first: &mut Option<Finding>,
    pos: Pos,
    e: &Expr,
) -> Result<(), Memory>
    ensures { OnOk result (first.new ≡ least_from first.old (switched_findings (N.env names.now) pos
        (expr_view e.now))) }
{
    let kind = check_expr(alloc, names, first, e)?;
    note(first, is_no_integer(operand(kind, e)), pos, 10);
    note_used(first, kind, e);
    Ok(())
}

fn is_no_integer(kind: Known) -> bool
    ensures { result ≡ is_no_integer kind }
{
    kind.is_some() && !is_integer(kind)
}

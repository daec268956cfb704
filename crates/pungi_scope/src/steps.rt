//! Where rules hold in the expressions of a statement, one after another.
ghost use Rattle.std.specs.Prelude.{◌≡◌, OnOk};
ghost use Rattle.pungi_types.specs.Findings.{least_from, when};
ghost use Rattle.pungi_types.specs.Exprs.{expr_findings};
ghost use Rattle.pungi_types.specs.Stmts.{option_findings, condition_findings, option_condition, return_findings};
ghost use Rattle.pungi_types.specs.Stmts.{switched_findings};
ghost use Rattle.pungi_scope.specs.ScopeEnv.{inner_env};
ghost use Rattle.pungi_tree.specs.ExprView.{expr_view, optional_view};

use crate::Scope;
use crate::walk::Walk;
use pungi_base::{Memory, Pos};
use pungi_tree::Expr;
use pungi_types::{Lookup, ValueKind, check_expr, check_switched, condition, note, return_value};
use std::alloc::Global;

/// A rule holds at this place, where the condition does.
pub(crate) fn note_at(walk: &mut Walk, holds: bool, pos: Pos, rule: u8)
    ensures { walk.new ≡ record walk.old { first = least_from walk.old.first (when holds pos rule) } }
{
    note(&mut walk.first, holds, pos, rule);
}

/// An expression.
pub(crate) fn visit<N: Lookup>(
    alloc: Global,
    names: &N,
    walk: &mut Walk,
    e: &Expr,
) -> Result<(), Memory>
    ensures { OnOk result (walk.new ≡ record walk.old {
      first = least_from walk.old.first
          (expr_findings (inner_env (N.env names.now) walk.old.locals) (expr_view e.now));
    }) }
{
    let scope = Scope {
        names,
        locals: &walk.locals,
    };
    check_expr(alloc, &scope, &mut walk.first, e)?;
    Ok(())
}

/// An expression that may be missing.
pub(crate) fn visit_optional<N: Lookup>(
    alloc: Global,
    names: &N,
    walk: &mut Walk,
    e: &Option<Expr>,
) -> Result<(), Memory>
    ensures { OnOk result (walk.new ≡ record walk.old {
      first = least_from walk.old.first
          (option_findings (inner_env (N.env names.now) walk.old.locals) (optional_view e.now));
    }) }
{
    match e {
        None => Ok(()),
        Some(e) => visit(alloc, names, walk, e),
    }
}

/// A condition.
pub(crate) fn visit_condition<N: Lookup>(
    alloc: Global,
    names: &N,
    walk: &mut Walk,
    pos: Pos,
    e: &Expr,
) -> Result<(), Memory>
    ensures { OnOk result (walk.new ≡ record walk.old {
      first = least_from walk.old.first
          (condition_findings (inner_env (N.env names.now) walk.old.locals) pos (expr_view e.now));
    }) }
{
    let scope = Scope {
        names,
        locals: &walk.locals,
    };
    condition(alloc, &scope, &mut walk.first, pos, e)
}

/// A condition that may be missing.
pub(crate) fn visit_optional_condition<N: Lookup>(
    alloc: Global,
    names: &N,
    walk: &mut Walk,
    pos: Pos,
    e: &Option<Expr>,
) -> Result<(), Memory>
    ensures { OnOk result (walk.new ≡ record walk.old {
      first = least_from walk.old.first
          (option_condition (inner_env (N.env names.now) walk.old.locals) pos (optional_view e.now));
    }) }
{
    match e {
        None => Ok(()),
        Some(e) => visit_condition(alloc, names, walk, pos, e),
    }
}

/// What a `switch` goes by.
pub(crate) fn visit_switched<N: Lookup>(
    alloc: Global,
    names: &N,
    walk: &mut Walk,
    pos: Pos,
    e: &Expr,
) -> Result<(), Memory>
    ensures { OnOk result (walk.new ≡ record walk.old {
      first = least_from walk.old.first
          (switched_findings (inner_env (N.env names.now) walk.old.locals) pos (expr_view e.now));
    }) }
{
    let scope = Scope {
        names,
        locals: &walk.locals,
    };
    check_switched(alloc, &scope, &mut walk.first, pos, e)
}

/// A `return` in a function with a result of this kind.
pub(crate) fn visit_return<N: Lookup>(
    alloc: Global,
    names: &N,
    walk: &mut Walk,
    kind: Option<ValueKind>,
    pos: Pos,
    e: &Option<Expr>,
) -> Result<(), Memory>
    ensures { OnOk result (walk.new ≡ record walk.old {
      first = least_from walk.old.first
          (return_findings (inner_env (N.env names.now) walk.old.locals) kind pos (optional_view e.now));
    }) }
{
    let scope = Scope {
        names,
        locals: &walk.locals,
    };
    return_value(alloc, &scope, &mut walk.first, kind, pos, e)
}

//! The values of a statement.
ghost use Rattle.std.specs.Prelude.{◌≡◌, IfOk, true};
ghost use Rattle.pungi_types.specs.Exprs.{kind_of};
ghost use Rattle.pungi_types.specs.Labels.{constant_of};
ghost use Rattle.pungi_resolve.specs.Exprs.{convert as convert_of, resolve};
ghost use Rattle.pungi_resolve.specs.Stmts.{option_value, return_value, case_value};
ghost use Rattle.pungi_resolve.specs.Sound.{is_long, is_sound, is_sound_option};
ghost use Rattle.pungi_scope.specs.ScopeEnv.{inner_env};
ghost use Rattle.pungi_tree.specs.ExprView.{expr_view, optional_view as optional_expr_view};
ghost use Rattle.pungi_resolved.specs.ValueView.{boxed_view, optional_view};
ghost use Rattle.pungi_resolve.specs.Sites.{site_of};

use crate::convert::convert;
use crate::expr::resolve_expr;
use crate::walk::{Around, Walk};
use pungi_base::{Memory, Pos};
use pungi_resolved::Value;
use pungi_scope::{Scope, constant};
use pungi_tree::Expr;
use pungi_types::{Lookup, ValueKind};

/// The value of an expression.
pub(crate) fn value<N: Lookup>(
    names: &N,
    around: Around,
    walk: &Walk,
    e: &Expr,
) -> Result<Box<Value>, Memory>
    requires { is_sound (resolve (inner_env (N.env names.now) walk.now.locals) (expr_view e.now)) ≡ true }
    ensures { IfOk result (λ x. boxed_view x ≡ resolve (inner_env (N.env names.now) walk.now.locals)
        (expr_view e.now)) }
{
    let scope = Scope {
        names,
        locals: &walk.locals,
    };
    let found = resolve_expr(around.alloc, &scope, e)?;
    Ok(found.value)
}

/// The value of an expression that may be missing.
pub(crate) fn optional_value<N: Lookup>(
    names: &N,
    around: Around,
    walk: &Walk,
    e: &Option<Expr>,
) -> Result<Option<Box<Value>>, Memory>
    requires { is_sound_option (option_value (inner_env (N.env names.now) walk.now.locals)
        (optional_expr_view e.now)) ≡ true }
    ensures { IfOk result (λ x. optional_view x ≡ option_value (inner_env (N.env names.now) walk.now.locals)
        (optional_expr_view e.now)) }
{
    match e {
        None => Ok(None),
        Some(e) => {
            let found = value(names, around, walk, e)?;
            Ok(Some(found))
        }
    }
}

/// The value of an expression as one of this kind. The conversion stands at this place.
pub(crate) fn value_as<N: Lookup>(
    names: &N,
    around: Around,
    walk: &Walk,
    pos: Pos,
    kind: Option<ValueKind>,
    e: &Expr,
) -> Result<Box<Value>, Memory>
    requires { is_sound (convert_of pos kind (kind_of (inner_env (N.env names.now) walk.now.locals)
        (expr_view e.now)) (resolve (inner_env (N.env names.now) walk.now.locals) (expr_view e.now))) ≡ true }
    ensures { IfOk result (λ x. boxed_view x ≡ convert_of pos kind (kind_of
        (inner_env (N.env names.now) walk.now.locals) (expr_view e.now)) (resolve
        (inner_env (N.env names.now) walk.now.locals) (expr_view e.now))) }
{
    let scope = Scope {
        names,
        locals: &walk.locals,
    };
    let found = resolve_expr(around.alloc, &scope, e)?;
    convert(around.alloc, pos, kind, found.kind, found.value)
}

/// What a `return` at this place gives back.
pub(crate) fn return_value<N: Lookup>(
    names: &N,
    around: Around,
    walk: &Walk,
    pos: Pos,
    e: &Option<Expr>,
) -> Result<Option<Box<Value>>, Memory>
    requires { is_sound_option (return_value (site_of (N.env names.now) walk.now around.result) pos
        (optional_expr_view e.now)) ≡ true }
    ensures { IfOk result (λ x. optional_view x ≡ return_value (site_of (N.env names.now) walk.now around.result)
        pos (optional_expr_view e.now)) }
{
    match e {
        None => Ok(None),
        Some(e) => {
            let found = value_as(names, around, walk, pos, around.result, e)?;
            Ok(Some(found))
        }
    }
}

/// The value of a `case`, which is that of an integer kind, and 0 where it has none.
pub(crate) fn case_value(e: &Expr) -> i64
    requires { is_long (case_value (constant_of (expr_view e.now))) ≡ true }
    ensures { result ≡ case_value (constant_of (expr_view e.now)) }
{
    match constant(e) {
        None => 0,
        Some(number) => i64::try_from(number).unwrap_or(0),
    }
}

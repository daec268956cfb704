//! Locals as their declarations are reached (C11 6.7.9).
ghost use Rattle.std.specs.Prelude.{◌≡◌, ◌+◌, ◌∷◌, IfOk, OnOk, map, true};
ghost use Rattle.pungi_resolve.specs.Stmts.{with_var, with_vars, declared_locals};
ghost use Rattle.pungi_resolve.specs.Sound.{is_sound_option};
ghost use Rattle.pungi_resolve.specs.SoundActions.{AreSoundLocals};
ghost use Rattle.pungi_scope.specs.ScopeEnv.{inner_env};
ghost use Rattle.pungi_tree.specs.ExprView.{spec_view};
ghost use Rattle.pungi_tree.specs.StmtView.{init_option_view, var_decl_view};
ghost use Rattle.pungi_resolved.specs.ValueView.{optional_view};
ghost use Rattle.pungi_resolved.specs.ActionView.{declared_view};
ghost use Rattle.pungi_resolve.specs.Sites.{site_of, first_value, declared_var};

use crate::values::value_as;
use crate::walk::{Around, Walk};
use pungi_base::{Memory, Pos};
use pungi_resolved::{DeclaredLocal, Value};
use pungi_tree::{Init, Spec, VarDecl};
use pungi_types::{Lookup, ValueKind, declared_kind};

/// The first value of a variable of this kind that is declared at this place.
fn first_value<N: Lookup>(
    names: &N,
    around: Around,
    walk: &Walk,
    kind: Option<ValueKind>,
    pos: Pos,
    value: &Option<Init>,
) -> Result<Option<Box<Value>>, Memory>
    requires { is_sound_option (first_value (inner_env (N.env names.now) walk.now.locals) kind pos
        (init_option_view value.now)) ≡ true }
    ensures { IfOk result (λ x. optional_view x ≡ first_value (inner_env (N.env names.now) walk.now.locals) kind pos
        (init_option_view value.now)) }
{
    match value {
        None => Ok(None),
        Some(Init::Table(_)) => Ok(None),
        Some(Init::Value(e)) => {
            let found = value_as(names, around, walk, pos, kind, e)?;
            Ok(Some(found))
        }
    }
}

/// A variable comes into force, and is reached.
fn resolve_var<N: Lookup>(
    names: &N,
    around: Around,
    walk: &mut Walk,
    spec: &Spec,
    var: &VarDecl,
) -> Result<DeclaredLocal, Memory>
    requires { is_sound_option (declared_var (site_of (N.env names.now) walk.old around.result) (spec_view spec.now)
        (var_decl_view var.now)).value ≡ true }
    ensures reached { IfOk result (λ x. declared_view x
        ≡ declared_var (site_of (N.env names.now) walk.old around.result) (spec_view spec.now)
        (var_decl_view var.now)) }
    ensures after { OnOk result (site_of (N.env names.now) walk.new around.result
        ≡ with_var (site_of (N.env names.now) walk.old around.result) (spec_view spec.now) (var_decl_view var.now)) }
{
    let number = walk.next.number();
    let at = var.declr.pos;
    let kind = declared_kind(names, spec, &var.declr);
    walk.declare(var.declr.name, kind)?;
    let value = first_value(names, around, walk, kind, at, &var.value)?;
    Ok(DeclaredLocal {
        number,
        at,
        kind,
        value,
    })
}

/// Variables come into force one after another, and are reached.
pub(crate) fn resolve_vars<N: Lookup>(
    names: &N,
    around: Around,
    walk: &mut Walk,
    spec: &Spec,
    list: &Vec<VarDecl>,
) -> Result<Vec<DeclaredLocal>, Memory>
    requires { AreSoundLocals (declared_locals (site_of (N.env names.now) walk.old around.result)
        (spec_view spec.now) (map var_decl_view list.now.items)) }
    ensures reached { IfOk result (λ x. map declared_view x.items
        ≡ declared_locals (site_of (N.env names.now) walk.old around.result) (spec_view spec.now)
        (map var_decl_view list.now.items)) }
    ensures after { OnOk result (site_of (N.env names.now) walk.new around.result
        ≡ with_vars (site_of (N.env names.now) walk.old around.result) (spec_view spec.now)
        (map var_decl_view list.now.items)) }
{
    let mut locals = Vec::new(around.alloc);
    for var in list {
        let local = resolve_var(names, around, walk, spec, var)?;
        locals.push(local)?;
    }
    Ok(locals)
}

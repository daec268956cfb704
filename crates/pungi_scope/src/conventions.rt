//! Whether what is declared of a function fits it.
ghost use Rattle.std.specs.Prelude.{◌≡◌, map};
ghost use Rattle.std.specs.List.{list_all};
ghost use Rattle.std.specs.Option.{option_copied};
ghost use Rattle.pungi_api.specs.Terms.{convention_of, declared_in};
ghost use Rattle.pungi_tree.specs.ExprView.{param_decl_view, param_decls_of, params_view};
ghost use Rattle.pungi_types.specs.Functions.{is_object_decl, is_object_param, takes_object, result_kind, may_declare};
ghost use Rattle.pungi_types.specs.Operators.{is_object};
ghost use Rattle.pungi_types.specs.TypesView.{definition_view};

use pungi_api::Convention;
use pungi_tree::{FunctionDef, ParamDecl, Params};
use pungi_types::{Lookup, is_object, param_kind};

/// Whether a parameter is for an object.
fn is_object_param<N: Lookup>(names: &N, param: &ParamDecl) -> bool
    ensures { result ≡ is_object_decl (N.env names.now).file.items (param_decl_view param.now) }
{
    is_object(param_kind(names, &param.spec, &param.declr))
}

/// Whether there is a parameter at a place of a list, and it is for an object.
fn has_object<N: Lookup>(names: &N, list: &[ParamDecl], place: usize) -> bool
    ensures { result ≡ is_object_param (N.env names.now).file.items (param_decls_of (map param_decl_view list.now))
        place }
{
    match list.get(place) {
        Some(param) => is_object_param(names, param),
        None => false,
    }
}

/// Whether a function has a parameter at a place, and it is for an object.
fn takes_object<N: Lookup>(names: &N, params: &Params, place: u32) -> bool
    ensures { result ≡ takes_object (N.env names.now).file.items (params_view params.now) place }
{
    has_object(names, &params.list, place as usize)
}

/// Whether the parameters at these places are for objects.
fn take_objects<N: Lookup>(names: &N, params: &Params, places: &[u32]) -> bool
    ensures { result ≡ list_all (takes_object (N.env names.now).file.items (params_view params.now)) places.now }
{
    places
        .iter()
        .all(|place| takes_object(names, params, *place))
}

/// Whether a function's result is an object.
fn returns_object<N: Lookup>(names: &N, f: &FunctionDef) -> bool
    ensures { result ≡ is_object (result_kind (N.env names.now) (definition_view f.now)) }
{
    is_object(names.type_kind(&f.result, f.stars.len()))
}

/// Whether this may be declared of a function.
fn may_declare<N: Lookup>(names: &N, f: &FunctionDef, convention: &Convention) -> bool
    ensures { result ≡ may_declare (N.env names.now) (definition_view f.now) convention.now }
{
    take_objects(names, &f.params, convention.taken.as_slice())
        && (!convention.borrowed || returns_object(names, f))
}

/// Whether what is declared of a function, if anything is, may be declared of it.
pub(crate) fn fits_convention<N: Lookup>(
    names: &N,
    convention: Option<&Convention>,
    f: &FunctionDef,
) -> bool
    requires { option_copied convention ≡ declared_in (N.env names.now).file.terms.conventions f.now.name.0 }
    ensures { result ≡ may_declare (N.env names.now) (definition_view f.now)
        (convention_of (N.env names.now).file.terms f.now.name.0) }
{
    match convention {
        Some(convention) => may_declare(names, f, convention),
        None => true,
    }
}

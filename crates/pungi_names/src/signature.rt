// What a call of a function takes and gives.
ghost use Rattle.std.specs.Prelude.{◌≡◌, ◌++◌, IfOk, OnOk, map};
ghost use Rattle.pungi_names.specs.CallsView.{signature_view, function_signature};
ghost use Rattle.pungi_tree.specs.ExprView.{param_decl_view, param_decls_of, params_view};
ghost use Rattle.pungi_tree.specs.UnitView.{unit_view};
ghost use Rattle.pungi_types.specs.Calls.{kind_want, param_wants, params_wants};
ghost use Rattle.pungi_types.specs.TypesView.{definition_view};

use crate::kinds::Kinds;
use pungi_base::{Memory, Name};
use pungi_tree::{FunctionDef, ParamDecl, Params};
use pungi_types::{ValueKind, Want};
use std::alloc::Global;

/// What a call of a function takes, and the kind of its result.
#[derive(Drop)]
pub(crate) struct Signature {
    pub(crate) name: Name,
    pub(crate) wants: Vec<Want>,
    pub(crate) result_kind: Option<ValueKind>,
}

fn kind_want(kind: Option<ValueKind>) -> Want
    ensures { result ≡ kind_want kind }
{
    match kind {
        None => Want::Anything,
        Some(kind) => Want::OfKind(kind),
    }
}

fn put_wants(kinds: &Kinds, wants: &mut Vec<Want>, params: &Vec<ParamDecl>) -> Result<(), Memory>
    ensures { OnOk result (wants.new.items ≡ wants.old.items
        ++ param_wants (unit_view kinds.now.cores.unit.now) (param_decls_of (map param_decl_view params.now.items))) }
{
    for param in params {
        wants.push(kind_want(kinds.param_kind(&param.spec, &param.declr)))?;
    }
    Ok(())
}

fn params_wants(alloc: Global, kinds: &Kinds, params: &Params) -> Result<Vec<Want>, Memory>
    ensures { IfOk result (λ wants. wants.items ≡ params_wants (unit_view kinds.now.cores.unit.now)
        (params_view params.now)) }
{
    let mut wants = Vec::new(alloc);
    put_wants(kinds, &mut wants, &params.list)?;
    Ok(wants)
}

/// What a call of a function takes and gives.
pub(crate) fn function_signature(
    alloc: Global,
    kinds: &Kinds,
    function: &FunctionDef,
) -> Result<Signature, Memory>
    ensures { IfOk result (λ s. signature_view s ≡ function_signature (unit_view kinds.now.cores.unit.now)
        (definition_view function.now)) }
{
    let wants = params_wants(alloc, kinds, &function.params)?;
    Ok(Signature {
        name: function.name,
        wants,
        result_kind: kinds.type_kind(&function.result, function.stars.len()),
    })
}

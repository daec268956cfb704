// What a call of a function of the file takes and gives.
ghost use Rattle.std.specs.Prelude.{◌≡◌, ◌++◌, map, IfOk, OnOk};
ghost use Rattle.pungi_layout.specs.code.CallKinds.{held_kind, call_params, returned_kind};
ghost use Rattle.pungi_types.specs.Operators.{is_void};

use pungi_api::Param;
use pungi_base::{Memory, Seq};
use pungi_resolved::CalledFunction;
use pungi_types::ValueKind;
use std::alloc::Global;

/// What a variable of this kind holds. No variable is of the last kinds.
pub fn held_kind(kind: Option<ValueKind>) -> Param
    ensures { result ≡ held_kind kind }
{
    match kind {
        Some(ValueKind::Int) => Param::Int,
        Some(ValueKind::Long) => Param::Long,
        Some(ValueKind::Size) => Param::Size,
        Some(ValueKind::Text) => Param::TextOrNull,
        Some(ValueKind::Object(_)) => Param::ObjectOrNull,
        Some(ValueKind::Null) | Some(ValueKind::Void) | None => Param::ModuleDef,
    }
}

/// What parameters of these kinds hold.
pub fn add_params(kinds: &mut Seq<Param>, params: &[Option<ValueKind>]) -> Result<(), Memory>
    ensures { OnOk result (kinds.new ≡ kinds.old ++ map held_kind params.now) }
{
    for param in params {
        kinds.push(held_kind(*param))?;
    }
    Ok(())
}

/// What the parameters of a called function hold.
pub fn call_params(alloc: Global, f: &CalledFunction) -> Result<Seq<Param>, Memory>
    ensures { IfOk result (λ params. params ≡ call_params f.now) }
{
    let mut params = Seq::new(Vec::new(alloc));
    add_params(&mut params, f.params.as_slice())?;
    Ok(params)
}

/// A function with a result of this kind returns nothing.
pub fn is_void(kind: Option<ValueKind>) -> bool
    ensures { result ≡ is_void kind }
{
    match kind {
        Some(ValueKind::Void) => true,
        _ => false,
    }
}

/// What a function returns whose result is of this kind, if anything.
pub fn returned_kind(kind: Option<ValueKind>) -> Option<Param>
    ensures { result ≡ returned_kind kind }
{
    if is_void(kind) {
        None
    } else {
        Some(held_kind(kind))
    }
}

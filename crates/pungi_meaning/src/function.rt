// The functions of a file, and where each begins.
ghost use Rattle.std.specs.Prelude.{◌≡◌, ◌++◌, IfOk, OnOk, map, replicate, option_map};
ghost use Rattle.pungi_resolved.specs.ActionView.{action_view, function_view};
ghost use Rattle.pungi_types.specs.Operators.{is_void};
ghost use Rattle.pungi_world.specs.declared.content.Content.TheVariants.{Unset as UnsetContent, Holds as HoldsContent};
ghost use Rattle.pungi_meaning.specs.Frames.{numbered, param_locals};
ghost use Rattle.pungi_meaning.specs.Machine.{functions_of};
ghost use Rattle.pungi_meaning.specs.Run.{closing_brace};

use pungi_base::{Memory, Pos, Value};
use pungi_resolved::{Action, ActionNode, Function};
use pungi_types::ValueKind;
use pungi_world::Content;
use std::alloc::Global;

pub fn is_void(kind: Option<ValueKind>) -> bool
    ensures { result ≡ is_void kind }
{
    match kind {
        Some(ValueKind::Void) => true,
        _ => false,
    }
}

/// The closing brace of a function's body.
pub fn closing_brace(body: &Action) -> Pos
    ensures { result ≡ closing_brace (action_view body.now) }
{
    match &body.node {
        ActionNode::Block(_, brace) => *brace,
        _ => Pos { line: 0, col: 0 },
    }
}

/// The parameters hold the arguments.
pub fn argument_locals(alloc: Global, args: &[Value]) -> Result<Vec<Content>, Memory>
    ensures { IfOk result (λ locals. locals.items ≡ map HoldsContent args.now) }
{
    let mut locals = Vec::new(alloc);
    for arg in args {
        locals.push(Content::Holds(*arg))?;
    }
    Ok(locals)
}

/// So many more locals, which hold nothing.
#[tactic(auto, using(crate::proofs::ListLemmas::replicate_step))]
pub fn add_unset(locals: &mut Vec<Content>, count: usize) -> Result<(), Memory>
    ensures { OnOk result (locals.new.items ≡ locals.old.items ++ replicate count UnsetContent) }
{
    for i in 0..count {
        locals.push(Content::Unset)?;
    }
    Ok(())
}

/// The parameters hold the arguments, and the other locals hold nothing.
pub fn param_locals(alloc: Global, f: &Function, args: &[Value]) -> Result<Vec<Content>, Memory>
    ensures { IfOk result (λ locals. locals.items ≡ param_locals (function_view f.now) args.now) }
{
    let mut locals = argument_locals(alloc, args)?;
    add_unset(&mut locals, f.locals.saturating_sub(args.len()))?;
    Ok(locals)
}

/// The function of a number, where it is there and no rule holds in it.
pub fn numbered(functions: &[Option<Function>], number: usize) -> Option<&Function>
    ensures { option_map (λ f. function_view f.now) result ≡ numbered (functions_of functions.now) number }
{
    if number >= functions.len() {
        return None;
    }
    match &functions[number] {
        Some(f) => Some(f),
        None => None,
    }
}

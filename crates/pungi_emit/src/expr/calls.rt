// The instructions of calls.
ghost use Rattle.std.specs.Prelude.{◌≡◌, ◌+◌, ◌<◌, ◌≤◌, ◌^◌, ◌++◌, length, map, OnOk};
ghost use Rattle.pungi_code.specs.Limits.{most_instructions};
ghost use Rattle.pungi_resolved.specs.ValueView.{value_view, values_of};
ghost use Rattle.pungi_resolved.specs.Values.{called, called_row, called_unless_null, called_with_outputs};
ghost use Rattle.pungi_layout.specs.code.Sizes.{expr_size, values_size};
ghost use Rattle.pungi_layout.specs.code.Sound.{IsSound, AreSound, expr_nodes, values_nodes};
ghost use Rattle.pungi_layout.specs.code.ExprCode.{expr_code, args_code};

use crate::code::instructions::Around;
use crate::expr::call_instr::{emit_call, emit_row};
use crate::expr::call_kinds::call_params;
use crate::expr::expr_code::emit_value;
use crate::expr::outputs::{emit_unless_null, emit_with_outputs};
use crate::expr::temporary::{front_column, operand, tail};
use pungi_api::{BoxedSignature, Param};
use pungi_base::{Memory, Name, Pos, Seq};
use pungi_code::Line;
use pungi_resolved::{CalledFunction, OutputStep, Value as Node};

/// The arguments of a call, each in its variable.
#[cycle(emit)]
fn emit_args(
    code: &mut Seq<Line>,
    around: Around,
    depth: u16,
    params: &[Param],
    args: &[Node],
) -> Result<(), Memory>
    requires sound { AreSound around.locals (values_of (map value_view args.now)) }
    requires deep { depth + values_nodes (values_of (map value_view args.now)) < 2 ^ 16 }
    requires long { length code.old + values_size (values_of (map value_view args.now)) ≤ most_instructions }
    ensures { OnOk result (code.new ≡ code.old ++ args_code around.locals depth (length code.old) params.now
        (values_of (map value_view args.now))) }
{
    let mut level = depth;
    let mut left = params;
    for arg in args {
        let target = operand(around.locals, level, front_column(left), arg);
        emit_value(code, around, level, target, arg)?;
        level = level + 1;
        left = tail(left);
    }
    Ok(())
}

/// A call of a function of the file, after its arguments.
#[cycle(emit)]
pub fn emit_called(
    code: &mut Seq<Line>,
    around: Around,
    depth: u16,
    target: u32,
    pos: Pos,
    f: &CalledFunction,
    args: &[Node],
) -> Result<(), Memory>
    requires sound { IsSound around.locals (called pos f.now (values_of (map value_view args.now))) }
    requires deep { depth + expr_nodes (called pos f.now (values_of (map value_view args.now))) < 2 ^ 16 }
    requires long { length code.old + expr_size (called pos f.now (values_of (map value_view args.now)))
        ≤ most_instructions }
    ensures { OnOk result (code.new ≡ code.old ++ expr_code around.locals depth target (length code.old)
        (called pos f.now (values_of (map value_view args.now)))) }
{
    let params = call_params(around.alloc, f)?;
    emit_args(code, around, depth, params.as_slice(), args)?;
    emit_call(code, around, depth, target, pos, f, params.as_slice(), args)?;
    Ok(())
}

/// A call of the API, after its arguments.
#[cycle(emit)]
pub fn emit_called_row(
    code: &mut Seq<Line>,
    around: Around,
    depth: u16,
    target: u32,
    pos: Pos,
    name: Name,
    signature: &BoxedSignature,
    args: &[Node],
) -> Result<(), Memory>
    requires sound { IsSound around.locals (called_row pos name signature.now (values_of (map value_view args.now))) }
    requires deep { depth + expr_nodes (called_row pos name signature.now (values_of (map value_view args.now)))
        < 2 ^ 16 }
    requires long { length code.old + expr_size (called_row pos name signature.now
        (values_of (map value_view args.now))) ≤ most_instructions }
    ensures { OnOk result (code.new ≡ code.old ++ expr_code around.locals depth target (length code.old)
        (called_row pos name signature.now (values_of (map value_view args.now)))) }
{
    emit_args(code, around, depth, signature.get().params.as_slice(), args)?;
    emit_row(code, around, depth, target, pos, signature, args)?;
    Ok(())
}

/// A call of the API that returns `NULL` where an argument that is an object is `NULL`, after its arguments.
#[cycle(emit)]
pub fn emit_called_unless_null(
    code: &mut Seq<Line>,
    around: Around,
    depth: u16,
    target: u32,
    pos: Pos,
    name: Name,
    signature: &BoxedSignature,
    args: &[Node],
) -> Result<(), Memory>
    requires sound { IsSound around.locals (called_unless_null pos name signature.now
        (values_of (map value_view args.now))) }
    requires deep { depth + expr_nodes (called_unless_null pos name signature.now
        (values_of (map value_view args.now))) < 2 ^ 16 }
    requires long { length code.old + expr_size (called_unless_null pos name signature.now
        (values_of (map value_view args.now))) ≤ most_instructions }
    ensures { OnOk result (code.new ≡ code.old ++ expr_code around.locals depth target (length code.old)
        (called_unless_null pos name signature.now (values_of (map value_view args.now)))) }
{
    emit_args(code, around, depth, signature.get().params.as_slice(), args)?;
    emit_unless_null(code, around, depth, target, pos, signature, args)?;
    Ok(())
}

/// A call of the API that ends with a number, after its arguments, and the steps after it.
#[cycle(emit)]
pub fn emit_called_with_outputs(
    code: &mut Seq<Line>,
    around: Around,
    depth: u16,
    target: u32,
    pos: Pos,
    name: Name,
    signature: &BoxedSignature,
    args: &[Node],
    steps: &[OutputStep],
) -> Result<(), Memory>
    requires sound { IsSound around.locals (called_with_outputs pos name signature.now
        (values_of (map value_view args.now)) steps.now) }
    requires deep { depth + expr_nodes (called_with_outputs pos name signature.now
        (values_of (map value_view args.now)) steps.now) < 2 ^ 16 }
    requires long { length code.old + expr_size (called_with_outputs pos name signature.now
        (values_of (map value_view args.now)) steps.now) ≤ most_instructions }
    ensures { OnOk result (code.new ≡ code.old ++ expr_code around.locals depth target (length code.old)
        (called_with_outputs pos name signature.now (values_of (map value_view args.now)) steps.now)) }
{
    emit_args(code, around, depth, signature.get().params.as_slice(), args)?;
    emit_with_outputs(code, around, depth, target, pos, signature, args, steps)?;
    Ok(())
}

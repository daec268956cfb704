// What comes after the arguments of a call of the API that returns `NULL` where one of them is missing, and of one that
// writes variables.
ghost use Rattle.std.specs.Prelude.{◌≡◌, ◌+◌, ◌<◌, ◌≤◌, ◌^◌, ◌∷◌, [], ◌++◌, length, map, IfOk, OnOk};
ghost use Rattle.pungi_api.specs.Signatures.{null_signature};
ghost use Rattle.pungi_code.specs.Limits.{most_instructions};
ghost use Rattle.pungi_resolved.specs.ValueView.{value_view};
ghost use Rattle.pungi_layout.specs.code.Sizes.{missing_size, outputs_size};
ghost use Rattle.pungi_layout.specs.code.Sound.{AreWritten};
ghost use Rattle.pungi_layout.specs.code.Temporaries.{arg_var};
ghost use Rattle.pungi_layout.specs.code.ExprCode.{missing_code, unless_null_code, result_label, steps_code};
ghost use Rattle.pungi_layout.specs.code.ExprCode.{result_code, outputs_code};
ghost use Rattle.pungi_emit.specs.expr.Outputs.{front_missing, front_line, written_line, with_outputs_code};

use crate::code::instructions::{Around, next_place, put};
use crate::expr::call_instr::emit_row;
use crate::expr::case::emit_case;
use crate::expr::output_size::{after_missing, after_outputs};
use crate::expr::parts::bit;
use crate::expr::temporary::{atom, front_column, operand, tail, temp_in};
use pungi_api::{Answer, BoxedSignature, Param, output_signature};
use pungi_base::{Memory, Pos, Seq};
use pungi_code::{Atom, Instr, Label, Line, Var};
use pungi_resolved::{OutputStep, Value as Node};
use std::alloc::Global;

/// The branch on the argument of the first of these parameters: where it is `NULL`, it leads to the other call.
fn emit_front(
    code: &mut Seq<Line>,
    locals: u16,
    depth: u16,
    pos: Pos,
    other: u32,
    params: &[Param],
    arg: &Node,
) -> Result<(), Memory>
    requires { length code.old + front_missing params.now ≤ most_instructions }
    ensures { OnOk result (code.new ≡ code.old ++ front_line (arg_var locals depth params.now (value_view arg.now)) pos
        (length code.old) other params.now) }
{
    match params {
        [Param::ObjectOrNull, ..] => {
            let value = operand(locals, depth, front_column(params), arg);
            let next = next_place(code) + 1;
            put(
                code,
                pos,
                Instr::Branch(atom(value), Label(next), Label(other)),
            )
        }
        _ => Ok(()),
    }
}

/// The branches on the arguments that may be `NULL`.
fn emit_missing(
    code: &mut Seq<Line>,
    locals: u16,
    depth: u16,
    pos: Pos,
    other: u32,
    params: &[Param],
    args: &[Node],
) -> Result<(), Memory>
    requires few { depth + length args.now < 2 ^ 16 }
    requires long { length code.old + missing_size params.now (map value_view args.now) ≤ most_instructions }
    ensures { OnOk result (code.new ≡ code.old ++ missing_code locals depth pos (length code.old) other params.now
        (map value_view args.now)) }
{
    let mut left = params;
    for (i, arg) in args.iter().enumerate() {
        let level = depth + i as u16;
        emit_front(code, locals, level, pos, other, left, arg)?;
        left = tail(left);
    }
    Ok(())
}

/// The signature of the same call, where it returns `NULL`.
fn null_signature(alloc: Global, signature: &BoxedSignature) -> Result<BoxedSignature, Memory>
    ensures { IfOk result (λ g. g ≡ null_signature signature.now) }
{
    let null = signature.get().returning_null(alloc)?;
    BoxedSignature::new(alloc, null)
}

/// A call of the API that returns `NULL` where an argument that is an object is `NULL`.
pub fn emit_unless_null(
    code: &mut Seq<Line>,
    around: Around,
    depth: u16,
    target: u32,
    pos: Pos,
    signature: &BoxedSignature,
    args: &[Node],
) -> Result<(), Memory>
    requires few { depth + length args.now < 2 ^ 16 }
    requires long { length code.old + (missing_size signature.now.params (map value_view args.now) + 3)
        ≤ most_instructions }
    ensures { OnOk result (code.new ≡ code.old ++ unless_null_code around.locals depth target pos (length code.old)
        signature.now (map value_view args.now)) }
{
    let params = signature.get().params.as_slice();
    let here = next_place(code);
    let last = after_missing(here, params, args);
    emit_missing(code, around.locals, depth, pos, last + 2, params, args)?;
    emit_row(code, around, depth, target, pos, signature, args)?;
    put(code, pos, Instr::Jump(Label(last + 3)))?;
    let null = null_signature(around.alloc, signature)?;
    emit_row(code, around, depth, target, pos, &null, args)
}

/// A local gets such a value.
fn emit_written(
    code: &mut Seq<Line>,
    alloc: Global,
    pos: Pos,
    local: u32,
    answer: Answer,
) -> Result<(), Memory>
    ensures { OnOk result (code.new ≡ code.old ++ written_line pos local answer ∷ []) }
{
    let own = BoxedSignature::new(alloc, output_signature(alloc, answer))?;
    let atoms = Seq::new(Vec::new(alloc));
    put(code, pos, Instr::Api(Some(Var(local)), own, atoms))
}

/// Where a call ends that returns 1 or 0, whose results stand from `end` on.
fn result_label(gives: bool, end: u32) -> u32
    requires { end + 2 ≤ most_instructions }
    ensures { result ≡ result_label gives end }
{
    if gives { end } else { end + 2 }
}

/// A step after a call that has ended with the number in `value`.
fn emit_output(
    code: &mut Seq<Line>,
    around: Around,
    pos: Pos,
    value: u32,
    outcome: u32,
    end: u32,
    step: OutputStep,
) -> Result<(), Memory>
    requires sound { AreWritten around.locals (step ∷ []) }
    requires long { length code.old + outputs_size (step ∷ []) ≤ most_instructions }
    requires near { end + 2 ≤ most_instructions }
    ensures { OnOk result (code.new ≡ code.old ++ steps_code value outcome pos (length code.old) end (step ∷ [])) }
{
    match step {
        OutputStep::Ends(number, gives) => {
            let place = result_label(gives, end);
            emit_case(code, pos, value, outcome, Atom::Int(number), place)
        }
        OutputStep::Writes(local, answer) => {
            emit_written(code, around.alloc, pos, local as u32, answer)
        }
    }
}

/// The steps after a call that has ended with the number in `value`.
fn emit_steps(
    code: &mut Seq<Line>,
    around: Around,
    pos: Pos,
    value: u32,
    outcome: u32,
    end: u32,
    steps: &[OutputStep],
) -> Result<(), Memory>
    requires sound { AreWritten around.locals steps.now }
    requires long { length code.old + outputs_size steps.now ≤ most_instructions }
    requires near { end + 2 ≤ most_instructions }
    ensures { OnOk result (code.new ≡ code.old ++ steps_code value outcome pos (length code.old) end steps.now) }
{
    for step in steps {
        emit_output(code, around, pos, value, outcome, end, *step)?;
    }
    Ok(())
}

/// The two results.
fn emit_results(code: &mut Seq<Line>, target: u32, pos: Pos) -> Result<(), Memory>
    requires { length code.old + 3 ≤ most_instructions }
    ensures { OnOk result (code.new ≡ code.old ++ result_code target pos (length code.old)) }
{
    let end = next_place(code) + 3;
    put(code, pos, Instr::Set(Var(target), bit(true)))?;
    put(code, pos, Instr::Jump(Label(end)))?;
    put(code, pos, Instr::Set(Var(target), bit(false)))
}

/// What comes after a call that has ended with a number.
fn emit_outputs(
    code: &mut Seq<Line>,
    around: Around,
    depth: u16,
    target: u32,
    pos: Pos,
    steps: &[OutputStep],
) -> Result<(), Memory>
    requires sound { AreWritten around.locals steps.now }
    requires deep { depth + 1 < 2 ^ 16 }
    requires long { length code.old + (outputs_size steps.now + 3) ≤ most_instructions }
    ensures { OnOk result (code.new ≡ code.old ++ outputs_code around.locals depth target pos (length code.old)
        steps.now) }
{
    let value = temp_in(around.locals, depth, 0);
    let outcome = temp_in(around.locals, depth + 1, 0);
    let here = next_place(code);
    let end = after_outputs(here, steps);
    emit_steps(code, around, pos, value, outcome, end, steps)?;
    emit_results(code, target, pos)
}

/// A call of the API that ends with a number, and what comes after it.
pub fn emit_with_outputs(
    code: &mut Seq<Line>,
    around: Around,
    depth: u16,
    target: u32,
    pos: Pos,
    signature: &BoxedSignature,
    args: &[Node],
    steps: &[OutputStep],
) -> Result<(), Memory>
    requires sound { AreWritten around.locals steps.now }
    requires few { depth + length args.now + 1 < 2 ^ 16 }
    requires long { length code.old + (1 + (outputs_size steps.now + 3)) ≤ most_instructions }
    ensures { OnOk result (code.new ≡ code.old ++ with_outputs_code around.locals depth target pos (length code.old)
        signature.now (map value_view args.now) steps.now) }
{
    let number = temp_in(around.locals, depth, 0);
    emit_row(code, around, depth, number, pos, signature, args)?;
    emit_outputs(code, around, depth, target, pos, steps)
}

// The instruction of a call, once its arguments stand in their variables.
ghost use Rattle.std.specs.Prelude.{◌≡◌, ◌+◌, ◌<◌, ◌^◌, ◌++◌, length, map, IfOk, OnOk};
ghost use Rattle.pungi_resolved.specs.ValueView.{value_view};
ghost use Rattle.pungi_layout.specs.code.CallKinds.{call_params};
ghost use Rattle.pungi_layout.specs.code.ExprCode.{row_code, call_code, var as var_atom};
ghost use Rattle.pungi_layout.specs.code.Temporaries.{arg_vars};

use crate::code::instructions::{Around, put};
use crate::expr::call_kinds::is_void;
use crate::expr::parts::has_call_value;
use crate::expr::temporary::{atom, front_column, operand, tail};
use pungi_api::{BoxedSignature, Param};
use pungi_base::{Memory, Pos, Seq};
use pungi_code::{Atom, Instr, Line, Var};
use pungi_resolved::{CalledFunction, Value as Node};
use std::alloc::Global;

/// The variables of the arguments of a call, in order.
#[tactic(auto, using(crate::proofs::expr::Arguments::args_step))]
fn arg_atoms(
    alloc: Global,
    locals: u16,
    depth: u16,
    params: &[Param],
    args: &[Node],
) -> Result<Vec<Atom>, Memory>
    requires { depth + length args.now < 2 ^ 16 }
    ensures { IfOk result (λ atoms. atoms.items ≡ map var_atom (arg_vars locals depth params.now
        (map value_view args.now))) }
{
    let mut atoms = Vec::new(alloc);
    let mut left = params;
    for (i, arg) in args.iter().enumerate() {
        let level = depth + i as u16;
        atoms.push(atom(operand(locals, level, front_column(left), arg)))?;
        left = tail(left);
    }
    Ok(atoms)
}

/// A call of the API.
pub fn emit_row(
    code: &mut Seq<Line>,
    around: Around,
    depth: u16,
    target: u32,
    pos: Pos,
    signature: &BoxedSignature,
    args: &[Node],
) -> Result<(), Memory>
    requires { depth + length args.now < 2 ^ 16 }
    ensures { OnOk result (code.new ≡ code.old ++ row_code around.locals depth target pos signature.now
        (map value_view args.now)) }
{
    let alloc = around.alloc;
    let answer = if has_call_value(signature.get().answer) {
        Some(Var(target))
    } else {
        None
    };
    let params = signature.get().params.as_slice();
    let atoms = arg_atoms(alloc, around.locals, depth, params, args)?;
    let own = signature.copy(alloc)?;
    put(code, pos, Instr::Api(answer, own, Seq::new(atoms)))
}

/// A call of a function of the file with these parameters.
pub fn emit_call(
    code: &mut Seq<Line>,
    around: Around,
    depth: u16,
    target: u32,
    pos: Pos,
    f: &CalledFunction,
    params: &[Param],
    args: &[Node],
) -> Result<(), Memory>
    requires few { depth + length args.now < 2 ^ 16 }
    requires params { params.now ≡ call_params f.now }
    ensures { OnOk result (code.new ≡ code.old ++ call_code around.locals depth target pos f.now
        (map value_view args.now)) }
{
    let answer = if is_void(f.result) {
        None
    } else {
        Some(Var(target))
    };
    let atoms = arg_atoms(around.alloc, around.locals, depth, params, args)?;
    put(code, pos, Instr::Call(answer, f.number, Seq::new(atoms)))
}

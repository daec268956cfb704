// Calls of the API.
ghost use Rattle.std.specs.Prelude.{◌≡◌, ◌<◌, ◌^◌, IfOk};
ghost use Rattle.pungi_code.specs.Machine.{regs_of, Does};
ghost use Rattle.pungi_code.specs.Perform.{call};
ghost use Rattle.pungi_code.specs.Registers.{all_values, with_values};

use crate::registers::{After, Registers, answer};
use crate::values::values_of;
use crate::{Atom, Var};
use pungi_api::Signature;
use pungi_base::{Choice, Memory, Pos, Value};
use pungi_meaning::{note_used, unused};
use pungi_world::{ApiCall, Halt};
use std::alloc::Global;

/// A call of the API with these values.
fn call(
    m: &mut Registers,
    alloc: Global,
    choices: &[Choice],
    x: Option<Var>,
    signature: &Signature,
    pos: Pos,
    pc: usize,
    args: &[Value],
) -> Result<After, Memory>
    requires { pc < 2 ^ 63 }
    ensures { IfOk result (λ after. Does (λ next. call choices.now x signature.now pos next pc (regs_of m.old)
        args.now) after m.new) }
{
    let rest = unused(choices, m.used.len());
    let api = ApiCall { signature, args };
    match m.world.apply(alloc, &api, rest) {
        Ok(effect) => {
            note_used(&mut m.used, pos, effect.used)?;
            answer(m, x, effect.value);
            Ok(After::Goes(pc + 1))
        }
        Err(Halt::Stopped) => Ok(After::Stops(pos)),
        Err(Halt::NeedsChoice) => Ok(After::Wants),
        Err(Halt::Memory) => Err(Memory),
    }
}

/// A call of the API.
pub fn call_api(
    m: &mut Registers,
    alloc: Global,
    choices: &[Choice],
    x: Option<Var>,
    signature: &Signature,
    args: &[Atom],
    pos: Pos,
    pc: usize,
) -> Result<After, Memory>
    requires { pc < 2 ^ 63 }
    ensures { IfOk result (λ after. Does (λ next. with_values (all_values args.now (regs_of m.old).vars) pos
        (call choices.now x signature.now pos next pc (regs_of m.old))) after m.new) }
{
    match values_of(alloc, args, &m.vars)? {
        Some(values) => call(m, alloc, choices, x, signature, pos, pc, &values),
        None => Ok(After::Stops(pos)),
    }
}

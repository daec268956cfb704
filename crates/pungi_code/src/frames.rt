// Calls of functions of the file, and the codes that wait for them.
ghost use Rattle.std.specs.Prelude.{◌≡◌, [], ◌∷◌, ◌<◌, ◌^◌, ℕ, IfOk, OnOk, Some, option_map};
ghost use Rattle.pungi_code.specs.Frames.{code_numbered, param_vars, enter, resume, leave};
ghost use Rattle.pungi_code.specs.Machine.{regs_of, frame_of, frames_of, DoesIn};
ghost use Rattle.pungi_code.specs.Registers.{all_values, content_of, with_value, with_values};
ghost use Rattle.pungi_code.specs.Run.{calling};

use crate::registers::{After, Registers, set};
use crate::values::{content_of, values_of};
use crate::{Atom, Code, Line, Var};
use pungi_base::{Memory, Pos, Value};
use pungi_meaning::{add_unset, argument_locals};
use pungi_world::Content;
use std::alloc::Global;
use std::mem;

/// A code that waits for one that it called.
#[derive(Drop)]
pub struct Waiting<'a> {
    /// The place of the call in the text.
    pub call: Pos,
    pub instrs: &'a [Line],
    /// Where it goes on.
    pub place: usize,
    pub vars: Vec<Content>,
    /// What gets the result of the call.
    pub into: Option<Var>,
}

/// The code that runs, and those that wait for it, the newest last.
#[derive(Drop)]
pub struct CallStack<'a> {
    pub instrs: &'a [Line],
    pub waiting: Vec<Waiting<'a>>,
}

/// The code of a function by its number, if it has one.
pub fn code_numbered(codes: &[Option<Code>], f: usize) -> Option<&Code>
    ensures { option_map (λ c. c.now) result ≡ code_numbered codes.now f }
{
    if f < codes.len() {
        codes[f].as_ref()
    } else {
        None
    }
}

/// The parameters hold the arguments, and the other variables hold nothing.
pub fn param_vars(alloc: Global, code: &Code, args: &[Value]) -> Result<Vec<Content>, Memory>
    ensures { IfOk result (λ vars. vars.items ≡ param_vars code.now args.now) }
{
    let mut vars = argument_locals(alloc, args)?;
    let unset = code.vars.len().saturating_sub(args.len());
    add_unset(&mut vars, unset)?;
    Ok(vars)
}

/// The code that runs waits for another, which has these variables.
fn wait<'a>(
    m: &mut Registers,
    stack: &mut CallStack<'a>,
    code: &'a Code,
    vars: Vec<Content>,
    call: Pos,
    pc: usize,
    into: Option<Var>,
) -> Result<(), Memory>
    requires { pc < 2 ^ 63 }
    ensures frames { OnOk result (frames_of stack.new.waiting.items
        ≡ calling call stack.old.instrs.now pc into (regs_of m.old) ∷ frames_of stack.old.waiting.items) }
    ensures instrs { OnOk result (stack.new.instrs.now ≡ code.now.instrs) }
    ensures regs { OnOk result (regs_of m.new ≡ record (regs_of m.old) { vars = vars.items }) }
{
    let vars = mem::replace(&mut m.vars, vars);
    stack.waiting.push(Waiting {
        call,
        instrs: stack.instrs,
        place: pc + 1,
        vars,
        into,
    })?;
    stack.instrs = code.instrs.as_slice();
    Ok(())
}

/// A code is called with these values.
fn enter<'a>(
    m: &mut Registers,
    stack: &mut CallStack<'a>,
    alloc: Global,
    code: &'a Code,
    values: &[Value],
    call: Pos,
    pc: usize,
    into: Option<Var>,
) -> Result<After, Memory>
    requires { pc < 2 ^ 63 }
    ensures { IfOk result (λ after. (number : ℕ) → DoesIn (λ go. enter go (frames_of stack.old.waiting.items)
        (calling call stack.old.instrs.now pc into (regs_of m.old)) number values.now (regs_of m.old)
        (Some code.now)) after stack.new m.new) }
{
    if values.len() != code.params as usize {
        return Ok(After::Stops(call));
    }
    let vars = param_vars(alloc, code, values)?;
    wait(m, stack, code, vars, call, pc, into)?;
    Ok(After::Goes(0))
}

/// A call of a function of the file. One without a code, and one that takes another number of arguments, stops.
pub fn perform_call<'a>(
    m: &mut Registers,
    stack: &mut CallStack<'a>,
    alloc: Global,
    codes: &'a [Option<Code>],
    into: Option<Var>,
    f: usize,
    args: &[Atom],
    pos: Pos,
    pc: usize,
) -> Result<After, Memory>
    requires { pc < 2 ^ 63 }
    ensures { IfOk result (λ after. DoesIn (λ go. with_values (all_values args.now (regs_of m.old).vars) pos
        (λ vs. enter go (frames_of stack.old.waiting.items) (calling pos stack.old.instrs.now pc into (regs_of m.old)) f
        vs (regs_of m.old) (code_numbered codes.now f))) after stack.new m.new) }
{
    let Some(values) = values_of(alloc, args, &m.vars)? else {
        return Ok(After::Stops(pos));
    };
    match code_numbered(codes, f) {
        Some(code) => enter(m, stack, alloc, code, &values, pos, pc, into),
        None => Ok(After::Stops(pos)),
    }
}

/// A code that waited goes on, and a variable of it gets the result where that is wanted.
fn resume<'a>(
    m: &mut Registers,
    stack: &mut CallStack<'a>,
    waiting: Waiting<'a>,
    value: Option<Value>,
) -> After
    ensures { DoesIn (λ go. resume go (frames_of stack.old.waiting.items) (frame_of waiting.entry) m.old.world
        m.old.used.items waiting.entry.into value) result stack.new m.new }
{
    let Waiting {
        call,
        instrs,
        place,
        vars,
        into,
    } = waiting;
    m.vars = vars;
    stack.instrs = instrs;
    let Some(into) = into else {
        return After::Goes(place);
    };
    match value {
        Some(value) => {
            set(m, into, Content::Holds(value));
            After::Goes(place)
        }
        None => After::Stops(call),
    }
}

/// The newest code that waits goes on. Where none waits the run ends.
pub fn leave(m: &mut Registers, stack: &mut CallStack, pos: Pos, value: Option<Value>) -> After
    ensures { DoesIn (λ go. leave go (frames_of stack.old.waiting.items) m.old.world value pos m.old.used.items) result
        stack.new m.new }
{
    match stack.waiting.pop() {
        Some(waiting) => resume(m, stack, waiting, value),
        None => After::Leaves(pos, value),
    }
}

/// A return with a value.
pub fn return_value(m: &mut Registers, stack: &mut CallStack, value: Atom, pos: Pos) -> After
    ensures { DoesIn (λ go. with_value (content_of value (regs_of m.old).vars) pos (λ x. leave go
        (frames_of stack.old.waiting.items) m.old.world (Some x) pos m.old.used.items)) result stack.new m.new }
{
    match content_of(value, &m.vars) {
        Content::Holds(value) => leave(m, stack, pos, Some(value)),
        Content::Unset => After::Stops(pos),
    }
}

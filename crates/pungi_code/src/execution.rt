// The run of a code.
ghost use Rattle.std.specs.Prelude.{◌≡◌, ◌<◌, ◌^◌, [], IfOk, MatchOption, None, Some, length, slice_get};
ghost use Rattle.pungi_meaning.specs.Outcomes.{end_of, IsCounted};
ghost use Rattle.pungi_code.specs.Machine.{regs_of, frames_of, next_place, end_at, DoesIn};
ghost use Rattle.pungi_code.specs.Run.{start, code_at, among, perform_in, execute, run_of_code};

use crate::frames::{CallStack, code_numbered, leave, param_vars, perform_call, return_value};
use crate::perform::perform;
use crate::registers::{After, Registers};
use crate::{Code, Codes, Instr, Line};
use pungi_base::{Choice, Entry, Memory, Pos};
use pungi_meaning::{CountedWorld, Outcome};
use std::alloc::Global;

/// The instruction at this place, if there is one.
fn line_at(instrs: &[Line], pc: usize) -> Option<&Line>
    ensures { MatchOption result (slice_get instrs.now pc ≡ None) (λ l. (slice_get instrs.now pc ≡ Some l.now)
        × (pc < length instrs.now)) }
{
    if pc < instrs.len() {
        Some(&instrs[pc])
    } else {
        None
    }
}

/// The run of a code before its first instruction.
fn begin(alloc: Global, code: &Code, entry: &Entry) -> Result<Registers, Memory>
    ensures { IfOk result (λ m. regs_of m ≡ start code.now entry.now) }
{
    let vars = param_vars(alloc, code, entry.args.as_slice())?;
    let world = CountedWorld::start(alloc, entry)?;
    Ok(Registers {
        world,
        used: Vec::new(alloc),
        vars,
    })
}

/// The place of the next instruction, where the run goes on.
fn next_place(after: After) -> Option<usize>
    ensures { result ≡ next_place after }
{
    match after {
        After::Goes(next) => Some(next),
        _ => None,
    }
}

/// One instruction among the codes of a file, which stands at this place.
fn perform_in<'a>(
    m: &mut Registers,
    stack: &mut CallStack<'a>,
    alloc: Global,
    codes: &'a [Option<Code>],
    choices: &[Choice],
    line: &Line,
    pc: usize,
) -> Result<After, Memory>
    requires { pc < 2 ^ 63 }
    ensures { IfOk result (λ after. DoesIn (λ go. perform_in (among codes.now choices.now
        (frames_of stack.old.waiting.items)) go stack.old.instrs.now line.now.instr line.now.pos pc (regs_of m.old))
        after stack.new m.new) }
{
    match &line.instr {
        Instr::Call(x, f, args) => {
            let args = args.as_slice();
            perform_call(m, stack, alloc, codes, *x, *f, args, line.pos, pc)
        }
        Instr::Return(None) => Ok(leave(m, stack, line.pos, None)),
        Instr::Return(Some(value)) => Ok(return_value(m, stack, *value, line.pos)),
        _ => perform(m, alloc, choices, line, pc),
    }
}

/// Does at most `fuel` instructions, from the first on. Where the last of them led.
fn go<'a>(
    m: &mut Registers,
    stack: &mut CallStack<'a>,
    alloc: Global,
    codes: &'a [Option<Code>],
    choices: &[Choice],
    fuel: u32,
) -> Result<After, Memory>
    ensures { IfOk result (λ after. end_at after m.new ≡ (execute codes.now choices.now fuel
        (frames_of stack.old.waiting.items) stack.old.instrs.now 0 (regs_of m.old)).end) }
{
    let mut pc = 0;
    for i in 0..fuel {
        let Some(line) = line_at(stack.instrs, pc) else {
            return Ok(After::Stops(Pos { line: 0, col: 0 }));
        };
        let after = perform_in(m, stack, alloc, codes, choices, line, pc)?;
        match next_place(after) {
            Some(next) => pc = next,
            None => return Ok(after),
        }
    }
    Ok(After::Goes(pc))
}

/// The outcome of a run that leads nowhere any more.
fn end_at(m: Registers, after: After) -> Outcome
    ensures end { end_of result ≡ end_at after m }
    ensures counted { IsCounted result }
{
    match after {
        After::Leaves(pos, value) => Outcome::Returned {
            world: m.world.into_world(),
            value,
            pos,
            used: m.used,
        },
        After::Stops(pos) => Outcome::Stopped(pos),
        After::Wants => Outcome::NeedsChoice,
        After::Goes(_) => Outcome::OutOfFuel,
    }
}

/// Runs a code among the codes of its file.
fn run_code(
    alloc: Global,
    codes: &[Option<Code>],
    code: &Code,
    entry: &Entry,
    choices: &[Choice],
    fuel: u32,
) -> Result<Outcome, Memory>
    ensures end { IfOk result (λ outcome. end_of outcome
        ≡ (execute codes.now choices.now fuel [] code.now.instrs 0 (start code.now entry.now)).end) }
    ensures counted { IfOk result (λ outcome. IsCounted outcome) }
{
    let mut m = begin(alloc, code, entry)?;
    let mut stack = CallStack {
        instrs: code.instrs.as_slice(),
        waiting: Vec::new(alloc),
    };
    let after = go(&mut m, &mut stack, alloc, codes, choices, fuel)?;
    Ok(end_at(m, after))
}

/// Runs the code of a function from an entry, for at most `fuel` instructions, with these choices. A call of a function
/// of the file runs its code. The world that it returns can be counted.
pub fn code_run(
    alloc: Global,
    codes: &Codes,
    f: usize,
    entry: &Entry,
    choices: &[Choice],
    fuel: u32,
) -> Result<Outcome, Memory>
    ensures end { IfOk result (λ outcome. end_of outcome
        ≡ (run_of_code codes.now.codes (code_at codes.now f) entry.now choices.now fuel).end) }
    ensures counted { IfOk result (λ outcome. IsCounted outcome) }
{
    let list = codes.codes.as_slice();
    match code_numbered(list, f) {
        Some(code) => run_code(alloc, list, code, entry, choices, fuel),
        None => Ok(Outcome::Stopped(Pos { line: 0, col: 0 })),
    }
}

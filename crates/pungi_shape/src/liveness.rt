ghost use Rattle.std.specs.Prelude.{◌≡◌, ◌<◌, ◌≤◌, ◌-◌, false, length, replicate, IfOk};
ghost use Rattle.std.specs.List.{list_any};
ghost use Rattle.std.specs.Option.{option_to_list};
ghost use Rattle.pungi_shape.specs.Bounds.{IsCodeOfFile};
ghost use Rattle.pungi_shape.specs.Liveness.{instr_at, is_holder, passes};
ghost use Rattle.pungi_shape.specs.Live.{HasRows, IsLiveness, IsSwept, IsSweptAt, in_rows};

use crate::Point;
use crate::parts::{following, is_read, is_written};
use pungi_base::{Memory, Seq};
use pungi_code::Code;
use std::alloc::Global;

/// Which temporaries are read before they are written.
#[derive(Drop)]
pub struct Liveness {
    /// For each instruction and each temporary, from the first one on, whether some path from the instruction on reads
    /// it before it writes it.
    pub rows: Seq<Seq<bool>>,
}

fn no_rows(alloc: Global, rows: usize, columns: usize) -> Result<Vec<Seq<bool>>, Memory>
    ensures { IfOk result (λ out. out.items ≡ replicate rows (replicate columns false)) }
{
    let mut out = Vec::new(alloc);
    for _ in 0..rows {
        out.push(Seq::new(vec![in alloc; false; columns]?))?;
    }
    Ok(out)
}

/// Whether a temporary is live before an instruction, as far as it is known.
fn is_in_row(rows: &[Seq<bool>], pc: u32, j: usize) -> bool
    ensures { result ≡ in_rows rows.now pc j }
{
    if (pc as usize) < rows.len() {
        let row = rows[pc as usize].as_slice();
        j < row.len() && row[j]
    } else {
        false
    }
}

fn is_in_next(rows: &[Seq<bool>], next: Option<u32>, j: usize) -> bool
    ensures { result ≡ list_any (λ q. in_rows rows.now q j) (option_to_list next) }
{
    match next {
        None => false,
        Some(q) => is_in_row(rows, q, j),
    }
}

/// Whether a temporary is read before it is written from a part of an instruction on, or is live after it.
fn passes(code: &Code, rows: &[Seq<bool>], pc: u32, part: u32, x: u32) -> bool
    requires well_formed { IsCodeOfFile code.now }
    requires there { pc < length code.now.instrs }
    requires temporary { code.now.locals ≤ x }
    ensures { result ≡ passes (λ q. in_rows rows.now q (x - code.now.locals)) x pc (instr_at code.now pc) part }
{
    let instr = &code.instrs.as_slice()[pc as usize].instr;
    if is_read(instr, part, x) {
        return true;
    }
    if is_written(instr, part, x) {
        return false;
    }
    let j = (x - code.locals) as usize;
    let (first, second) = following(pc, instr);
    is_in_next(rows, first, j) || is_in_next(rows, second, j)
}

/// Looks once at all temporaries before an instruction. Returns whether one more is live.
fn sweep_at(code: &Code, rows: &mut Vec<Seq<bool>>, pc: u32) -> bool
    requires well_formed { IsCodeOfFile code.now }
    requires there { pc < length code.now.instrs }
    requires rows { HasRows code.now rows.old.items }
    ensures rows { HasRows code.now rows.new.items }
    ensures swept { IsSweptAt code.now pc rows.old.items rows.new.items result }
{
    let mut grows = false;
    let count = rows[pc as usize].len();
    for j in 0..count {
        let x = code.locals + j as u32;
        if !is_in_row(rows.as_slice(), pc, j) && passes(code, rows.as_slice(), pc, 0, x) {
            rows[pc as usize].set(j, true);
            grows = true;
        }
    }
    grows
}

/// Looks once at all instructions, from the last to the first. Returns whether a temporary more is live somewhere.
fn sweep(code: &Code, rows: &mut Vec<Seq<bool>>) -> bool
    requires well_formed { IsCodeOfFile code.now }
    requires rows { HasRows code.now rows.old.items }
    ensures rows { HasRows code.now rows.new.items }
    ensures swept { IsSwept code.now rows.old.items rows.new.items result }
{
    let mut grows = false;
    let mut pc = code.instrs.len();
    while pc > 0 {
        pc -= 1;
        if sweep_at(code, rows, pc as u32) {
            grows = true;
        }
    }
    grows
}

impl Liveness {
    /// The liveness of the temporaries of a code (Aho, Lam, Sethi and Ullman 2006, 9.2.5).
    pub(crate) fn of(alloc: Global, code: &Code) -> Result<Liveness, Memory>
        requires { IsCodeOfFile code.now }
        ensures { IfOk result (λ live. IsLiveness code.now live) }
    {
        let columns = code.vars.len() - code.locals as usize;
        let mut rows = no_rows(alloc, code.instrs.len(), columns)?;
        for _ in 0..code.instrs.len() {
            if !sweep(code, &mut rows) {
                break;
            }
        }
        Ok(Liveness {
            rows: Seq::new(rows),
        })
    }

    /// Whether a variable is a holder at a point: a local, or a temporary that is live.
    pub(crate) fn is_holder(&self, code: &Code, p: Point, x: u32) -> bool
        requires well_formed { IsCodeOfFile code.now }
        requires live { IsLiveness code.now self.now }
        requires there { x < length code.now.vars }
        ensures { result ≡ is_holder code.now p x }
    {
        if x < code.locals {
            return true;
        }
        if p.done == 0 {
            let j = (x - code.locals) as usize;
            return is_in_row(self.rows.as_slice(), p.instr, j);
        }
        if (p.instr as usize) < code.instrs.len() {
            passes(code, self.rows.as_slice(), p.instr, p.done, x)
        } else {
            false
        }
    }
}

// Which functions call a function.
ghost use Rattle.std.specs.Prelude.{◌≡◌, ℕ, ◌<◌, [], true, length, replicate, IfOk, OnOk};
ghost use Rattle.std.specs.List.{IsAmong, flat_map};
ghost use Rattle.pungi_code.specs.WellFormed.{AreWellFormed};
ghost use Rattle.pungi_links.specs.Ring.{Stands};
ghost use Rattle.pungi_shape.specs.Callers.{AreCallers, AreNoted};
ghost use Rattle.pungi_shape.specs.Named.{callees_in, callees_of};

use pungi_base::{Memory, Seq};
use pungi_code::{Codes, Instr, Line};
use std::alloc::Global;

/// Lists of no functions.
fn no_callers(alloc: Global, count: usize) -> Result<Vec<Seq<u32>>, Memory>
    ensures { IfOk result (λ lists. lists.items ≡ replicate count []) }
{
    let mut lists = Vec::new(alloc);
    for _ in 0..count {
        lists.push(Seq::new(Vec::new(alloc)))?;
    }
    Ok(lists)
}

/// Whether the last number of a list is this one.
fn is_last(list: &[u32], f: u32) -> bool
    ensures { result ≡ true → Stands f list.now }
{
    match list.last() {
        Some(last) => *last == f,
        None => false,
    }
}

/// Puts a function among the callers of the one that a line calls, if it calls one and it isn't there.
fn note_line(lists: &mut Vec<Seq<u32>>, f: u32, line: &Line) -> Result<(), Memory>
    requires { (g : ℕ) → IsAmong (callees_in line.now) g → g < length lists.old.items }
    ensures { OnOk result (AreNoted f (callees_in line.now) lists.old.items lists.new.items) }
{
    if let Instr::Call(_, g, _) = &line.instr {
        if !is_last(lists[*g].as_slice(), f) {
            lists[*g].push(f)?;
        }
    }
    Ok(())
}

/// Puts a function among the callers of those that its lines call.
fn note_lines(lists: &mut Vec<Seq<u32>>, f: u32, lines: &[Line]) -> Result<(), Memory>
    requires { (g : ℕ) → IsAmong (flat_map callees_in lines.now) g → g < length lists.old.items }
    ensures { OnOk result (AreNoted f (flat_map callees_in lines.now) lists.old.items lists.new.items) }
{
    for line in lines {
        note_line(lists, f, line)?;
    }
    Ok(())
}

/// Puts a function among the callers of those that it calls.
fn note_code(lists: &mut Vec<Seq<u32>>, codes: &Codes, f: u32) -> Result<(), Memory>
    requires well_formed { AreWellFormed codes.now }
    requires there { f < length codes.now.codes }
    requires count { length lists.old.items ≡ length codes.now.codes }
    ensures { OnOk result (AreNoted f (callees_of codes.now f) lists.old.items lists.new.items) }
{
    match &codes.codes.as_slice()[f as usize] {
        Some(code) => note_lines(lists, f, code.instrs.as_slice()),
        None => Ok(()),
    }
}

/// For each function of a file those that call it.
pub(crate) fn callers(alloc: Global, codes: &Codes) -> Result<Vec<Seq<u32>>, Memory>
    requires { AreWellFormed codes.now }
    ensures { IfOk result (λ lists. AreCallers codes.now lists.items) }
{
    let mut lists = no_callers(alloc, codes.codes.len())?;
    for f in 0..codes.codes.len() {
        note_code(&mut lists, codes, f as u32)?;
    }
    Ok(lists)
}

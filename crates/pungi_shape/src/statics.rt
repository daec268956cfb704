// The static objects that a function names, or one that it reaches by calls.
ghost use Rattle.std.specs.Prelude.{◌≡◌, ℕ, ◌<◌, ◌^◌, ◌∷◌, [], length, IfOk, OnOk};
ghost use Rattle.std.specs.List.{All, IsAmong, flat_map};
ghost use Rattle.pungi_code.specs.WellFormed.{AreWellFormed};
ghost use Rattle.pungi_shape.specs.Named.{callees_in, put_numbers, statics_from, statics_of};
ghost use Rattle.pungi_shape.specs.Reaching.{AreFrom, IsAdded};

use crate::named::put_lines;
use pungi_base::{Memory, Seq};
use pungi_code::{Codes, Instr, Line};
use std::alloc::Global;

/// Adds a function to a list, unless it was added before.
fn add(g: usize, marks: &mut Vec<bool>, list: &mut Vec<u32>) -> Result<(), Memory>
    requires there { g < length marks.old.items }
    requires few { length marks.old.items < 2 ^ 32 }
    ensures { OnOk result (IsAdded (g ∷ []) marks.old.items marks.new.items list.old.items list.new.items) }
{
    if !marks[g] {
        list.push(g as u32)?;
        marks[g] = true;
    }
    Ok(())
}

/// Adds the function that a line calls, if it calls one.
fn add_callee(line: &Line, marks: &mut Vec<bool>, list: &mut Vec<u32>) -> Result<(), Memory>
    requires there { (g : ℕ) → IsAmong (callees_in line.now) g → g < length marks.old.items }
    requires few { length marks.old.items < 2 ^ 32 }
    ensures { OnOk result
        (IsAdded (callees_in line.now) marks.old.items marks.new.items list.old.items list.new.items) }
{
    match &line.instr {
        Instr::Call(_, g, _) => add(*g, marks, list),
        _ => Ok(()),
    }
}

/// Adds the functions that lines call.
fn add_callees(lines: &[Line], marks: &mut Vec<bool>, list: &mut Vec<u32>) -> Result<(), Memory>
    requires there { (g : ℕ) → IsAmong (flat_map callees_in lines.now) g → g < length marks.old.items }
    requires few { length marks.old.items < 2 ^ 32 }
    ensures { OnOk result
        (IsAdded (flat_map callees_in lines.now) marks.old.items marks.new.items list.old.items list.new.items) }
{
    for line in lines {
        add_callee(line, marks, list)?;
    }
    Ok(())
}

/// A function and those that it reaches by calls, each once.
fn functions_from(alloc: Global, codes: &Codes, f: u32) -> Result<Vec<u32>, Memory>
    requires well_formed { AreWellFormed codes.now }
    requires there { f < length codes.now.codes }
    ensures from { IfOk result (λ list. AreFrom codes.now f list.items) }
    ensures within { IfOk result (λ list. All (λ g. g < length codes.now.codes) list.items) }
{
    let count = codes.codes.len();
    let mut marks = vec![in alloc; false; count]?;
    let mut list = Vec::new(alloc);
    add(f as usize, &mut marks, &mut list)?;
    'reaching: for i in 0..count {
        if i == list.len() {
            return Ok(list);
        }
        if let Some(code) = &codes.codes.as_slice()[list[i] as usize] {
            add_callees(code.instrs.as_slice(), &mut marks, &mut list)?;
        }
    }
    Ok(list)
}

/// Puts the static objects that a function names into a list in order.
fn put_code(ns: &mut Vec<u32>, codes: &Codes, g: u32) -> Result<(), Memory>
    requires { g < length codes.now.codes }
    ensures { OnOk result (ns.new.items ≡ put_numbers (statics_from codes.now g) ns.old.items) }
{
    match &codes.codes.as_slice()[g as usize] {
        Some(code) => put_lines(ns, code.instrs.as_slice()),
        None => Ok(()),
    }
}

/// Puts the static objects that functions name. From the last to the first.
#[tactic(auto, using(crate::proofs::NamedLemmas::put_numbers_append))]
fn put_codes(ns: &mut Vec<u32>, codes: &Codes, functions: &[u32]) -> Result<(), Memory>
    requires { All (λ g. g < length codes.now.codes) functions.now }
    ensures { OnOk result (ns.new.items ≡ put_numbers (flat_map (statics_from codes.now) functions.now) ns.old.items) }
{
    let mut i = functions.len();
    while i > 0 {
        i -= 1;
        put_code(ns, codes, functions[i])?;
    }
    Ok(())
}

/// The static objects that a function names, or one that it reaches by calls, in the order of their numbers.
pub(crate) fn statics_from(alloc: Global, codes: &Codes, f: u32) -> Result<Seq<u32>, Memory>
    requires well_formed { AreWellFormed codes.now }
    requires there { f < length codes.now.codes }
    ensures { IfOk result (λ statics. statics ≡ statics_of codes.now f) }
{
    let functions = functions_from(alloc, codes, f)?;
    let mut ns = Vec::new(alloc);
    put_codes(&mut ns, codes, functions.as_slice())?;
    Ok(Seq::new(ns))
}

// The exit classes of all functions of a file, found by a worklist over functions and their callers (Kildall 1973).
ghost use Rattle.std.specs.Prelude.{◌≡◌, ℕ, ◌+◌, ◌<◌, ◌≤◌, ◌^◌, ◌∷◌, [], List, true, false};
ghost use Rattle.std.specs.Prelude.{Err, None, Some, length, slice_get, MatchBool, IfOk, OnOk};
ghost use Rattle.std.specs.List.{IsAmong, flat_map};
ghost use Rattle.pungi_code.specs.Run.{code_at};
ghost use Rattle.pungi_code.specs.WellFormed.{AreWellFormed};
ghost use Rattle.pungi_links.specs.Pending.{IsPending};
ghost use Rattle.pungi_links.specs.Ring.{Stands};
ghost use Rattle.pungi_shape.specs.declared.graph_fault.GraphFault.TheVariants.{Shapes};
ghost use Rattle.pungi_shape.specs.declared.shape.Shape.{Shape};
ghost use Rattle.pungi_shape.specs.Callers.{AreCallers};
ghost use Rattle.pungi_shape.specs.Classes.{AreClasses, AreClassesOf, classes_of, has_list};
ghost use Rattle.pungi_shape.specs.AllClasses.{AreAllClasses, AreExitsBy, AreFoundClasses, IsFoundNow};
ghost use Rattle.pungi_shape.specs.AllClasses.{IsKept, IsSettling, has_more, work};
ghost use Rattle.pungi_shape.specs.FoundBy.{IsLargeBy};
ghost use Rattle.pungi_shape.specs.Named.{callees_in};
ghost use Rattle.pungi_shape.specs.Programs.{IsTooLarge};

use crate::callers::callers;
use crate::search::{FoundGraph, search};
use crate::statics::statics_from;
use crate::{Classes, GraphFault, Liveness, Shape};
use pungi_base::{Memory, Seq};
use pungi_code::{Code, Codes, Instr, Line};
use pungi_links::Pending;
use std::alloc::Global;

// ---- one function

/// Whether a line calls a function of the file that has no classes.
fn line_calls_large(line: &Line, classes: &Classes) -> bool
    requires { (g : ℕ) → IsAmong (callees_in line.now) g → g < 2 ^ 32 }
    ensures { MatchBool result
        ((g : ℕ) × IsAmong (callees_in line.now) g × (has_list (slice_get classes.now g) ≡ false))
        ((g : ℕ) → IsAmong (callees_in line.now) g → has_list (slice_get classes.now g) ≡ true) }
{
    match &line.instr {
        Instr::Call(_, g, _) => !classes.has(*g as u32),
        _ => false,
    }
}

/// Whether lines call a function of the file that has no classes.
fn calls_large(lines: &[Line], classes: &Classes) -> bool
    requires { (g : ℕ) → IsAmong (flat_map callees_in lines.now) g → g < 2 ^ 32 }
    ensures { MatchBool result
        ((g : ℕ) × IsAmong (flat_map callees_in lines.now) g × (has_list (slice_get classes.now g) ≡ false))
        ((g : ℕ) → IsAmong (flat_map callees_in lines.now) g → has_list (slice_get classes.now g) ≡ true) }
{
    for line in lines {
        if line_calls_large(line, classes) {
            return true;
        }
    }
    false
}

/// The exit classes that are found of a function where those that it calls leave by these.
fn exits_by(
    alloc: Global,
    codes: &Codes,
    f: u32,
    code: &Code,
    classes: &Classes,
) -> Result<Seq<Shape>, GraphFault>
    requires well_formed { AreWellFormed codes.now }
    requires code { code_at codes.now f ≡ Some code.now }
    requires classes { AreClasses codes.now (classes_of classes.now) }
    ensures classes { IfOk result (AreClassesOf codes.now f) }
    ensures exits { IfOk result (AreExitsBy codes.now (classes_of classes.now) f) }
    ensures large { result ≡ Err Shapes → IsLargeBy codes.now (classes_of classes.now) f }
{
    let statics = statics_from(alloc, codes, f)?;
    let live = Liveness::of(alloc, code)?;
    let FoundGraph { found, edges: _ } = search(
        alloc,
        codes,
        f,
        statics.as_slice(),
        code,
        &live,
        classes,
    )?;
    Ok(found.exits_in_order(alloc)?)
}

/// The exit classes that are found of a function by those that are known. None where it is too large.
fn search_classes(
    alloc: Global,
    codes: &Codes,
    f: u32,
    code: &Code,
    classes: &Classes,
) -> Result<Option<Seq<Shape>>, Memory>
    requires well_formed { AreWellFormed codes.now }
    requires code { code_at codes.now f ≡ Some code.now }
    requires count { length classes.now ≡ length codes.now.codes }
    requires known { (g : ℕ) (xs : List Shape) → slice_get classes.now g ≡ Some (Some xs)
        → AreFoundClasses codes.now g xs }
    requires large { (g : ℕ) → slice_get classes.now g ≡ Some None → IsTooLarge codes.now g }
    ensures { IfOk result (IsFoundNow codes.now classes.now f) }
{
    if calls_large(code.instrs.as_slice(), classes) {
        return Ok(None);
    }
    match exits_by(alloc, codes, f, code, classes) {
        Ok(list) => Ok(Some(list)),
        Err(GraphFault::Shapes) => Ok(None),
        Err(GraphFault::Memory) => Err(Memory),
    }
}

// ---- the queue

/// Puts the callers of a function.
fn put_callers(pending: &mut Pending, callers: &[u32])
    requires pending { IsPending pending.old }
    requires callers { (g : ℕ) → Stands g callers.now → g < pending.old.limit }
    ensures pending { IsPending pending.new }
    ensures limit { pending.new.limit ≡ pending.old.limit }
    ensures kept { (g : ℕ) → Stands g pending.old.list → Stands g pending.new.list }
    ensures put { (g : ℕ) → Stands g callers.now → Stands g pending.new.list }
    ensures few { length pending.new.list ≤ length pending.old.list + length callers.now }
{
    for caller in callers {
        pending.put(*caller);
    }
}

/// Whether a search gave more classes than these, or that the function is too large.
fn has_more(found: &Option<Seq<Shape>>, count: usize) -> bool
    ensures { result ≡ has_more found.now count }
{
    match found {
        Some(list) => count < list.len(),
        None => true,
    }
}

/// Notes what a search of a function gave. Where that is more than was known, its callers are pending.
fn keep(
    found: Option<Seq<Shape>>,
    f: u32,
    callers: &[u32],
    classes: &mut Classes,
    pending: &mut Pending,
)
    requires there { f < length classes.old }
    requires pending { IsPending pending.old }
    requires callers { (g : ℕ) → Stands g callers.now → g < pending.old.limit }
    ensures kept { IsKept found f callers.now classes.old classes.new pending.old.list pending.new.list }
    ensures pending { IsPending pending.new }
    ensures limit { pending.new.limit ≡ pending.old.limit }
{
    if has_more(&found, classes.of(f).len()) {
        classes.set(f, found);
        put_callers(pending, callers);
    }
}

/// Searches a function that was taken from the queue, unless it has no code or is too large.
fn take_function(
    alloc: Global,
    codes: &Codes,
    callers: &[Seq<u32>],
    f: u32,
    classes: &mut Classes,
    pending: &mut Pending,
) -> Result<(), Memory>
    requires well_formed { AreWellFormed codes.now }
    requires callers { AreCallers codes.now callers.now }
    requires function { f < length codes.now.codes }
    requires pending { IsPending pending.old }
    requires limit { pending.old.limit ≡ length codes.now.codes }
    requires settling { IsSettling codes.now classes.old (f ∷ pending.old.list) }
    ensures settling { OnOk result (IsSettling codes.now classes.new pending.new.list) }
    ensures work { OnOk result (work callers.now classes.new pending.new.list
        ≤ work callers.now classes.old pending.old.list) }
    ensures pending { IsPending pending.new }
    ensures limit { pending.new.limit ≡ pending.old.limit }
{
    let Some(code) = &codes.codes.as_slice()[f as usize] else {
        return Ok(());
    };
    if !classes.has(f) {
        return Ok(());
    }
    let found = search_classes(alloc, codes, f, code, classes)?;
    keep(found, f, callers[f as usize].as_slice(), classes, pending);
    Ok(())
}

/// Every function.
fn all_pending(alloc: Global, count: u32) -> Result<Pending, Memory>
    ensures pending { IfOk result IsPending }
    ensures limit { IfOk result (λ p. p.limit ≡ count) }
    ensures all { IfOk result (λ p. (f : ℕ) → f < count → Stands f p.list) }
{
    let mut pending = Pending::new(alloc, count)?;
    for f in 0..count {
        pending.put(f);
    }
    Ok(pending)
}

/// Searches functions until no search gives more: each, and again where a function that it calls got more classes.
fn settle(
    alloc: Global,
    codes: &Codes,
    callers: &[Seq<u32>],
    classes: &mut Classes,
    pending: &mut Pending,
) -> Result<(), Memory>
    requires well_formed { AreWellFormed codes.now }
    requires callers { AreCallers codes.now callers.now }
    requires pending { IsPending pending.old }
    requires limit { pending.old.limit ≡ length codes.now.codes }
    requires settling { IsSettling codes.now classes.old pending.old.list }
    ensures { OnOk result (IsSettling codes.now classes.new []) }
{
    'functions: while let Some(f) = pending.take() {
        take_function(alloc, codes, callers, f, classes, pending)?;
    }
    Ok(())
}

/// The exit classes of all functions of a file. A function has none where its program is too large, or that of one that
/// it reaches by calls.
pub fn exit_classes(alloc: Global, codes: &Codes) -> Result<Classes, Memory>
    requires { AreWellFormed codes.now }
    ensures { IfOk result (AreAllClasses codes.now) }
{
    let count = codes.codes.len();
    let callers = callers(alloc, codes)?;
    let mut classes = Classes::empty(alloc, count)?;
    let mut pending = all_pending(alloc, count as u32)?;
    settle(alloc, codes, callers.as_slice(), &mut classes, &mut pending)?;
    Ok(classes)
}

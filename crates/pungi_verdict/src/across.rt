//! Linear equations between the numbers of functions that call each other, by which their runs are shown to be balanced
//! through all calls.
ghost use Rattle.std.specs.Prelude.{◌≡◌, ◌↔◌, ℕ, ◌<◌, ◌^◌, ◌++◌, true, List, length, IfOk, IsSome, OnOk};
ghost use Rattle.std.specs.List.{Contains, flat_map};
ghost use Rattle.pungi_code.specs.Run.{code_at};
ghost use Rattle.pungi_code.specs.WellFormed.{AreWellFormed};
ghost use Rattle.pungi_shape.specs.AllClasses.{AreAllClasses};
ghost use Rattle.pungi_shape.specs.Classes.{classes_of};
ghost use Rattle.pungi_shape.specs.Named.{callees_in, lines_of};
ghost use Rattle.pungi_summary.specs.Calls.{AreCallable};
ghost use Rattle.pungi_verdict.specs.Across.{AreCallees, ArePrograms, AreProgramsAmong, AreSummaries, IsProgramAmong};
ghost use Rattle.pungi_verdict.specs.Across.{IsTriedAcross, position_of};

use crate::relations::{Tried, clamped_row};
use pungi_affine::Span;
use pungi_base::{Memory, Pos, Seq};
use pungi_code::{Code, Codes, Instr, Line};
use pungi_domain::AffineProgram;
use pungi_fixpoint::{State, Summaries};
use pungi_shape::{
    Classes, GraphFault, callees_are_called, calls_fit_programs, exit_classes,
    functions_are_reached, graph_among,
};
use pungi_summary::summarise;
use std::alloc::Global;

/// The functions of a file by their numbers, with what linear equations show of them.
#[derive(Drop)]
pub(crate) struct Across {
    /// The functions of the file that each calls.
    callees: Seq<Seq<u32>>,
    /// The affine program of each; none of one that is too large, that calls such a one, or that has no code.
    programs: Seq<Option<AffineProgram>>,
    summaries: Summaries<Span>,
}

// ---- calls

/// Whether the last number of a list is this one.
fn is_last(list: &[u32], g: u32) -> bool
    ensures { result ≡ true → Contains list.now g }
{
    match list.last() {
        Some(last) => *last == g,
        None => false,
    }
}

/// Adds the function that a line calls, if it calls one and that isn't the last one.
fn push_callee(line: &Line, list: &mut Seq<u32>) -> Result<(), Memory>
    requires { (g : ℕ) → Contains (callees_in line.now) g → g < 2 ^ 32 }
    ensures { OnOk result ((g : ℕ) → Contains list.new g ↔ Contains (list.old ++ callees_in line.now) g) }
{
    if let Instr::Call(_, g, _) = &line.instr {
        let callee = *g as u32;
        if !is_last(list.as_slice(), callee) {
            list.push(callee)?;
        }
    }
    Ok(())
}

/// The functions of the file that lines call.
fn callees_of(alloc: Global, lines: &[Line]) -> Result<Seq<u32>, Memory>
    requires { (g : ℕ) → Contains (flat_map callees_in lines.now) g → g < 2 ^ 32 }
    ensures { IfOk result (λ list. (g : ℕ) → Contains list g ↔ Contains (flat_map callees_in lines.now) g) }
{
    let mut list = Seq::new(Vec::new(alloc));
    for line in lines {
        push_callee(line, &mut list)?;
    }
    Ok(list)
}

/// The functions of the file that a code calls, if there is one.
fn callees_by(alloc: Global, code: &Option<Code>) -> Result<Seq<u32>, Memory>
    requires { (g : ℕ) → Contains (flat_map callees_in (lines_of code.now)) g → g < 2 ^ 32 }
    ensures { IfOk result (λ list. (g : ℕ) → Contains list g ↔ Contains (flat_map callees_in (lines_of code.now)) g) }
{
    match code {
        Some(code) => callees_of(alloc, code.instrs.as_slice()),
        None => Ok(Seq::new(Vec::new(alloc))),
    }
}

/// For each function of a file those that it calls.
fn callees(alloc: Global, codes: &Codes) -> Result<Seq<Seq<u32>>, Memory>
    requires { AreWellFormed codes.now }
    ensures { IfOk result (λ lists. AreCallees codes.now lists) }
{
    callees_are_called();
    let mut lists = Seq::new(Vec::new(alloc));
    for code in codes.codes.as_slice() {
        lists.push(callees_by(alloc, code)?)?;
    }
    Ok(lists)
}

// ---- programs

/// The affine program of a code, if it isn't too large.
fn program_of(
    alloc: Global,
    codes: &Codes,
    classes: &Classes,
    f: u32,
) -> Result<Option<AffineProgram>, Memory>
    requires well_formed { AreWellFormed codes.now }
    requires classes { AreAllClasses codes.now classes.now }
    requires there { f < length codes.now.codes }
    ensures { IfOk result (λ o. IsProgramAmong codes.now (classes_of classes.now) f o) }
{
    functions_are_reached();
    if codes.codes.as_slice()[f as usize].is_none() || !classes.has(f) {
        return Ok(None);
    }
    match graph_among(alloc, codes, f, classes) {
        Ok(program) => Ok(Some(program)),
        Err(GraphFault::Shapes) => Ok(None),
        Err(GraphFault::Memory) => Err(Memory),
    }
}

/// The affine programs of all functions of a file.
fn programs(
    alloc: Global,
    codes: &Codes,
    classes: &Classes,
) -> Result<Seq<Option<AffineProgram>>, Memory>
    requires well_formed { AreWellFormed codes.now }
    requires classes { AreAllClasses codes.now classes.now }
    ensures { IfOk result (λ list. AreProgramsAmong codes.now (classes_of classes.now) list) }
{
    let mut list = Seq::new(Vec::new(alloc));
    for f in 0..codes.codes.len() {
        list.push(program_of(alloc, codes, classes, f as u32)?)?;
    }
    Ok(list)
}

/// The affine programs of all functions of a file, by the exit classes of all.
fn file_programs(alloc: Global, codes: &Codes) -> Result<Seq<Option<AffineProgram>>, Memory>
    requires { AreWellFormed codes.now }
    ensures programs { IfOk result (ArePrograms codes.now) }
    ensures callable { (ns : List (List ℕ)) → AreCallees codes.now ns → IfOk result (λ ps. AreCallable ps ns) }
{
    calls_fit_programs();
    callees_are_called();
    let classes = exit_classes(alloc, codes)?;
    programs(alloc, codes, &classes)
}

// ---- what equations show

/// The position of a place of a program.
fn position_of(program: &Option<AffineProgram>, place: u32) -> Pos
    ensures { result ≡ position_of program.now place }
{
    match program {
        Some(program) => match program.at.as_slice().get(place as usize) {
            Some(pos) => *pos,
            None => Pos { line: 0, col: 0 },
        },
        None => Pos { line: 0, col: 0 },
    }
}

impl Across {
    /// The functions of a file, with what linear equations show of them.
    pub(crate) fn of(alloc: Global, codes: &Codes) -> Result<Across, Memory>
        requires { AreWellFormed codes.now }
        ensures { IfOk result (λ across. AreSummaries codes.now across) }
    {
        callees_are_called();
        functions_are_reached();
        let callees = callees(alloc, codes)?;
        let programs = file_programs(alloc, codes)?;
        let summaries = summarise::<Span>(alloc, programs.as_slice(), callees.as_slice())?;
        Ok(Across {
            callees,
            programs,
            summaries,
        })
    }

    /// What the search for equations ended with for a function that has code.
    pub(crate) fn tried(&self, alloc: Global, codes: &Codes, f: usize) -> Result<Tried, Memory>
        requires summaries { AreSummaries codes.now self.now }
        requires code { IsSome (code_at codes.now f) }
        requires few { length codes.now.codes < 2 ^ 32 }
        ensures { IfOk result (λ t. IsTriedAcross codes.now f t) }
    {
        match self.summaries.state(f as u32) {
            State::Safe => Ok(Tried::Found),
            State::NotSafe(_) => Ok(Tried::NotFound),
            State::Shapes => Ok(Tried::TooLarge),
            State::Range(place, row) => {
                let numbers = clamped_row(alloc, row.as_slice())?;
                let pos = position_of(&self.programs.as_slice()[f], *place);
                Ok(Tried::LargeSpan(pos, numbers))
            }
        }
    }
}

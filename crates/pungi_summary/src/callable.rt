//! Whether the calls of a file fit: its programs are well-formed, and call what their functions call.
ghost use Rattle.std.specs.Prelude.{◌≡◌, ◌↔◌, ℕ, ◌<◌, Some, IsTrue, length};
ghost use Rattle.std.specs.List.{All, Contains};
ghost use Rattle.pungi_domain.specs.Programs.{IsWellFormed};
ghost use Rattle.pungi_domain.specs.declared.affine_program.AffineProgram.{AffineProgram};
ghost use Rattle.pungi_summary.specs.Calls.{AreCallable, HasClass, IsCallable, callees_of, program_of};

use pungi_base::Seq;
use pungi_domain::{Action, AffineProgram, is_well_formed};

/// Whether all are below a limit.
fn are_below(numbers: &[u32], limit: usize) -> bool
    ensures { IsTrue result ↔ All (λ g. g < limit) numbers.now }
{
    for number in numbers {
        if *number as usize >= limit {
            return false;
        }
    }
    true
}

/// Whether the callees of each function are below a limit.
fn are_all_below(callees: &[Seq<u32>], limit: usize) -> bool
    ensures { IsTrue result ↔ All (λ fs. All (λ g. g < limit) fs) callees.now }
{
    for numbers in callees {
        if !are_below(numbers.as_slice(), limit) {
            return false;
        }
    }
    true
}

/// Whether a number is one of these.
fn is_among(numbers: &[u32], number: u32) -> bool
    ensures { IsTrue result ↔ Contains numbers.now number }
{
    for i in 0..numbers.len() {
        if numbers[i] == number {
            return true;
        }
    }
    false
}

/// Whether a program, if there is one, has an exit class of this width by this number.
fn has_class(program: &Option<AffineProgram>, class: u32, width: usize) -> bool
    ensures { IsTrue result ↔ HasClass program.now class width }
{
    let Some(program) = program else {
        return true;
    };
    match program.exits.as_slice().get(class as usize) {
        Some(exit) => *exit as usize == width,
        None => false,
    }
}

/// Whether a called function, if it has a program, has an exit class of this width by this number.
fn fits_callee(programs: &[Option<AffineProgram>], callee: u32, class: u32, width: usize) -> bool
    ensures { IsTrue result ↔ HasClass (program_of programs.now callee) class width }
{
    match programs.get(callee as usize) {
        Some(program) => has_class(program, class, width),
        None => true,
    }
}

/// Whether an action, where it is a call, is a call of one of these functions, and fits it.
fn is_callable(programs: &[Option<AffineProgram>], callees: &[u32], action: &Action) -> bool
    ensures { IsTrue result ↔ IsCallable programs.now callees.now action.now }
{
    match action {
        Action::Map(_) | Action::Free(_) => true,
        Action::Call {
            callee,
            class,
            onto,
        } => is_among(callees, *callee) && fits_callee(programs, *callee, *class, onto.len()),
    }
}

/// Whether the actions of all edges are so.
fn are_edges_callable(
    programs: &[Option<AffineProgram>],
    callees: &[u32],
    program: &AffineProgram,
) -> bool
    ensures { IsTrue result ↔ All (λ e. IsCallable programs.now callees.now e.action) program.now.edges }
{
    for edge in program.edges.as_slice() {
        if !is_callable(programs, callees, &edge.action) {
            return false;
        }
    }
    true
}

/// Whether a function's program, if it has one, is well-formed, and calls what the function calls.
fn is_function_callable(
    programs: &[Option<AffineProgram>],
    callees: &[u32],
    program: &Option<AffineProgram>,
) -> bool
    ensures { IsTrue result ↔ ((p : AffineProgram) → program.now ≡ Some p → IsWellFormed p
        × All (λ e. IsCallable programs.now callees.now e.action) p.edges) }
{
    match program {
        Some(program) => {
            is_well_formed(program) && are_edges_callable(programs, callees, program)
        }
        None => true,
    }
}

/// Whether all functions have their callees, which are functions of the file, and whether their programs are
/// well-formed and call none but their callees, each at an exit class that it has.
///
/// It goes over a function's callees at each call of its program.
pub fn are_callable(programs: &[Option<AffineProgram>], callees: &[Seq<u32>]) -> bool
    ensures { IsTrue result ↔ AreCallable programs.now callees.now }
{
    if callees.len() != programs.len() {
        return false;
    }
    if !are_all_below(callees, programs.len()) {
        return false;
    }
    for f in 0..programs.len() {
        if !is_function_callable(programs, callees[f].as_slice(), &programs[f]) {
            return false;
        }
    }
    true
}

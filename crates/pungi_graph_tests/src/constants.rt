//! What is known at the exits of a program of its numbers that are constant (Kildall 1973).
ghost use Rattle.std.specs.Prelude.{◌≡◌, ◌<◌, length, IfOk};
ghost use Rattle.pungi_domain.specs.Programs.{IsWellFormed};
ghost use Rattle.pungi_domain.specs.Vectors.{IsEquation};

use pungi_base::{Memory, Seq};
use pungi_domain::{AffineProgram, Domain, Equation, Flat};
use pungi_fixpoint::{Summaries, solve};
use std::alloc::Global;
use std::test::Fail;

/// The equation that a coordinate is 0.
fn zero_at(alloc: Global, width: u32, coordinate: u32) -> Result<Equation, Memory>
    ensures { IfOk result (λ e. IsEquation width e.coefficients) }
{
    let mut coefficients = Seq::new(Vec::new(alloc));
    for k in 0..width {
        coefficients.push(if k == coordinate { 1 } else { 0 })?;
    }
    Ok(Equation { coefficients })
}

/// Whether a coordinate is known to be 0 at an exit of a program, where each edge keeps what is known.
pub(crate) fn is_zero_at_exit(
    alloc: Global,
    program: &AffineProgram,
    class: usize,
    coordinate: u32,
) -> Result<bool, Fail>
    requires { IsWellFormed program.now }
{
    let summaries = Summaries::<Flat>::empty(alloc, 0)?;
    let found = solve(alloc, program, &summaries)?;
    if class >= program.exits.len() {
        return Err(Fail::new("there is no such exit"));
    }
    let width = program.exits.as_slice()[class];
    let equation = zero_at(alloc, width, coordinate)?;
    Ok(found.exits.as_slice()[class].holds(&equation))
}

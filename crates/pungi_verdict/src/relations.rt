//! Linear equations between the numbers of a function that show its runs to be balanced.
ghost use Rattle.std.specs.Prelude.{◌≡◌, IsSome, IfOk, map, true};
ghost use Rattle.pungi_code.specs.Run.{code_at};
ghost use Rattle.pungi_code.specs.WellFormed.{IsAlone};
ghost use Rattle.pungi_domain.specs.Programs.{IsWellFormed};
ghost use Rattle.pungi_verdict.specs.Relations.{IsSolved, IsTried, IsTriedIfMade, OwesNothing, clamped, is_found};
ghost use Rattle.pungi_verdict.specs.Relations.{unless_traces, verdict_after};

use pungi_affine::Span;
use pungi_base::{Memory, Pos, Seq, Verdict, Why};
use pungi_code::Codes;
use pungi_domain::AffineProgram;
use pungi_fixpoint::{FixFault, Summaries, solve};
use pungi_shape::{GraphFault, graph};
use std::alloc::Global;

/// What the search for such equations ended with.
#[derive(Drop)]
pub(crate) enum Tried {
    /// There are some.
    Found,
    /// There are none.
    NotFound,
    /// The affine program of the function is too large.
    TooLarge,
    /// A span was too large at this place: an entry of this scaled row is over 2^31.
    LargeSpan(Pos, Seq<i64>),
}

impl Tried {
    /// Whether there are some.
    pub(crate) fn is_found(&self) -> bool
        ensures { result ≡ is_found self.now }
    {
        match self {
            Tried::Found => true,
            Tried::NotFound | Tried::TooLarge | Tried::LargeSpan(_, _) => false,
        }
    }
}

/// A number, or the end of the range of an `i64` that it is past.
fn clamped(n: i128) -> i64
    ensures { result ≡ clamped n }
{
    if n <= i64::MIN as i128 {
        i64::MIN
    } else if n >= i64::MAX as i128 {
        i64::MAX
    } else {
        n as i64
    }
}

/// The numbers of a row, clamped.
pub(crate) fn clamped_row(alloc: Global, row: &[i128]) -> Result<Seq<i64>, Memory>
    ensures { IfOk result (λ numbers. numbers ≡ map clamped row.now) }
{
    let mut numbers = Seq::new(Vec::new(alloc));
    for n in row {
        numbers.push(clamped(*n))?;
    }
    Ok(numbers)
}

/// Whether nothing is owed on any edge of an affine program.
fn owes_nothing(program: &AffineProgram) -> bool
    ensures { result ≡ true → OwesNothing program.now }
{
    let edges = program.edges.as_slice();
    for edge in edges {
        if !edge.duties.is_empty() {
            return false;
        }
    }
    true
}

/// Looks for equations in the affine program of a function. Where nothing is owed, none are needed.
fn search(alloc: Global, program: &AffineProgram) -> Result<Tried, Memory>
    requires { IsWellFormed program.now }
    ensures { IfOk result (λ tried. IsSolved program.now tried) }
{
    if owes_nothing(program) {
        return Ok(Tried::Found);
    }
    let summaries = Summaries::<Span>::empty(alloc, 0)?;
    match solve(alloc, program, &summaries) {
        Ok(_) => Ok(Tried::Found),
        Err(FixFault::NotSafe(_)) => Ok(Tried::NotFound),
        Err(FixFault::Range(place, row)) => {
            let numbers = clamped_row(alloc, row.as_slice())?;
            Ok(Tried::LargeSpan(program.at.as_slice()[place as usize], numbers))
        }
        Err(FixFault::Memory) => Err(Memory),
    }
}

/// Looks for linear equations between the numbers of a function that each edge of its affine program keeps and that
/// show its runs to be balanced.
pub(crate) fn try_relations(alloc: Global, codes: &Codes, f: usize) -> Result<Tried, Memory>
    requires alone { IsAlone codes.now f }
    requires there { IsSome (code_at codes.now f) }
    ensures { IfOk result (λ tried. IsTried codes.now f tried) }
{
    match graph(alloc, codes, f as u32) {
        Ok(program) => search(alloc, &program),
        Err(GraphFault::Shapes) => Ok(Tried::TooLarge),
        Err(GraphFault::Memory) => Err(Memory),
    }
}

/// What the search ended with, which is made now where it was not made before.
pub(crate) fn tried_or_made(
    alloc: Global,
    codes: &Codes,
    f: usize,
    tried: Option<Tried>,
) -> Result<Tried, Memory>
    requires alone { IsAlone codes.now f }
    requires there { IsSome (code_at codes.now f) }
    requires tried { IsTriedIfMade codes.now f tried }
    ensures { IfOk result (λ t. IsTried codes.now f t) }
{
    match tried {
        Some(tried) => Ok(tried),
        None => try_relations(alloc, codes, f),
    }
}

// ---- verdicts

fn unless_traces(reason: Why, other: Why) -> Why
    ensures { result ≡ unless_traces reason other }
{
    match reason {
        Why::Traces => Why::Traces,
        _ => other,
    }
}

/// The verdict where exploring left a function open for this reason, and the search for equations ended so.
pub(crate) fn verdict_after(reason: Why, tried: Tried) -> Verdict
    ensures { result ≡ verdict_after reason tried }
{
    match tried {
        Tried::Found => Verdict::Clean,
        Tried::NotFound => Verdict::Unknown(reason),
        Tried::TooLarge => Verdict::Unknown(unless_traces(reason, Why::Shapes)),
        Tried::LargeSpan(pos, vector) => Verdict::Unknown(unless_traces(
            reason,
            Why::Range { pos, vector },
        )),
    }
}

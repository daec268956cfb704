//! The lines of an affine program: its entries, the widths of its exit classes, its places and its edges, in order.
//!
//! `place 3 at 1:46 of width 4` is a place with the position of its instruction. Its vectors have the coordinates v0 to
//! v3; v0 is 1, and a multiple of it is written as a number.
//!
//! `3 to 4 where v1-v2=0: 1 0 1+v3 owes v3=0` is an edge from the place 3 to the place 4. The vectors that meet the
//! equation after `where` take it. It leads to those whose coordinates are listed after the colon, and has the duty
//! that the equation after `owes` holds. Where one coordinate may become any number, `frees v1` stands in place of the
//! list; where a function is called, `calls 0 by exit 1` does, and which coordinates take those of the exit follows
//! from the widths.
ghost use Rattle.std.specs.Prelude.{◌≡◌, ◌+◌, length, IfOk, OnOk};
ghost use Rattle.pungi_domain.specs.Programs.{IsWellFormed};

use pungi_base::Pos;
use pungi_domain::{Action, AffineEdge, AffineProgram, Equation, Matrix, Target};
use std::alloc::Global;
use std::fmt::Write;
use std::test::Fail;

/// One more coordinate of a sum, with its factor.
fn push_term(sum: &mut String, coordinate: usize, factor: i64) -> Result<(), Fail> {
    if factor >= 0 && !sum.is_empty() {
        sum.push('+')?;
    }
    match (coordinate, factor) {
        (0, _) => write!(sum, "{factor}")?,
        (_, 1) => write!(sum, "v{coordinate}")?,
        (_, -1) => write!(sum, "-v{coordinate}")?,
        _ => write!(sum, "{factor}v{coordinate}")?,
    }
    Ok(())
}

fn row_sum(alloc: Global, row: &[(u32, i64)]) -> Result<String, Fail> {
    let mut sum = String::new(alloc);
    for (coordinate, factor) in row {
        push_term(&mut sum, *coordinate as usize, *factor)?;
    }
    Ok(sum)
}

fn equation_sum(alloc: Global, coefficients: &[i64]) -> Result<String, Fail> {
    let mut sum = String::new(alloc);
    for (coordinate, factor) in coefficients.iter().enumerate() {
        if *factor != 0 {
            push_term(&mut sum, coordinate, *factor)?;
        }
    }
    Ok(sum)
}

/// A sum, or 0 where it has no term.
fn push_sum(line: &mut String, sum: &str) -> Result<(), Fail> {
    Ok(line.push_str(if sum.is_empty() { "0" } else { sum })?)
}

fn push_rows(alloc: Global, line: &mut String, matrix: &Matrix) -> Result<(), Fail> {
    for row in matrix.rows.as_slice() {
        line.push(' ')?;
        let sum = row_sum(alloc, row.as_slice())?;
        push_sum(line, sum.as_str())?;
    }
    Ok(())
}

/// Each equation after this word.
fn push_equations(
    alloc: Global,
    line: &mut String,
    word: &str,
    equations: &[Equation],
) -> Result<(), Fail> {
    for equation in equations {
        line.push_str(word)?;
        let sum = equation_sum(alloc, equation.coefficients.as_slice())?;
        push_sum(line, sum.as_str())?;
        line.push_str("=0")?;
    }
    Ok(())
}

fn push_target(line: &mut String, to: Target) -> Result<(), Fail> {
    match to {
        Target::Place(place) => write!(line, "{place}")?,
        Target::Exit(exit) => write!(line, "exit {exit}")?,
    }
    Ok(())
}

fn push_action(alloc: Global, line: &mut String, action: &Action) -> Result<(), Fail> {
    match action {
        Action::Map(matrix) => push_rows(alloc, line, matrix)?,
        Action::Free(coordinate) => write!(line, " frees v{coordinate}")?,
        Action::Call { callee, class, .. } => write!(line, " calls {callee} by exit {class}")?,
    }
    Ok(())
}

fn edge_line(alloc: Global, edge: &AffineEdge) -> Result<String, Fail> {
    let mut line = String::new(alloc);
    write!(line, "{} to ", edge.from)?;
    push_target(&mut line, edge.to)?;
    push_equations(alloc, &mut line, " where ", edge.guard.as_slice())?;
    line.push(':')?;
    push_action(alloc, &mut line, &edge.action)?;
    push_equations(alloc, &mut line, " owes ", edge.duties.as_slice())?;
    Ok(line)
}

/// A word and numbers.
fn numbers_line(alloc: Global, word: &str, numbers: &[u32]) -> Result<String, Fail> {
    let mut line = String::from_str(alloc, word)?;
    for number in numbers {
        write!(line, " {number}")?;
    }
    Ok(line)
}

fn place_line(alloc: Global, place: usize, pos: Pos, width: u32) -> Result<String, Fail> {
    Ok(format!(in alloc; "place {place} at {pos} of width {width}")?)
}

fn push_places(alloc: Global, lines: &mut Vec<String>, program: &AffineProgram) -> Result<(), Fail>
    requires { length program.now.at ≡ length program.now.widths }
    ensures { OnOk result (length lines.new.items ≡ length lines.old.items + length program.now.widths) }
{
    let positions = program.at.as_slice();
    for (place, width) in program.widths.as_slice().iter().enumerate() {
        lines.push(place_line(alloc, place, positions[place], *width)?)?;
    }
    Ok(())
}

fn push_edges(alloc: Global, lines: &mut Vec<String>, edges: &[AffineEdge]) -> Result<(), Fail>
    ensures { OnOk result (length lines.new.items ≡ length lines.old.items + length edges.now) }
{
    for edge in edges {
        lines.push(edge_line(alloc, edge)?)?;
    }
    Ok(())
}

/// The lines of a program: one for its entries, one for its exit classes, and one for each place and each edge.
pub(crate) fn lines(alloc: Global, program: &AffineProgram) -> Result<Vec<String>, Fail>
    requires { IsWellFormed program.now }
    ensures { IfOk result (λ lines. length lines.items
        ≡ 2 + length program.now.widths + length program.now.edges) }
{
    let mut lines = Vec::new(alloc);
    lines.push(numbers_line(alloc, "entries", program.entries.as_slice())?)?;
    lines.push(numbers_line(alloc, "exits", program.exits.as_slice())?)?;
    push_places(alloc, &mut lines, program)?;
    push_edges(alloc, &mut lines, program.edges.as_slice())?;
    Ok(lines)
}

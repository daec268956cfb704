//! Whether an affine program is well-formed.
ghost use Rattle.std.specs.Prelude.{◌≡◌, ◌↔◌, ℕ, ◌+◌, ◌-◌, ◌<◌, ◌≤◌, ◌^◌, IsTrue, length, MatchOption};
ghost use Rattle.std.specs.List.{All, slice_index_or};
ghost use Rattle.pungi_domain.specs.Programs.{IsTarget, FitsAction, FitsEdge, IsWellFormed, width_to};
ghost use Rattle.pungi_domain.specs.Vectors.{IsWithin, IsEquation, IsMatrixRow, IsMatrix};
ghost use Rattle.pungi_domain.specs.WellFormed.{ComesBefore, IsNew, CountUp};

use crate::{Action, AffineEdge, AffineProgram, Equation, Target};
use pungi_base::Seq;

/// Whether none is over 256.
fn are_narrow(widths: &[u32]) -> bool
    ensures { IsTrue result ↔ All (λ w. w ≤ 256) widths.now }
{
    for width in widths {
        if *width > 256 {
            return false;
        }
    }
    true
}

/// Whether all are below a limit.
fn are_below(numbers: &[u32], limit: usize) -> bool
    ensures { IsTrue result ↔ All (λ k. k < limit) numbers.now }
{
    for number in numbers {
        if *number as usize >= limit {
            return false;
        }
    }
    true
}

/// Whether a coefficient lies within 2^20.
fn is_small(coefficient: i64) -> bool
    ensures { IsTrue result ↔ IsWithin (2 ^ 20) coefficient }
{
    if coefficient > 1048576 {
        return false;
    }
    coefficient >= -1048576
}

/// Whether these are the coefficients of an equation on vectors of this width.
fn is_equation(width: u32, coefficients: &[i64]) -> bool
    ensures { IsTrue result ↔ IsEquation width coefficients.now }
{
    if coefficients.len() != width as usize {
        return false;
    }
    for i in 1..coefficients.len() {
        if !is_small(coefficients[i]) {
            return false;
        }
    }
    true
}

/// Whether all are equations on vectors of this width.
fn are_equations(width: u32, equations: &[Equation]) -> bool
    ensures { IsTrue result ↔ All (λ g. IsEquation width g.coefficients) equations.now }
{
    for equation in equations {
        if !is_equation(width, equation.coefficients.as_slice()) {
            return false;
        }
    }
    true
}

/// Whether the coordinate at k comes before it too.
fn comes_before(row: &[(u32, i64)], k: usize) -> bool
    requires { k < length row.now }
    ensures { IsTrue result ↔ ComesBefore row.now k }
{
    for j in 0..k {
        if row[j].0 == row[k].0 {
            return true;
        }
    }
    false
}

/// Whether the coordinate at k is in range, and doesn't come before it.
fn is_new(width: u32, row: &[(u32, i64)], k: usize) -> bool
    requires { k < length row.now }
    ensures { IsTrue result ↔ IsNew width row.now k }
{
    if row[k].0 >= width {
        return false;
    }
    !comes_before(row, k)
}

/// Whether a row of a matrix names coordinates in range, each once.
fn is_matrix_row(width: u32, row: &[(u32, i64)]) -> bool
    ensures { IsTrue result ↔ IsMatrixRow width row.now }
{
    for k in 0..row.len() {
        if !is_new(width, row, k) {
            return false;
        }
    }
    true
}

/// Whether these are the rows of a matrix on vectors of this width.
fn is_matrix(width: u32, rows: &[Seq<(u32, i64)>]) -> bool
    ensures { IsTrue result ↔ IsMatrix width rows.now }
{
    for row in rows {
        if !is_matrix_row(width, row.as_slice()) {
            return false;
        }
    }
    true
}

/// Whether the numbers count up from this width.
fn count_up(width: u32, onto: &[u32]) -> bool
    ensures { IsTrue result ↔ CountUp width onto.now }
{
    for i in 0..onto.len() {
        if onto[i] as usize != width as usize + i {
            return false;
        }
    }
    true
}

/// Whether a call's coordinates are those of the target from the source's width up.
fn fits_call(from: u32, to: u32, onto: &[u32]) -> bool
    ensures { IsTrue result ↔ ((from ≤ to) × (length onto.now ≡ to - from) × CountUp from onto.now) }
{
    if from > to {
        return false;
    }
    if onto.len() != (to - from) as usize {
        return false;
    }
    count_up(from, onto)
}

/// Whether a matrix maps vectors of the one width to those of the other.
fn fits_map(from: u32, to: u32, rows: &[Seq<(u32, i64)>]) -> bool
    ensures { IsTrue result ↔ ((length rows.now ≡ to) × IsMatrix from rows.now) }
{
    if rows.len() != to as usize {
        return false;
    }
    is_matrix(from, rows)
}

/// Whether a coordinate other than the leading one is freed.
fn fits_free(from: u32, to: u32, coordinate: u32) -> bool
    ensures { IsTrue result ↔ ((to ≡ from) × (0 < coordinate) × (coordinate < from)) }
{
    to == from && 0 < coordinate && coordinate < from
}

/// Whether an action takes vectors of the one width to those of the other.
fn fits_action(from: u32, to: u32, action: &Action) -> bool
    ensures { IsTrue result ↔ FitsAction from to action.now }
{
    match action {
        Action::Map(matrix) => fits_map(from, to, matrix.rows.as_slice()),
        Action::Free(coordinate) => fits_free(from, to, *coordinate),
        Action::Call { onto, .. } => fits_call(from, to, onto.as_slice()),
    }
}

/// The width of a target, if it is of the program.
fn width_of_target(program: &AffineProgram, to: Target) -> Option<u32>
    ensures { MatchOption result (IsTarget program.now to → ⊥)
        (λ w. IsTarget program.now to × (w ≡ width_to program.now to)) }
{
    let (widths, k) = match to {
        Target::Place(k) => (&program.widths, k),
        Target::Exit(k) => (&program.exits, k),
    };
    let k = k as usize;
    if k < widths.len() {
        Some(widths.as_slice()[k])
    } else {
        None
    }
}

/// Whether the widths on an edge fit, which leads from vectors of this width.
fn fits_widths(program: &AffineProgram, from: u32, edge: &AffineEdge) -> bool
    ensures { IsTrue result ↔ (IsTarget program.now edge.now.to
        × FitsAction from (width_to program.now edge.now.to) edge.now.action) }
{
    match width_of_target(program, edge.to) {
        None => false,
        Some(to) => fits_action(from, to, &edge.action),
    }
}

/// Whether an edge fits the program.
fn fits_edge(program: &AffineProgram, edge: &AffineEdge) -> bool
    ensures { IsTrue result ↔ FitsEdge program.now edge.now }
{
    if edge.from as usize >= program.widths.len() {
        return false;
    }
    let from = program.widths.as_slice()[edge.from as usize];
    if !are_equations(from, edge.guard.as_slice()) {
        return false;
    }
    if !are_equations(from, edge.duties.as_slice()) {
        return false;
    }
    fits_widths(program, from, edge)
}

/// Whether all edges fit the program.
fn fit_edges(program: &AffineProgram) -> bool
    ensures { IsTrue result ↔ All (FitsEdge program.now) program.now.edges }
{
    for edge in program.edges.as_slice() {
        if !fits_edge(program, edge) {
            return false;
        }
    }
    true
}

/// Whether the places have positions and widths that are supported.
fn has_places(program: &AffineProgram) -> bool
    ensures { IsTrue result ↔ ((length program.now.widths < 2 ^ 31)
        × (length program.now.at ≡ length program.now.widths)
        × All (λ w. w ≤ 256) program.now.widths × All (λ w. w ≤ 256) program.now.exits) }
{
    if program.widths.len() >= 2147483648 {
        return false;
    }
    if program.at.len() != program.widths.len() {
        return false;
    }
    if !are_narrow(program.widths.as_slice()) {
        return false;
    }
    are_narrow(program.exits.as_slice())
}

/// Whether a program has fewer than 2^31 places, none over 256 wide, and names places, exits and coordinates in range
/// alone, with equations and maps of the widths that stand there.
pub fn is_well_formed(program: &AffineProgram) -> bool
    ensures { IsTrue result ↔ IsWellFormed program.now }
{
    if !has_places(program) {
        return false;
    }
    if !are_below(program.entries.as_slice(), program.widths.len()) {
        return false;
    }
    fit_edges(program)
}

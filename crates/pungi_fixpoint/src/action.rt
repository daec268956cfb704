ghost use Rattle.std.specs.Prelude.{◌≡◌, ◌+◌, ◌-◌, ◌≤◌, [], ◌∷◌, pos, length, IfOk, MatchOption};
ghost use Rattle.pungi_domain.specs.Builds.{Acts, Covers, LargeAct, source_rows, exit_rows};
ghost use Rattle.pungi_domain.specs.Programs.{FitsAction};
ghost use Rattle.pungi_domain.specs.Spans.{LargeMap};
ghost use Rattle.pungi_domain.specs.Vectors.{Image, IsMatrix};
ghost use Rattle.pungi_fixpoint.specs.Calls.{IsBeside, LargeBeside, source_row, exit_row};
ghost use Rattle.pungi_fixpoint.specs.Solver.{FitsCall};
ghost use Rattle.pungi_fixpoint.specs.Summaries.{exit_of};
ghost use Rattle.pungi_fixpoint.specs.Turns.{HasNoExit, RangeOnly};

use crate::Summaries;
use pungi_base::{Memory, Seq};
use pungi_domain::{Action, Domain, DomainFault, Matrix};
use std::alloc::Global;

/// The row that is one coordinate.
fn coordinate_row(alloc: Global, coordinate: u32) -> Result<Seq<(u32, i64)>, Memory>
    ensures { IfOk result (λ row. row ≡ (coordinate, pos 1) ∷ []) }
{
    let mut row = Seq::new(Vec::new(alloc));
    row.push((coordinate, 1))?;
    Ok(row)
}

/// A row of the map of the source's vectors.
fn source_row(alloc: Global, width: u32, i: u32) -> Result<Seq<(u32, i64)>, Memory>
    ensures { IfOk result (λ row. row ≡ source_row width i) }
{
    if i < width {
        return coordinate_row(alloc, i);
    }
    Ok(Seq::new(Vec::new(alloc)))
}

/// A row of the map of the exit's vectors.
fn exit_row(alloc: Global, width: u32, i: u32) -> Result<Seq<(u32, i64)>, Memory>
    ensures { IfOk result (λ row. row ≡ exit_row width i) }
{
    if i < width {
        return Ok(Seq::new(Vec::new(alloc)));
    }
    coordinate_row(alloc, i - width)
}

/// The map that puts a vector of some width first among more coordinates, the others 0.
fn source_matrix(alloc: Global, width: u32, all: u32) -> Result<Matrix, Memory>
    ensures rows { IfOk result (λ m. m.rows ≡ source_rows width all) }
    ensures matrix { IfOk result (λ m. IsMatrix width m.rows) }
    ensures width { IfOk result (λ m. length m.rows ≡ all) }
{
    let mut rows = Seq::new(Vec::new(alloc));
    for i in 0..all {
        rows.push(source_row(alloc, width, i)?)?;
    }
    Ok(Matrix { rows })
}

/// The map that puts a vector after the first coordinates, those 0.
fn exit_matrix(alloc: Global, width: u32, all: u32) -> Result<Matrix, Memory>
    ensures rows { IfOk result (λ m. m.rows ≡ exit_rows width all) }
    ensures matrix { IfOk result (λ m. IsMatrix (all - width) m.rows) }
    ensures width { IfOk result (λ m. length m.rows ≡ all) }
{
    let mut rows = Seq::new(Vec::new(alloc));
    for i in 0..all {
        rows.push(exit_row(alloc, width, i)?)?;
    }
    Ok(Matrix { rows })
}

/// The source's value, at a target of this width.
fn source_image<D: Domain>(
    alloc: Global,
    source: &D,
    from: u32,
    width: u32,
) -> Result<D, DomainFault>
    requires from { D.width_of source.now ≡ from }
    requires narrow { width ≤ 256 }
    ensures covers { IfOk result (λ t. Covers D.least width (Image (source_rows from width) (D.member source.now))
        (D.member t)) }
    ensures width { IfOk result (λ t. D.width_of t ≡ width) }
    ensures range { RangeOnly (LargeMap from (source_rows from width) (D.member source.now)) result }
{
    let matrix = source_matrix(alloc, from, width)?;
    source.map(alloc, &matrix)
}

/// The exit's value, at a target of this width.
fn exit_image<D: Domain>(alloc: Global, exit: &D, from: u32, width: u32) -> Result<D, DomainFault>
    requires exit { D.width_of exit.now ≡ width - from }
    requires narrow { width ≤ 256 }
    ensures covers { IfOk result (λ t. Covers D.least width (Image (exit_rows from width) (D.member exit.now))
        (D.member t)) }
    ensures width { IfOk result (λ t. D.width_of t ≡ width) }
    ensures range { RangeOnly (LargeMap (width - from) (exit_rows from width) (D.member exit.now)) result }
{
    let matrix = exit_matrix(alloc, from, width)?;
    exit.map(alloc, &matrix)
}

/// The source's value and the exit's side by side.
fn beside<D: Domain>(
    alloc: Global,
    source: &D,
    exit: &D,
    from: u32,
    width: u32,
) -> Result<D, DomainFault>
    requires from { D.width_of source.now ≡ from }
    requires exit { D.width_of exit.now ≡ width - from }
    requires narrow { width ≤ 256 }
    ensures beside { IfOk result (IsBeside D.least D.member from width source.now exit.now) }
    ensures width { IfOk result (λ t. D.width_of t ≡ width) }
    ensures range { RangeOnly (LargeBeside D.least D.member from width source.now exit.now) result }
{
    let mut value = source_image(alloc, source, from, width)?;
    let exit = exit_image(alloc, exit, from, width)?;
    value.grow(alloc, &exit)?;
    Ok(value)
}

/// What an action makes of a value of width `from`, at a target of this width. `None` where a call finds nothing at the
/// exit class that it names.
pub(crate) fn sent<D: Domain>(
    alloc: Global,
    summaries: &Summaries<D>,
    action: &Action,
    met: &D,
    from: u32,
    width: u32,
) -> Result<Option<D>, DomainFault>
    requires from { D.width_of met.now ≡ from }
    requires narrow { width ≤ 256 }
    requires action { FitsAction from width action.now }
    requires exits { FitsCall D.width_of summaries.now.exits action.now }
    ensures sent { IfOk result (λ o. MatchOption o (HasNoExit (exit_of summaries.now.exits) action.now)
        (λ t. Acts D.least D.member (exit_of summaries.now.exits) from width action.now met.now t
        × (D.width_of t ≡ width))) }
    ensures range { RangeOnly (LargeAct D.least D.member (exit_of summaries.now.exits) from width action.now met.now)
        result }
{
    match action {
        Action::Map(matrix) => Ok(Some(met.map(alloc, matrix)?)),
        Action::Free(coordinate) => Ok(Some(met.free(alloc, *coordinate)?)),
        Action::Call { callee, class, .. } => match summaries.exit(*callee, *class) {
            None => Ok(None),
            Some(exit) => Ok(Some(beside(alloc, met, exit, from, width)?)),
        },
    }
}

//! Affine programs that are listed as numbers: the widths of the places, those of the exit classes and the entries,
//! each with their count in front; the count of the edges; and of each edge its source, 0 or 1 for a place or an exit
//! class with its number, its guard, its action and its duties. Equations are listed with their count in front, a map
//! as 0, the count of its rows and of each row the count of its terms with their terms, a coordinate that gets any
//! number as 1 and the coordinate, and a call as 2, its function, the exit class and the coordinates, with their count
//! in front.
use pungi_base::{Memory, Pos, Seq};
use pungi_domain::{Action, AffineEdge, AffineProgram, Equation, Matrix, Target};
use std::alloc::Global;

/// The next number of a list, and 0 past its end.
fn next(numbers: &[i64], at: &mut usize) -> i64 {
    let k = *at;
    if k < numbers.len() {
        *at = k + 1;
        return numbers[k];
    }
    0
}

fn small(numbers: &[i64], at: &mut usize) -> u32 {
    u32::try_from(next(numbers, at)).unwrap_or(0)
}

fn list(alloc: Global, numbers: &[i64], at: &mut usize) -> Result<Seq<u32>, Memory> {
    let mut all = Vec::new(alloc);
    for _ in 0..small(numbers, at) {
        all.push(small(numbers, at))?;
    }
    Ok(Seq::new(all))
}

fn equation(
    alloc: Global,
    numbers: &[i64],
    at: &mut usize,
    width: u32,
) -> Result<Equation, Memory> {
    let mut coefficients = Vec::new(alloc);
    for _ in 0..width {
        coefficients.push(next(numbers, at))?;
    }
    Ok(Equation {
        coefficients: Seq::new(coefficients),
    })
}

fn equations(
    alloc: Global,
    numbers: &[i64],
    at: &mut usize,
    width: u32,
) -> Result<Seq<Equation>, Memory> {
    let mut all = Vec::new(alloc);
    for _ in 0..small(numbers, at) {
        all.push(equation(alloc, numbers, at, width)?)?;
    }
    Ok(Seq::new(all))
}

fn row(alloc: Global, numbers: &[i64], at: &mut usize) -> Result<Seq<(u32, i64)>, Memory> {
    let mut row = Vec::new(alloc);
    for _ in 0..small(numbers, at) {
        let source = small(numbers, at);
        row.push((source, next(numbers, at)))?;
    }
    Ok(Seq::new(row))
}

fn matrix(alloc: Global, numbers: &[i64], at: &mut usize) -> Result<Matrix, Memory> {
    let mut rows = Vec::new(alloc);
    for _ in 0..small(numbers, at) {
        rows.push(row(alloc, numbers, at)?)?;
    }
    Ok(Matrix {
        rows: Seq::new(rows),
    })
}

fn call(alloc: Global, numbers: &[i64], at: &mut usize) -> Result<Action, Memory> {
    let callee = small(numbers, at);
    let class = small(numbers, at);
    let onto = list(alloc, numbers, at)?;
    Ok(Action::Call {
        callee,
        class,
        onto,
    })
}

fn action(alloc: Global, numbers: &[i64], at: &mut usize) -> Result<Action, Memory> {
    match next(numbers, at) {
        0 => Ok(Action::Map(matrix(alloc, numbers, at)?)),
        1 => Ok(Action::Free(small(numbers, at))),
        _ => call(alloc, numbers, at),
    }
}

fn target(numbers: &[i64], at: &mut usize) -> Target {
    if next(numbers, at) == 0 {
        return Target::Place(small(numbers, at));
    }
    Target::Exit(small(numbers, at))
}

fn edge(
    alloc: Global,
    numbers: &[i64],
    at: &mut usize,
    widths: &[u32],
) -> Result<AffineEdge, Memory> {
    let from = small(numbers, at);
    let width = widths.get(from as usize).copied().unwrap_or(0);
    let to = target(numbers, at);
    let guard = equations(alloc, numbers, at, width)?;
    let action = action(alloc, numbers, at)?;
    let duties = equations(alloc, numbers, at, width)?;
    Ok(AffineEdge {
        from,
        to,
        guard,
        action,
        duties,
    })
}

fn edges(
    alloc: Global,
    numbers: &[i64],
    at: &mut usize,
    widths: &[u32],
) -> Result<Seq<AffineEdge>, Memory> {
    let mut all = Vec::new(alloc);
    for _ in 0..small(numbers, at) {
        all.push(edge(alloc, numbers, at, widths)?)?;
    }
    Ok(Seq::new(all))
}

fn positions(alloc: Global, places: usize) -> Result<Seq<Pos>, Memory> {
    let mut all = Vec::new(alloc);
    for _ in 0..places {
        all.push(Pos { line: 1, col: 1 })?;
    }
    Ok(Seq::new(all))
}

/// The program that is listed.
pub(crate) fn program(alloc: Global, numbers: &[i64]) -> Result<AffineProgram, Memory> {
    let mut at = 0;
    let widths = list(alloc, numbers, &mut at)?;
    let exits = list(alloc, numbers, &mut at)?;
    let entries = list(alloc, numbers, &mut at)?;
    let edges = edges(alloc, numbers, &mut at, widths.as_slice())?;
    let at = positions(alloc, widths.len())?;
    Ok(AffineProgram {
        widths,
        at,
        exits,
        edges,
        entries,
    })
}

ghost use Rattle.std.specs.Prelude.{◌≡◌, ◌^◌, ◌∷◌, ◌++◌, [], pos, length, IfOk};
ghost use Rattle.pungi_domain.specs.Vectors.{IsMatrix, IsWithin};

use crate::equations::equation;
use pungi_affine::Span;
use pungi_base::{Memory, Seq};
use pungi_domain::{Domain, DomainFault, Matrix};
use std::alloc::Global;
use std::test::Fail;

fn with_row(
    alloc: Global,
    rows: Seq<Seq<(u32, i64)>>,
    source: u32,
) -> Result<Seq<Seq<(u32, i64)>>, Memory>
    ensures { IfOk result (λ r. r ≡ rows ++ ((source, pos 1) ∷ []) ∷ []) }
{
    let mut rows = rows;
    let row = vec![in alloc; (source, 1)]?;
    rows.push(Seq::new(row))?;
    Ok(rows)
}

fn identity(alloc: Global) -> Result<Matrix, Memory>
    ensures matrix { IfOk result (λ m. IsMatrix 3 m.rows) }
    ensures width { IfOk result (λ m. length m.rows ≡ 3) }
{
    let first = with_row(alloc, Seq::new(Vec::new(alloc)), 0)?;
    let second = with_row(alloc, first, 1)?;
    let rows = with_row(alloc, second, 2)?;
    Ok(Matrix { rows })
}

// The span with one more vector.
fn with(alloc: Global, span: Span, a: i128, b: i128, c: i128) -> Result<Span, DomainFault>
    requires width { span.width ≡ 3 }
    requires a { IsWithin (2 ^ 126) a }
    requires b { IsWithin (2 ^ 126) b }
    requires c { IsWithin (2 ^ 126) c }
    ensures { IfOk result (λ s. s.width ≡ 3) }
{
    let mut span = span;
    let vector = vec![in alloc; a, b, c]?;
    let _ = span.add_vector(alloc, vector.as_slice())?;
    Ok(span)
}

// The multiples of (1, i, i), for any number i.
fn plane(alloc: Global) -> Result<Span, DomainFault>
    ensures { IfOk result (λ s. s.width ≡ 3) }
{
    let none = Span::none(alloc, 3)?;
    let first = with(alloc, none, 1, 0, 0)?;
    with(alloc, first, 1, 1, 1)
}

// A copy in any domain.
fn copy_of<D: Domain>(alloc: Global, value: &D) -> Result<D, DomainFault>
    ensures { IfOk result (λ s. s ≡ value.now) }
{
    value.copy(alloc)
}

// Whether the outcome is the fault that reports this row.
fn tells(outcome: Result<Span, DomainFault>, row: &[i128]) -> bool {
    let Err(DomainFault::Range(told)) = outcome else {
        return false;
    };
    told.as_slice() == row
}

// How many vectors span the outcome.
fn dimension_of(outcome: Result<Span, DomainFault>) -> Option<u32> {
    match outcome {
        Ok(span) => Some(span.dimension()),
        Err(_) => None,
    }
}

fn is_plane(alloc: Global, span: &Span) -> Result<bool, Memory>
    requires { span.now.width ≡ 3 }
{
    let within = equation(alloc, 0, 1, -1)?;
    let across = equation(alloc, 0, 1, 0)?;
    Ok(span.dimension() == 2 && span.holds(&within) && !span.holds(&across))
}

fn has_images(alloc: Global, span: &Span) -> Result<bool, Memory>
    requires { span.now.width ≡ 3 }
{
    let identity = identity(alloc)?;
    let across = equation(alloc, 0, 1, 0)?;
    Ok(
        dimension_of(span.map(alloc, &identity)) == Some(2)
            && dimension_of(span.free(alloc, 2)) == Some(3)
            && dimension_of(span.meet(alloc, &across)) == Some(1)
            && dimension_of(copy_of(alloc, span)) == Some(2),
    )
}

#[test]
fn span_of_two_vectors(rt: HostRuntime) -> Result<(), Fail> {
    let span = plane(rt.alloc())?;
    assert!(rt; is_plane(rt.alloc(), &span)?);
    assert!(rt; has_images(rt.alloc(), &span)?);
    Ok(())
}

fn takes_vectors(alloc: Global, span: &mut Span) -> Result<bool, DomainFault>
    requires { span.old.width ≡ 3 }
{
    let inside = span.add_vector(alloc, &[3, 2, 2])?;
    let outside = span.add_vector(alloc, &[1, 0, 1])?;
    Ok(!inside && outside && span.dimension() == 3)
}

#[test]
fn vectors_in_and_out_of_a_span(rt: HostRuntime) -> Result<(), Fail> {
    let mut span = plane(rt.alloc())?;
    assert!(rt; takes_vectors(rt.alloc(), &mut span)?);
    Ok(())
}

fn grows_once(alloc: Global, span: &mut Span, other: &Span) -> Result<bool, DomainFault>
    requires span { span.old.width ≡ 3 }
    requires other { other.now.width ≡ 3 }
    ensures { span.new.width ≡ 3 }
{
    let first = span.grow(alloc, other)?;
    let second = span.grow(alloc, other)?;
    Ok(first && !second)
}

fn grows_by_a_plane(alloc: Global, span: &mut Span) -> Result<bool, DomainFault>
    requires { span.old.width ≡ 3 }
    ensures { span.new.width ≡ 3 }
{
    let plane = plane(alloc)?;
    grows_once(alloc, span, &plane)
}

fn grows_by_all(alloc: Global, span: &mut Span) -> Result<bool, DomainFault>
    requires { span.old.width ≡ 3 }
{
    let all = Span::any(alloc, 3)?;
    span.grow(alloc, &all)
}

fn grows_to_all(alloc: Global, span: &mut Span) -> Result<bool, DomainFault>
    requires { span.old.width ≡ 3 }
{
    let by_plane = grows_by_a_plane(alloc, span)? && span.dimension() == 2;
    Ok(by_plane && grows_by_all(alloc, span)? && span.dimension() == 3)
}

#[test]
fn spans_that_grow(rt: HostRuntime) -> Result<(), Fail> {
    let mut span = Span::none(rt.alloc(), 3)?;
    assert!(rt; grows_to_all(rt.alloc(), &mut span)?);
    Ok(())
}

#[test]
fn large_rows_are_told(rt: HostRuntime) -> Result<(), Fail> {
    let alloc = rt.alloc();
    let none = Span::none(alloc, 3)?;
    assert!(rt; tells(with(alloc, none, 0, 2, 4294967298), &[0, 1, 2147483649]));
    let span = with(alloc, Span::none(alloc, 3)?, 2, 4294967296, 0)?;
    assert_eq!(rt; span.dimension(), 1);
    let outcome = with(alloc, span, 0, 1, 2147483648);
    assert!(rt; tells(outcome, &[1, 0, -4611686018427387904]));
    Ok(())
}

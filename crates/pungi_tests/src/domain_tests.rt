ghost use Rattle.std.specs.Prelude.{◌≡◌, ◌^◌, IfOk};
ghost use Rattle.pungi_domain.specs.Vectors.{IsWithin};

use crate::equations::equation;
use pungi_base::Seq;
use pungi_domain::{Domain, Flat, Matrix};
use std::alloc::Global;
use std::test::Fail;

// The multiples of 1, b, c.
fn multiples(alloc: Global, b: i64, c: i64) -> Result<Flat, Fail>
    requires b { IsWithin (2 ^ 20) b }
    requires c { IsWithin (2 ^ 20) c }
    ensures { IfOk result (λ s. s.width ≡ 3) }
{
    let second = equation(alloc, b, -1, 0)?;
    let third = equation(alloc, c, 0, -1)?;
    let all = Flat::any(alloc, 3)?;
    let first = all.meet(alloc, &second)?;
    let both = first.meet(alloc, &third)?;
    Ok(both)
}

// Whether the constants 0 and 0 are no longer given once 1 and 1 are there too.
fn drops_constants(alloc: Global, flat: &mut Flat, other: &Flat) -> Result<bool, Fail>
    requires flat { flat.old.width ≡ 3 }
    requires other { other.now.width ≡ 3 }
{
    let equal = equation(alloc, 0, 1, -1)?;
    let second = equation(alloc, 0, 1, 0)?;
    let held = flat.holds(&equal);
    let grown = flat.grow(alloc, other)?;
    Ok(held && grown && !flat.holds(&equal) && !flat.holds(&second))
}

fn drops_constants_of_ones(alloc: Global, flat: &mut Flat) -> Result<bool, Fail>
    requires { flat.old.width ≡ 3 }
{
    let other = multiples(alloc, 1, 1)?;
    drops_constants(alloc, flat, &other)
}

#[test]
fn growth_drops_constants(rt: HostRuntime) -> Result<(), Fail> {
    let mut flat = multiples(rt.alloc(), 0, 0)?;
    assert!(rt; drops_constants_of_ones(rt.alloc(), &mut flat)?);
    Ok(())
}

// Whether the first constant alone is given.
fn holds_first(alloc: Global, flat: &Flat) -> Result<bool, Fail>
    requires { flat.now.width ≡ 3 }
{
    let first = equation(alloc, -1, 1, 0)?;
    let equal = equation(alloc, 0, 1, -1)?;
    Ok(flat.holds(&first) && !flat.holds(&equal))
}

// Whether it is, of a copy without its third coordinate.
fn frees_third(alloc: Global, flat: &Flat) -> Result<bool, Fail>
    requires { flat.now.width ≡ 3 }
{
    let copy = flat.copy(alloc)?;
    let freed = copy.free(alloc, 2)?;
    holds_first(alloc, &freed)
}

#[test]
fn free_drops_a_constant(rt: HostRuntime) -> Result<(), Fail> {
    let flat = multiples(rt.alloc(), 1, 1)?;
    assert!(rt; frees_third(rt.alloc(), &flat)?);
    Ok(())
}

#[test]
fn image_of_the_zero_vector(rt: HostRuntime) -> Result<(), Fail> {
    let alloc = rt.alloc();
    let rows = Seq::new(Vec::new(alloc));
    let mut image = Flat::none(alloc, 3)?.map(alloc, &Matrix { rows })?;
    assert!(rt; image.grow(alloc, &Flat::any(alloc, 0)?)?);
    Ok(())
}

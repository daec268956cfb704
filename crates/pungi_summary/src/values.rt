ghost use Rattle.std.specs.Prelude.{◌≡◌, ◌+◌, ◌-◌, ◌<◌, ◌≤◌, Ok, Some, true, false, length, IfOk};
ghost use Rattle.std.specs.List.{All};
ghost use Rattle.pungi_domain.specs.Spans.{LargeGrow};
ghost use Rattle.pungi_fixpoint.specs.Turns.{RangeOnly};
ghost use Rattle.pungi_summary.specs.Results.{AreNone};
ghost use Rattle.pungi_summary.specs.Values.{AreGrown, FitGrowth, IsGrown, LargeGrowth, exits_room, room_of};

use pungi_base::{Memory, Seq};
use pungi_domain::{Domain, DomainFault};
use std::alloc::Global;

/// A value after another one was taken in.
#[derive(Drop)]
struct ValueWith<D> {
    value: D,
    /// Whether that changed anything.
    grew: bool,
}

/// The values of a function's exit classes after others were taken in.
#[derive(Drop)]
pub(crate) struct ExitsWith<D> {
    pub(crate) values: Seq<Option<D>>,
    /// Whether that changed anything.
    pub(crate) grew: bool,
}

/// A value with another one taken in.
fn taken_in<D: Domain>(alloc: Global, old: &D, added: &D) -> Result<ValueWith<D>, DomainFault>
    requires { D.width_of added.now ≡ D.width_of old.now }
    ensures grown { IfOk result (λ g. IsGrown D.least D.member D.width_of old.now added.now g.value) }
    ensures rose { IfOk result (λ g. g.grew ≡ true
        → room_of D.width_of D.rank (Some g.value) < room_of D.width_of D.rank (Some old.now)) }
    ensures unchanged { IfOk result (λ g. g.grew ≡ false → g.value ≡ old.now) }
    ensures range { RangeOnly (LargeGrow (D.width_of old.now) (D.member old.now) (D.member added.now)) result }
{
    let mut value = old.copy(alloc)?;
    let grew = value.grow(alloc, added)?;
    Ok(ValueWith { value, grew })
}

/// The values of a function's exit classes with those of an annotation taken in.
pub(crate) fn all_taken_in<D: Domain>(
    alloc: Global,
    old: &[Option<D>],
    added: &[D],
) -> Result<ExitsWith<D>, DomainFault>
    requires { FitGrowth D.width_of old.now added.now }
    ensures grown { IfOk result (λ g. AreGrown D.least D.member D.width_of old.now added.now g.values) }
    ensures rose { IfOk result (λ g. g.grew ≡ true
        → exits_room D.width_of D.rank g.values < exits_room D.width_of D.rank old.now) }
    ensures unchanged { IfOk result (λ g. g.grew ≡ false → g.values ≡ old.now) }
    ensures range { RangeOnly (LargeGrowth D.width_of D.member old.now added.now) result }
{
    let mut values = Seq::new(Vec::new(alloc));
    let mut grew = false;
    for class in 0..added.len() {
        if let Some(value) = &old[class] {
            let grown = taken_in(alloc, value, &added[class])?;
            grew = grew || grown.grew;
            values.push(Some(grown.value))?;
        }
    }
    Ok(ExitsWith { values, grew })
}

/// For each width the value of no vectors.
pub(crate) fn no_vectors<D: Domain>(alloc: Global, widths: &[u32]) -> Result<Seq<Option<D>>, Memory>
    requires { All (λ w. w ≤ 256) widths.now }
    ensures { IfOk result (AreNone D.least D.member D.width_of widths.now) }
{
    let mut values = Seq::new(Vec::new(alloc));
    for width in widths {
        match D::none(alloc, *width) {
            Ok(value) => values.push(Some(value))?,
            Err(_) => return Err(Memory),
        }
    }
    Ok(values)
}

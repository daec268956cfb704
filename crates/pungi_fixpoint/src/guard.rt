ghost use Rattle.std.specs.Prelude.{◌≡◌, IfOk};
ghost use Rattle.std.specs.List.{All};
ghost use Rattle.pungi_domain.specs.Builds.{IsMet, LargeMet};
ghost use Rattle.pungi_domain.specs.Vectors.{IsEquation};
ghost use Rattle.pungi_fixpoint.specs.Turns.{RangeOnly, or_else};

use pungi_domain::{Domain, DomainFault, Equation};
use std::alloc::Global;

/// A value after it met the equations in order. `None` where there are none: it is the same value.
pub(crate) fn met<D: Domain>(
    alloc: Global,
    source: &D,
    guard: &[Equation],
) -> Result<Option<D>, DomainFault>
    requires { All (λ e. IsEquation (D.width_of source.now) e.coefficients) guard.now }
    ensures met { IfOk result (λ o. IsMet D.least D.member (D.width_of source.now) guard.now source.now
        (or_else o source.now)) }
    ensures width { IfOk result (λ o. D.width_of (or_else o source.now) ≡ D.width_of source.now) }
    ensures range { RangeOnly (LargeMet D.least D.member (D.width_of source.now) guard.now source.now) result }
{
    let mut value: Option<D> = None;
    for equation in guard {
        value = match &value {
            None => Some(source.meet(alloc, equation)?),
            Some(value) => Some(value.meet(alloc, equation)?),
        };
    }
    Ok(value)
}

/// What met the equations, or the source where there are none.
pub(crate) fn or_source<'a, D>(met: &'a Option<D>, source: &'a D) -> &'a D
    ensures { result.now ≡ or_else met.now source.now }
{
    match met {
        None => source,
        Some(value) => value,
    }
}

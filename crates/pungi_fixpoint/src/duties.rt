ghost use Rattle.std.specs.Prelude.{◌≡◌, ◌<◌, Ok, true, false, length};
ghost use Rattle.std.specs.List.{All};
ghost use Rattle.pungi_domain.specs.Annotations.{MeetsAll};
ghost use Rattle.pungi_domain.specs.Builds.{IsMet, LargeMet};
ghost use Rattle.pungi_domain.specs.Vectors.{Vector, IsEquation};
ghost use Rattle.pungi_fixpoint.specs.Turns.{RangeOnly};

use crate::guard::{met, or_source};
use pungi_domain::{AffineEdge, Domain, DomainFault, Equation};
use std::alloc::Global;

/// Whether all members are known to meet each of the equations.
fn all_hold<D: Domain>(value: &D, equations: &[Equation]) -> bool
    requires { All (λ e. IsEquation (D.width_of value.now) e.coefficients) equations.now }
    ensures holds { result ≡ true → (v : Vector) → D.member value.now v → MeetsAll equations.now v }
    ensures fails { D.least ≡ true → result ≡ false → (v : Vector) × D.member value.now v
        × (MeetsAll equations.now v → ⊥) }
    ensures some { result ≡ false → 0 < length equations.now }
{
    for equation in equations {
        if !value.holds(equation) {
            return false;
        }
    }
    true
}

/// Whether a duty of an edge fails for some vector of its source.
pub(crate) fn fails<D: Domain>(
    alloc: Global,
    edge: &AffineEdge,
    source: &D,
) -> Result<bool, DomainFault>
    requires guard { All (λ e. IsEquation (D.width_of source.now) e.coefficients) edge.now.guard }
    requires duties { All (λ e. IsEquation (D.width_of source.now) e.coefficients) edge.now.duties }
    ensures safe { result ≡ Ok false → (v : Vector) → D.member source.now v → MeetsAll edge.now.guard v
        → MeetsAll edge.now.duties v }
    ensures some { result ≡ Ok true → 0 < length edge.now.duties }
    ensures fails { D.least ≡ true → result ≡ Ok true → (m : D)
        × IsMet D.least D.member (D.width_of source.now) edge.now.guard source.now m
        × ((v : Vector) × D.member m v × (MeetsAll edge.now.duties v → ⊥)) }
    ensures range { RangeOnly (LargeMet D.least D.member (D.width_of source.now) edge.now.guard source.now) result }
{
    if edge.duties.is_empty() {
        return Ok(false);
    }
    let met = met(alloc, source, edge.guard.as_slice())?;
    let holds = all_hold(or_source(&met, source), edge.duties.as_slice());
    Ok(!holds)
}

//! Equations for the tests.
ghost use Rattle.std.specs.Prelude.{◌^◌, IfOk};
ghost use Rattle.pungi_domain.specs.Vectors.{IsWithin, IsEquation};

use pungi_base::{Memory, Seq};
use pungi_domain::Equation;
use std::alloc::Global;

/// `a * x + b * y + c * z = 0`, of a vector `(x, y, z)`.
pub(crate) fn equation(alloc: Global, a: i64, b: i64, c: i64) -> Result<Equation, Memory>
    requires b { IsWithin (2 ^ 20) b }
    requires c { IsWithin (2 ^ 20) c }
    ensures { IfOk result (λ e. IsEquation 3 e.coefficients) }
{
    let coefficients = vec![in alloc; a, b, c]?;
    Ok(Equation {
        coefficients: Seq::new(coefficients),
    })
}

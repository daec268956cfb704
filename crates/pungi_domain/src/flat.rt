ghost use Rattle.std.specs.Prelude.{◌≡◌, ℕ, ◌+◌, ◌<◌, ◌≤◌, ℤ, pos, ◌+ℤ◌, ◌*ℤ◌, length, Bool, true, false, IfOk, OnOk};
ghost use Rattle.std.specs.Prelude.{OnErr};
ghost use Rattle.std.specs.Prelude.{Some, None};
ghost use Rattle.pungi_domain.specs.Flat.{FlatMember, flat_rank, AreConstants};
ghost use Rattle.pungi_domain.specs.Vectors.{Vector, dot, IsEquation};
ghost use Rattle.pungi_domain.specs.FlatLaws.{flat_same, flat_zero, flat_sum};

use crate::constants::{
    Unsettled, all_free, all_zero, constants_hold, image_constants, join, known_sum,
    meet_constants, solution,
};
use crate::{Domain, DomainFault, Equation, Matrix};
use pungi_base::Seq;
use std::alloc::Global;
use std::marker::Model;

/// The domain of constants: a value knows of some coordinates which constant multiple of the leading one they are
/// (Kildall 1973). A constant over 2^31 in absolute value is not kept. The calls never answer `Range`.
#[derive(Drop)]
pub struct Flat {
    width: u32,
    constants: Option<Seq<Option<i64>>>,
}

impl Model for Flat {
    ghost use Rattle.pungi_domain.specs.Flat.{FlatState, IsFlat};

    ghost Value = { FlatState };

    ghost view = { λ f. record { width = f.width; constants = f.constants } };

    ghost invariant = { λ f. IsFlat f.width f.constants };
}

impl Flat {
    fn zero(width: u32) -> Flat
        requires { width ≤ 256 }
        ensures { result ≡ record { width = width; constants = None } }
    {
        Flat {
            width,
            constants: None,
        }
    }

    fn with_constants(width: u32, constants: Seq<Option<i64>>) -> Flat
        requires { AreConstants width constants }
        ensures { result ≡ record { width = width; constants = Some constants } }
    {
        Flat {
            width,
            constants: Some(constants),
        }
    }
}

impl Domain for Flat {
    ghost least = { false };

    ghost width_of = { λ s. s.width };

    ghost member = { FlatMember };

    ghost rank = { flat_rank };

    fn none(_alloc: Global, width: u32) -> Result<Flat, DomainFault> {
        Ok(Flat::zero(width))
    }

    fn any(alloc: Global, width: u32) -> Result<Flat, DomainFault> {
        let constants = all_free(alloc, width)?;
        Ok(Flat::with_constants(width, constants))
    }

    fn copy(&self, alloc: Global) -> Result<Flat, DomainFault> {
        let constants = match &self.constants {
            None => None,
            Some(constants) => Some(constants.copy(alloc)?),
        };
        Ok(Flat {
            width: self.width,
            constants,
        })
    }

    fn grow(&mut self, alloc: Global, from: &Flat) -> Result<bool, DomainFault> {
        if let Some(constants) = &mut self.constants {
            let Some(others) = &from.constants else {
                return Ok(false);
            };
            return Ok(join(constants, others.as_slice()));
        }
        let Some(others) = &from.constants else {
            return Ok(false);
        };
        self.constants = Some(others.copy(alloc)?);
        Ok(true)
    }

    fn map(&self, alloc: Global, matrix: &Matrix) -> Result<Flat, DomainFault> {
        let width = matrix.rows.len() as u32;
        let Some(constants) = &self.constants else {
            return Ok(Flat::zero(width));
        };
        let images = image_constants(alloc, constants.as_slice(), matrix.rows.as_slice())?;
        Ok(Flat::with_constants(width, images))
    }

    fn free(&self, alloc: Global, coordinate: u32) -> Result<Flat, DomainFault> {
        let mut constants = match &self.constants {
            None => all_zero(alloc, self.width)?,
            Some(constants) => constants.copy(alloc)?,
        };
        constants.set(coordinate as usize, None);
        Ok(Flat::with_constants(self.width, constants))
    }

    fn meet(&self, alloc: Global, equation: &Equation) -> Result<Flat, DomainFault> {
        let Some(constants) = &self.constants else {
            return Ok(Flat::zero(self.width));
        };
        let constants = meet_constants(alloc, constants, equation.coefficients.as_slice())?;
        Ok(Flat::with_constants(self.width, constants))
    }

    fn holds(&self, equation: &Equation) -> bool
        requires { IsEquation self.now.width equation.now.coefficients }
        ensures members { result ≡ true → (v : Vector) → FlatMember self.now v
            → dot equation.now.coefficients v ≡ pos 0 }
        ensures least { false ≡ true → result ≡ false
            → (v : Vector) × FlatMember self.now v × (dot equation.now.coefficients v ≡ pos 0 → ⊥) }
        ensures only { result ≡ false → (v : Vector) × FlatMember self.now v
            × (dot equation.now.coefficients v ≡ pos 0 → ⊥) }
    {
        let Some(constants) = &self.constants else {
            return true;
        };
        constants_hold(constants.as_slice(), equation.coefficients.as_slice())
    }

    ghost same = { flat_same };

    ghost zero = { flat_zero };

    ghost sum = { flat_sum };
}

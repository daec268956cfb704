ghost use Rattle.std.specs.Prelude.{◌≡◌, negsuc, length, true, IfOk};
ghost use Rattle.pungi_shape.specs.Forms.{zero_form, unit, plus, minus, times, constant, factors};
ghost use Rattle.pungi_shape.specs.Forms.{IsFactor, IsStorable};

use crate::factors::{is_one, push_factor, scaled, spread, sum};
use pungi_base::{Memory, Seq};
use std::alloc::Global;
use std::marker::Model;

/// A linear form over the coordinates of a vector, by its coefficients. Contracts see one a coordinate.
#[derive(Drop)]
pub struct Form {
    width: u32,
    /// The coefficients other than 0, each with its coordinate, in order.
    factors: Seq<(u32, i64)>,
}

impl Model for Form {
    ghost use Rattle.std.specs.Prelude.{ℤ, List};
    ghost use Rattle.pungi_shape.specs.Forms.{IsSparse, dense};

    ghost Value = { List ℤ };

    ghost view = { λ f. dense f.width f.factors };

    ghost invariant = { λ f. IsSparse f.width f.factors };
}

impl Form {
    /// The form 0.
    pub fn zero(alloc: Global, width: u32) -> Form
        ensures { result ≡ zero_form width }
    {
        Form {
            width,
            factors: Seq::new(Vec::new(alloc)),
        }
    }

    /// A multiple of a coordinate.
    fn multiple(alloc: Global, width: u32, k: u32, n: i64) -> Result<Form, Memory>
        requires { IsFactor n }
        ensures { IfOk result (λ f. f ≡ times n (unit width k)) }
    {
        if width <= k {
            return Ok(Form::zero(alloc, width));
        }
        let mut factors = Seq::new(Vec::new(alloc));
        push_factor(&mut factors, k, n)?;
        Ok(Form { width, factors })
    }

    /// A coordinate.
    pub fn unit(alloc: Global, width: u32, k: u32) -> Result<Form, Memory>
        ensures { IfOk result (λ f. f ≡ unit width k) }
    {
        Form::multiple(alloc, width, k, 1)
    }

    /// A number: so many times the leading coordinate.
    pub fn constant(alloc: Global, width: u32, n: i64) -> Result<Form, Memory>
        requires { IsFactor n }
        ensures { IfOk result (λ f. f ≡ constant width n) }
    {
        Form::multiple(alloc, width, 0, n)
    }

    /// How many coordinates there are.
    pub fn width(&self) -> u32
        ensures { result ≡ length self.now }
    {
        self.width
    }

    /// The same form.
    pub fn copy(&self, alloc: Global) -> Result<Form, Memory>
        ensures { IfOk result (λ f. f ≡ self.now) }
    {
        if self.factors.is_empty() {
            return Ok(Form::zero(alloc, self.width));
        }
        let factors = self.factors.copy(alloc)?;
        Ok(Form {
            width: self.width,
            factors,
        })
    }

    /// The sum.
    pub fn plus(&self, alloc: Global, other: &Form) -> Result<Form, Memory>
        requires width { length self.now ≡ length other.now }
        requires storable { IsStorable (plus self.now other.now) }
        ensures { IfOk result (λ f. f ≡ plus self.now other.now) }
    {
        let factors = sum(alloc, self.factors.as_slice(), other.factors.as_slice())?;
        Ok(Form {
            width: self.width,
            factors,
        })
    }

    /// The multiple.
    pub fn times(&self, alloc: Global, n: i64) -> Result<Form, Memory>
        requires { IsStorable (times n self.now) }
        ensures { IfOk result (λ f. f ≡ times n self.now) }
    {
        if n == 0 {
            return Ok(Form::zero(alloc, self.width));
        }
        let factors = scaled(alloc, n, self.factors.as_slice())?;
        Ok(Form {
            width: self.width,
            factors,
        })
    }

    /// The difference.
    pub fn minus(&self, alloc: Global, other: &Form) -> Result<Form, Memory>
        requires width { length self.now ≡ length other.now }
        requires opposite { IsStorable (times (negsuc 0) other.now) }
        requires storable { IsStorable (minus self.now other.now) }
        ensures { IfOk result (λ f. f ≡ minus self.now other.now) }
    {
        let opposite = other.times(alloc, -1)?;
        self.plus(alloc, &opposite)
    }

    /// Whether it is a coordinate.
    pub fn is_unit(&self, k: u32) -> bool
        ensures yes { result ≡ true → self.now ≡ unit (length self.now) k }
        ensures no { self.now ≡ unit (length self.now) k → result ≡ true }
    {
        if k < self.width {
            is_one(self.factors.as_slice(), k)
        } else {
            self.factors.is_empty()
        }
    }

    /// The coefficients other than 0, each with its coordinate, in order: a row of a matrix.
    pub fn into_factors(self) -> Seq<(u32, i64)>
        ensures { result ≡ factors self }
    {
        let Form { width: _, factors } = self;
        factors
    }

    /// The coefficients, one a coordinate: a linear equation.
    pub fn coefficients(&self, alloc: Global) -> Result<Seq<i64>, Memory>
        ensures { IfOk result (λ cs. cs ≡ self.now) }
    {
        spread(alloc, self.width, self.factors.as_slice())
    }
}

ghost use Rattle.std.specs.Prelude.{◌≡◌, ℕ, ◌+◌, ◌<◌, ◌≤◌, ℤ, pos, ◌+ℤ◌, ◌*ℤ◌, length, Bool, true, false, IfOk, OnOk};
ghost use Rattle.std.specs.Prelude.{OnErr};
ghost use Rattle.pungi_domain.specs.Vectors.{Vector, dot, image, IsEquation, IsMatrix, Image, Freed, Meeting, Either};
ghost use Rattle.pungi_domain.specs.Vectors.{Follows};
ghost use Rattle.pungi_domain.specs.Spans.{Zero, LargeGrow, LargeMap, LargeFree, LargeMeet, Never};
ghost use Rattle.pungi_domain.specs.Domain.{RangeIs};

use crate::{DomainFault, Equation, Matrix};
use std::alloc::Global;

/// An abstract domain: each value describes a set of vectors of whole numbers, its members.
///
/// Coordinate 0 of a vector stands for the constant. Each call keeps all members. Where the domain is one of least
/// values, each result is besides the least that holds what it has to hold, seen through equations; the least values
/// are spans, and `Range` comes exactly where the call is large.
pub trait Domain: Sized + Drop {
    /// Whether the domain is one of least values.
    ghost least: { Bool };

    /// How many coordinates the vectors have.
    ghost width_of: { Self → ℕ };

    /// The vectors that a value describes.
    ghost member: { Self → (ℕ → ℤ) → Type 0 };

    /// How far a value has grown: at most its width plus 1.
    ghost rank: { Self → ℕ };

    /// The value that describes no vectors but those that every value does.
    fn none(alloc: Global, width: u32) -> Result<Self, DomainFault>
        requires { width ≤ 256 }
        ensures width { IfOk result (λ s. width_of s ≡ width) }
        ensures least { least ≡ true → IfOk result (λ s. Follows width (Zero width) (member s)) }
        ensures range { RangeIs least Never result };

    /// The value that describes all vectors.
    fn any(alloc: Global, width: u32) -> Result<Self, DomainFault>
        requires { width ≤ 256 }
        ensures width { IfOk result (λ s. width_of s ≡ width) }
        ensures members { IfOk result (λ s. (v : Vector) → member s v) }
        ensures range { RangeIs least Never result };

    /// The same value.
    fn copy(&self, alloc: Global) -> Result<Self, DomainFault>
        ensures same { IfOk result (λ s. s ≡ self.now) }
        ensures range { RangeIs least Never result };

    /// Takes in the members of another value, and returns whether that changed anything.
    fn grow(&mut self, alloc: Global, from: &Self) -> Result<bool, DomainFault>
        requires { width_of from.now ≡ width_of self.old }
        ensures width { width_of self.new ≡ width_of self.old }
        ensures kept { (v : Vector) → member self.old v → member self.new v }
        ensures taken { OnOk result ((v : Vector) → member from.now v → member self.new v) }
        ensures unchanged { result ≡ Ok false → self.new ≡ self.old }
        ensures rose { result ≡ Ok true → rank self.old < rank self.new }
        ensures bounded { rank self.new ≤ width_of self.new + 1 }
        ensures least { least ≡ true → OnOk result (Follows (width_of self.old)
            (Either (member self.old) (member from.now)) (member self.new)) }
        ensures range { RangeIs least (LargeGrow (width_of self.old) (member self.old) (member from.now)) result }
        ensures err { OnErr result (self.new ≡ self.old) };

    /// Describes the images of the members.
    fn map(&self, alloc: Global, matrix: &Matrix) -> Result<Self, DomainFault>
        requires fits { IsMatrix (width_of self.now) matrix.now.rows }
        requires narrow { length matrix.now.rows ≤ 256 }
        ensures width { IfOk result (λ s. width_of s ≡ length matrix.now.rows) }
        ensures members { IfOk result (λ s. (v : Vector) → member self.now v → member s (image matrix.now.rows v)) }
        ensures least { least ≡ true → IfOk result (λ s. Follows (length matrix.now.rows)
            (Image matrix.now.rows (member self.now)) (member s)) }
        ensures range { RangeIs least (LargeMap (width_of self.now) matrix.now.rows (member self.now)) result };

    /// Describes the members with any number at a coordinate.
    fn free(&self, alloc: Global, coordinate: u32) -> Result<Self, DomainFault>
        requires behind { 0 < coordinate }
        requires within { coordinate < width_of self.now }
        ensures width { IfOk result (λ s. width_of s ≡ width_of self.now) }
        ensures members { IfOk result (λ s. (v : Vector) → Freed coordinate (member self.now) v → member s v) }
        ensures least { least ≡ true → IfOk result (λ s. Follows (width_of self.now)
            (Freed coordinate (member self.now)) (member s)) }
        ensures range { RangeIs least (LargeFree (width_of self.now) coordinate (member self.now)) result };

    /// Describes the members that meet an equation.
    fn meet(&self, alloc: Global, equation: &Equation) -> Result<Self, DomainFault>
        requires { IsEquation (width_of self.now) equation.now.coefficients }
        ensures width { IfOk result (λ s. width_of s ≡ width_of self.now) }
        ensures members { IfOk result (λ s. (v : Vector) → Meeting equation.now.coefficients (member self.now) v
            → member s v) }
        ensures least { least ≡ true → IfOk result (λ s. Follows (width_of self.now)
            (Meeting equation.now.coefficients (member self.now)) (member s)) }
        ensures range { RangeIs least (LargeMeet (width_of self.now) equation.now.coefficients (member self.now))
            result };

    /// Whether all members are known to meet an equation.
    fn holds(&self, equation: &Equation) -> bool
        requires { IsEquation (width_of self.now) equation.now.coefficients }
        ensures members { result ≡ true → (v : Vector) → member self.now v → dot equation.now.coefficients v ≡ pos 0 }
        ensures least { least ≡ true → result ≡ false
            → (v : Vector) × member self.now v × (dot equation.now.coefficients v ≡ pos 0 → ⊥) };

    /// Only the coordinates below the width count.
    ghost same: { (s : Self) (u v : ℕ → ℤ) → ((i : ℕ) → i < width_of s → v i ≡ u i) → member s u → member s v };

    /// The vector 0 is a member.
    ghost zero: { (s : Self) → member s (λ _. pos 0) };

    /// Members are closed under sums and whole multiples.
    ghost sum: { (s : Self) (a b : ℤ) (u v : ℕ → ℤ) → member s u → member s v
        → member s (λ i. (a *ℤ u i) +ℤ (b *ℤ v i)) };
}

/// A domain of least values.
pub trait LeastDomain: Domain {
    ghost is_least: { Self.least ≡ true };
}

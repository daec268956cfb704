ghost use Rattle.std.specs.Prelude.{◌≡◌, ◌<◌, ◌^◌};
ghost use Rattle.pungi_shape.specs.Forms.{one_if};
ghost use Rattle.pungi_shape.specs.Bounds.{IsShape};
ghost use Rattle.pungi_shape.specs.Shapes.{holding_of_number, is_number, is_token, count_of_numbers, width_of};

use crate::{Holding, Shape};

/// What holds a number.
pub(crate) fn holding_of_number(n: i64) -> Holding
    ensures { result ≡ holding_of_number n }
{
    if -1 <= n && n <= 1 {
        Holding::Known(n as i8)
    } else {
        Holding::Number
    }
}

impl Holding {
    /// Whether a number is held.
    pub(crate) fn is_number(self) -> bool
        ensures { result ≡ is_number self }
    {
        match self {
            Holding::Known(_) => true,
            Holding::Number => true,
            Holding::Dead => false,
            Holding::Unset => false,
            Holding::Null => false,
            Holding::Text => false,
            Holding::Token(_) => false,
        }
    }

    /// Whether this token is held.
    pub(crate) fn is_token(self, t: u32) -> bool
        ensures { result ≡ is_token t self }
    {
        match self {
            Holding::Token(u) => u == t,
            Holding::Known(_) => false,
            Holding::Number => false,
            Holding::Dead => false,
            Holding::Unset => false,
            Holding::Null => false,
            Holding::Text => false,
        }
    }
}

/// How many numbers are held.
pub(crate) fn count_of_numbers(holdings: &[Holding]) -> usize
    ensures count { result ≡ count_of_numbers holdings.now }
    ensures few { result < 2 ^ 62 }
{
    let mut count = 0;
    for h in holdings {
        if h.is_number() {
            count += 1;
        }
    }
    count
}

/// 1 where a number is held, and else 0.
pub(crate) fn one_if_number(h: Holding) -> usize
    ensures { result ≡ one_if (is_number h) }
{
    if h.is_number() { 1 } else { 0 }
}

impl Shape {
    /// How many coordinates the vectors at a place with this shape have.
    pub(crate) fn width(&self) -> usize
        requires shape { IsShape self.now }
        requires fits { width_of self.now < 2 ^ 64 }
        ensures { result ≡ width_of self.now }
    {
        let vars = count_of_numbers(self.vars.as_slice());
        let entry = count_of_numbers(self.entry.as_slice());
        1 + vars + one_if_number(self.returned) + entry + self.made.len()
    }
}

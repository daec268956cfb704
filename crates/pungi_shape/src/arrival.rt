ghost use Rattle.std.specs.Prelude.{◌≡◌};

use crate::{Form, Shape};
use pungi_base::Seq;

/// What a scene arrives at.
pub struct Arrival {
    pub shape: Shape,
    /// The forms of its coordinates.
    pub rows: Seq<Form>,
    /// The balances of the tokens that nothing holds any more.
    pub drops: Seq<Form>,
}

impl Arrival {
    /// Its parts.
    pub(crate) fn into_parts(self) -> (Shape, Seq<Form>, Seq<Form>)
        ensures { result ≡ (self.shape, self.rows, self.drops) }
    {
        let Arrival { shape, rows, drops } = self;
        (shape, rows, drops)
    }

    /// The shape alone.
    pub(crate) fn into_shape(self) -> Shape
        ensures { result ≡ self.shape }
    {
        let Arrival {
            shape,
            rows: _,
            drops: _,
        } = self;
        shape
    }
}

impl Drop for Arrival {
    fn drop(self) {
        let Arrival {
            shape: _,
            rows: _,
            drops: _,
        } = self;
    }
}

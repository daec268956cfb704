ghost use Rattle.std.specs.Prelude.{◌≡◌};

use crate::{Form, Shape};
use pungi_base::Seq;

/// What the holders hold while a part of an instruction is done, with the numbers and the balances as linear forms over
/// the coordinates of the place at which the part began.
pub struct Scene {
    /// How many coordinates that place has.
    pub width: u32,
    pub shape: Shape,
    /// The number of each variable that holds one, and 0 for each other variable.
    pub vars: Seq<Form>,
    pub returned: Form,
    /// Those of the parameters' values at entry.
    pub entry: Seq<Form>,
    /// By token; none of a token that was merged into another.
    pub balances: Seq<Option<Form>>,
}

impl Scene {
    /// The shape alone.
    pub(crate) fn into_shape(self) -> Shape
        ensures { result ≡ self.shape }
    {
        let Scene {
            width: _,
            shape,
            vars: _,
            returned: _,
            entry: _,
            balances: _,
        } = self;
        shape
    }
}

impl Drop for Scene {
    fn drop(self) {
        let Scene {
            width: _,
            shape: _,
            vars: _,
            returned: _,
            entry: _,
            balances: _,
        } = self;
    }
}

ghost use Rattle.std.specs.Prelude.{◌≡◌};
ghost use Rattle.pungi_api.specs.Terms.{immortal_count};

/// The version of Python by which functions are judged: which objects' counts have to be right.
#[derive(Clone, Copy, Debug, PartialEq, Eq)]
pub enum Profile {
    /// Each object is counted.
    Python311,
    /// `Py_None`, `Py_True` and `Py_False` are immortal (PEP 683), and are not counted; each other object is.
    Python312,
}

impl Profile {
    /// How many static objects, from `Py_None` on, are not counted.
    pub fn immortal_count(self) -> u32
        ensures { result ≡ immortal_count self }
    {
        match self {
            Profile::Python311 => 0,
            Profile::Python312 => 3,
        }
    }
}

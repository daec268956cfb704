ghost use Rattle.std.specs.Prelude.{◌≡◌, IfOk};
ghost use Rattle.pungi_api.specs.Terms.{nothing_declared, counting_all};

use crate::Profile;
use pungi_base::{Memory, Seq};
use std::alloc::Global;

/// What a function is declared to do with references, besides what the manual has of all functions (Python/C API
/// Reference Manual 3.11, 'Reference Count Details': a function returns a new reference and borrows its arguments).
#[derive(Drop)]
pub struct Convention {
    /// Whether it returns a borrowed reference.
    pub borrowed: bool,
    /// The places, from 0, of the parameters whose reference it takes over.
    pub taken: Seq<u32>,
}

/// The terms under which a function is judged.
#[derive(Drop)]
pub struct Terms {
    pub profile: Profile,
    pub convention: Convention,
}

impl Convention {
    /// That of a function of which nothing is declared.
    pub fn none(alloc: Global) -> Convention
        ensures { result ≡ nothing_declared }
    {
        Convention {
            borrowed: false,
            taken: Seq::new(Vec::new(alloc)),
        }
    }

    /// The same convention.
    pub fn copy(&self, alloc: Global) -> Result<Convention, Memory>
        ensures { IfOk result (λ c. c ≡ self.now) }
    {
        let taken = self.taken.copy(alloc)?;
        Ok(Convention {
            borrowed: self.borrowed,
            taken,
        })
    }
}

impl Terms {
    /// Those where no configuration states any.
    pub fn manual(alloc: Global) -> Terms
        ensures { result ≡ counting_all }
    {
        Terms {
            profile: Profile::Python311,
            convention: Convention::none(alloc),
        }
    }

    /// The same terms.
    pub fn copy(&self, alloc: Global) -> Result<Terms, Memory>
        ensures { IfOk result (λ t. t ≡ self.now) }
    {
        let convention = self.convention.copy(alloc)?;
        Ok(Terms {
            profile: self.profile,
            convention,
        })
    }
}

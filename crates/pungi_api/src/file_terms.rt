ghost use Rattle.std.specs.Prelude.{◌≡◌, ◌++◌, ◌∷◌, [], IfOk, OnOk, IsTrue, is_none, option_map};
ghost use Rattle.std.specs.Option.{option_copied};
ghost use Rattle.pungi_api.specs.Terms.{declared_in, manual_terms, terms_of};

use crate::{Convention, Profile, Terms};
use indexmap::IndexMap;
use pungi_base::{Memory, Name};
use std::alloc::Global;
use std::marker::Model;

/// The terms under which the functions of a file are judged: the profile, and the convention of each function of which
/// one is declared.
#[derive(Drop)]
pub struct FileTerms {
    profile: Profile,
    conventions: IndexMap<u32, Convention>,
}

impl Model for FileTerms {
    ghost use Rattle.pungi_api.specs.Terms.{FileTerms as Stated};

    ghost Value = { Stated };

    ghost view = { λ t. record { profile = t.profile; conventions = t.conventions.entries } };
}

/// Adds the convention of a new name at the end.
fn add(
    conventions: &mut IndexMap<u32, Convention>,
    name: u32,
    convention: Convention,
) -> Result<(), Memory>
    requires { IsTrue (is_none (declared_in conventions.old.entries name)) }
    ensures { OnOk result (conventions.new.entries ≡ conventions.old.entries ++ (name, convention) ∷ []) }
{
    conventions.insert(name, convention)?;
    Ok(())
}

impl FileTerms {
    /// Those of the profile 3.11, where nothing is declared.
    pub fn manual(alloc: Global) -> FileTerms
        ensures { result ≡ manual_terms }
    {
        FileTerms::under(alloc, Profile::Python311)
    }

    /// Those of a profile, where nothing is declared.
    pub fn under(alloc: Global, profile: Profile) -> FileTerms
        ensures { result ≡ record { profile = profile; conventions = [] } }
    {
        FileTerms {
            profile,
            conventions: IndexMap::new(alloc),
        }
    }

    /// Declares a convention for the function of a name, of which none is declared.
    pub fn declare(&mut self, name: Name, convention: Convention) -> Result<(), Memory>
        requires { IsTrue (is_none (declared_in self.old.conventions name.0)) }
        ensures { OnOk result (self.new ≡ record self.old {
          conventions = self.old.conventions ++ (name.0, convention) ∷ [];
        }) }
    {
        add(&mut self.conventions, name.0, convention)?;
        Ok(())
    }

    /// The convention that is declared for the function of a name, if one is.
    pub fn declared(&self, name: Name) -> Option<&Convention>
        ensures { option_copied result ≡ declared_in self.now.conventions name.0 }
    {
        self.conventions.get(&name.0)
    }

    /// The terms under which the function of a name is judged.
    pub fn of(&self, alloc: Global, name: Name) -> Result<Terms, Memory>
        ensures { IfOk result (λ terms. terms ≡ terms_of self.now name.0) }
    {
        let convention = match self.declared(name) {
            Some(convention) => convention.copy(alloc)?,
            None => Convention::none(alloc),
        };
        Ok(Terms {
            profile: self.profile,
            convention,
        })
    }
}

ghost use Rattle.std.specs.Prelude.{◌≡◌, ◌∷◌, ◌-◌, ◌<◌, [], length, drop, Option, Some, None, OnOk, ℕ, ◌==◌, false};
ghost use Rattle.std.specs.Prelude.{is_some, IsTrue, nat_eq};
ghost use Rattle.pungi_types.specs.Names.{local_in};
ghost use Rattle.indexmap.specs.IndexMap.{get};
ghost use Rattle.pungi_scope.specs.LocalLog.{locals_of, IsLog};

use indexmap::IndexMap;
use pungi_base::{Memory, Name};
use pungi_types::Local;
use std::alloc::Global;
use std::marker::Model;

/// A local, and the one of the same name that it hides.
#[derive(Clone, Copy, Drop)]
pub(crate) struct Declared {
    pub(crate) local: Local,
    pub(crate) hidden: Option<Local>,
}

/// The locals in force at a place of a function, the latest first. One is found by its name at once.
#[derive(Drop)]
pub struct LocalNames {
    declared: Vec<Declared>,
    latest: IndexMap<u32, Local>,
}

impl Model for LocalNames {
    ghost use Rattle.std.specs.Prelude.{List, reverse};
    ghost use Rattle.pungi_types.specs.declared.local.Local.{Local};

    ghost Value = { List Local };

    ghost use Rattle.pungi_scope.specs.LocalLog.{locals_of, IsLog, Finds};

    ghost view = { λ n. locals_of (reverse n.declared.items) };

    ghost invariant = { λ n. IsLog (reverse n.declared.items) × Finds n.latest (locals_of (reverse n.declared.items)) };
}

impl LocalNames {
    /// No locals.
    pub fn new(alloc: Global) -> Self
        ensures { result ≡ [] }
    {
        LocalNames {
            declared: Vec::new(alloc),
            latest: IndexMap::new(alloc),
        }
    }

    /// How many locals are in force.
    pub fn len(&self) -> usize
        ensures { result ≡ length self.now }
    {
        self.declared.len()
    }

    /// The latest local of this name.
    pub fn get(&self, word: Name) -> Option<Local>
        ensures { result ≡ local_in self.now word.0 }
    {
        self.latest.get(&word.0).copied()
    }

    /// A local comes into force, and hides those of the same name.
    pub fn push(&mut self, local: Local) -> Result<(), Memory>
        ensures { OnOk result (self.new ≡ local ∷ self.old) }
    {
        let hidden = self.get(local.name);
        self.declared.push(Declared { local, hidden })?;
        if self.latest.insert(local.name.0, local).is_err() {
            self.declared.pop();
            return Err(Memory);
        }
        Ok(())
    }

    /// The latest local goes out of force, and what it hid is found again.
    fn pop(&mut self)
        ensures { self.new ≡ drop 1 self.old }
    {
        if let Some(declared) = self.declared.pop() {
            restore(&mut self.latest, declared.local.name, declared.hidden);
        }
    }

    /// The latest locals go out of force, until no more than so many are left.
    pub fn truncate(&mut self, count: usize)
        ensures { self.new ≡ drop (length self.old - count) self.old }
    {
        let more = self.len().saturating_sub(count);
        for _step in 0..more {
            self.pop();
        }
    }
}

/// Puts back what was found under a word before.
fn restore(latest: &mut IndexMap<u32, Local>, word: Name, hidden: Option<Local>)
    requires { IsTrue (is_some (get nat_eq latest.old word.0)) }
    ensures there { get nat_eq latest.new word.0 ≡ hidden }
    ensures others { (q : ℕ) → (word.0 == q) ≡ false → get nat_eq latest.new q ≡ get nat_eq latest.old q }
{
    match hidden {
        None => {
            latest.swap_remove(&word.0);
        }
        Some(local) => {
            if let Some(found) = latest.get_mut(&word.0) {
                *found = local;
            }
        }
    }
}

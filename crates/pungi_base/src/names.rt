ghost use Rattle.std.specs.Prelude.{◌≡◌, ◌<◌, ◌-◌, ◌^◌, ℕ, [], List, length, map, slice_get, Some, OnOk, OnErr, IfOk};
ghost use Rattle.std.specs.Prelude.{option_map};
ghost use Rattle.std.specs.Prelude.{Option, is_some, IfSome};
ghost use Rattle.pungi_base.specs.Names.{has_text, with_text, AreNames};

use crate::Memory;
use indexmap::IndexSet;
use std::alloc::Global;
use std::marker::Model;

/// The number of a text.
#[derive(Clone, Copy, Debug, PartialEq, Eq, PartialOrd, Ord, Hash)]
pub struct Name(pub u32);

/// Distinct texts in the order in which they came. A text keeps its number.
#[derive(Drop)]
pub struct Names {
    texts: IndexSet<Vec<u8>>,
}

impl Model for Names {
    ghost Value = { List (List ℕ) };

    ghost view = { λ n. map (λ t. t.items) n.texts.keys };

    ghost invariant = { λ n. AreNames (map (λ t. t.items) n.texts.keys) };
}

impl Names {
    /// No texts.
    pub fn new(alloc: Global) -> Self
        ensures { result ≡ [] }
    {
        Names {
            texts: IndexSet::new(alloc),
        }
    }

    /// How many texts there are.
    pub fn len(&self) -> usize
        ensures { result ≡ length self.now }
    {
        self.texts.len()
    }

    /// The number of a text, which is added last if it wasn't there. For want of memory nothing is added.
    pub fn number(&mut self, alloc: Global, text: &[u8]) -> Result<Name, Memory>
        requires { length self.old < 2 ^ 32 - 1 }
        ensures ok { OnOk result (self.new ≡ with_text self.old text.now) }
        ensures number { IfOk result (λ name. slice_get self.new name.0 ≡ Some text.now) }
        ensures names { OnOk result (AreNames self.new) }
        ensures err { OnErr result (self.new ≡ self.old) }
    {
        if let Some(name) = self.find(text) {
            return Ok(name);
        }
        let text = Vec::from_slice(alloc, text)?;
        let (index, _) = self.texts.insert_full(text)?;
        Ok(Name(index as u32))
    }

    /// The number of a text, if it is there.
    pub fn find(&self, text: &[u8]) -> Option<Name>
        ensures found { is_some result ≡ has_text self.now text.now }
        ensures number { IfSome result (λ name. slice_get self.now name.0 ≡ Some text.now) }
        ensures names { AreNames self.now }
    {
        match self.texts.get_index_of(text) {
            None => None,
            Some(index) => Some(Name(index as u32)),
        }
    }

    /// The text of a number.
    pub fn text(&self, name: Name) -> &[u8]
        requires { name.0 < length self.now }
        ensures { slice_get self.now name.0 ≡ Some result.now }
    {
        self.texts[name.0 as usize].as_slice()
    }
}

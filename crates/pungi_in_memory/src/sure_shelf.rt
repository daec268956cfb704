ghost use Rattle.std.specs.Prelude.{◌≡◌, ◌≤◌, ◌<◌, ◌∷◌, ◌++◌, [], List, ℕ, length, min, drop, Some, None, Ok};
ghost use Rattle.std.specs.Prelude.{Err, OnOk, OnErr, IfOk, unwrap_or, true, false};
ghost use Rattle.std.specs.Io.KnownBytes.{ReadConsumes};
ghost use Rattle.pungi_io.specs.OpenedText.{just_opened, on_last, with_read};
ghost use Rattle.pungi_io.specs.Shelf.{Rose, Opens, Reads};
ghost use Rattle.pungi_in_memory.specs.SureShelf.{SureState, sure_text};
ghost use Rattle.pungi_in_memory.specs.MemShelf.{text_named, pairs_of, left_at};

use crate::mem_shelf::{copy_front, place_of, rest_of};
use pungi_io::{Failed, OpenFault, OpenedText, Shelf, read_last};
use std::alloc::Global;
use std::marker::Model;

/// A shelf in memory that never fails. A name that isn't there opens the empty text.
#[derive(Drop)]
pub struct SureShelf {
    texts: Vec<(String, Vec<u8>)>,
    names_opened: Vec<Vec<u8>>,
    opened: Vec<OpenedText>,
    place: usize,
    at: usize,
}

impl Model for SureShelf {
    ghost use Rattle.std.specs.Prelude.{map};
    ghost use Rattle.pungi_in_memory.specs.SureShelf.{SureState};
    ghost use Rattle.pungi_in_memory.specs.MemShelf.{pairs_of, left_at};

    ghost Value = { SureState };

    ghost view = { λ s. record {
      texts = pairs_of s.texts.items;
      names_opened = map (λ n. n.items) s.names_opened.items;
      rest = left_at s.texts.items s.place s.at;
      opened = s.opened.items;
    } };
}

impl SureShelf {
    /// A shelf with these texts by their names.
    pub fn new(alloc: Global, texts: Vec<(String, Vec<u8>)>) -> SureShelf
        ensures { result ≡ record { texts = pairs_of texts.items; names_opened = []; rest = []; opened = [] } }
    {
        let place = texts.len();
        SureShelf {
            texts,
            names_opened: Vec::new(alloc),
            opened: Vec::new(alloc),
            place,
            at: 0,
        }
    }
}

impl Shelf for SureShelf {
    ghost texts = { λ s. Some (sure_text s.texts) };

    ghost rest = { λ s. Some s.rest };

    ghost opened = { λ s. s.opened };

    ghost names_opened = { λ s. s.names_opened };

    ghost faults = { λ _. 0 };

    fn open(&mut self, alloc: Global, name: &str) -> Result<(), OpenFault>
        ensures ok { OnOk result (Opens (Some (sure_text self.old.texts)) name.now (Some self.new.rest)
            × (self.new.opened ≡ self.old.opened ++ just_opened name.now ∷ [])) }
        ensures err { OnErr result ((Some self.new.rest ≡ Some self.old.rest) × (self.new.opened ≡ self.old.opened)) }
        ensures names_opened { (result ≡ Err OpenFault.Memory → ⊥)
            → self.new.names_opened ≡ self.old.names_opened ++ name.now ∷ [] }
        ensures memory { result ≡ Err OpenFault.Memory → self.new.names_opened ≡ self.old.names_opened }
        ensures texts { Some (sure_text self.new.texts) ≡ Some (sure_text self.old.texts) }
        ensures steady { (result ≡ Err OpenFault.Failed → ⊥) → (let none : ℕ = 0 in none ≡ none) }
        ensures failed { result ≡ Err OpenFault.Failed → Rose 0 0 }

        ensures next { OnOk result (self.new ≡ record {
          texts = self.old.texts;
          names_opened = self.old.names_opened ++ name.now ∷ [];
          rest = self.new.rest;
          opened = self.old.opened ++ just_opened name.now ∷ [];
        }) }
        ensures unchanged { result ≡ Err OpenFault.Memory → self.new ≡ self.old }
    {
        let copy = Vec::from_slice(alloc, name.as_bytes())?;
        self.opened.reserve(1)?;
        self.names_opened.push(copy)?;
        self.opened.push(OpenedText::new(name)).unwrap();
        self.place = match place_of(&self.texts, name) {
            None => self.texts.len(),
            Some(place) => place,
        };
        self.at = 0;
        Ok(())
    }

    fn read(&mut self, buf: &mut [u8]) -> Result<usize, Failed>
        ensures within { IfOk result (λ count. count ≤ length buf.new) }
        ensures bytes { ReadConsumes (Some self.old.rest) (Some self.new.rest) result buf.new }
        ensures opened { Reads self.old.opened self.new.opened result buf.new }
        ensures end { IfOk result (λ count. count ≡ 0 → 0 < length buf.new → Some self.new.rest ≡ Some []) }
        ensures names_opened { self.new.names_opened ≡ self.old.names_opened }
        ensures texts { Some (sure_text self.new.texts) ≡ Some (sure_text self.old.texts) }
        ensures steady { OnOk result (let none : ℕ = 0 in none ≡ none) }
        ensures failed { OnErr result (Rose 0 0) }

        ensures count { result ≡ Ok (min (length buf.old) (length self.old.rest)) }
        ensures left { IfOk result (λ count. self.new ≡ record self.old {
          rest = drop count self.old.rest;
          opened = on_last (with_read count buf.new) self.old.opened;
        }) }
    {
        let count = copy_front(rest_of(&self.texts, self.place, self.at), buf);
        read_last(&mut self.opened, buf, count);
        self.at += count;
        Ok(count)
    }
}

ghost use Rattle.std.specs.Prelude.{◌≡◌, ◌≤◌, ◌<◌, ◌+◌, ◌^◌, ℕ, [], ◌∷◌, ◌++◌, List, length, take, drop, min, IfOk};
ghost use Rattle.std.specs.Prelude.{IfErr, OnErr, OnOk, MatchOption, MatchResult, Some, None, true, false, is_err, Err};
ghost use Rattle.std.specs.Prelude.{slice_get};
ghost use Rattle.std.specs.Io.KnownBytes.{ReadConsumes};
ghost use Rattle.std.specs.Option.{option_map_or};
ghost use Rattle.pungi_io.specs.OpenedText.{just_opened};
ghost use Rattle.pungi_io.specs.Shelf.{Rose, Opens, Reads};
ghost use Rattle.pungi_in_memory.specs.MemShelf.{ShelfState, text_named, pairs_of, left_at, open_fails, shelf_asked};
ghost use Rattle.pungi_in_memory.specs.MemShelf.{shelf_failed, shelf_opened, shelf_read};
ghost use Rattle.pungi_in_memory.specs.Calls.{is_failing};

use pungi_io::{Failed, OpenFault, OpenedText, Shelf, read_last};
use std::alloc::Global;
use std::marker::Model;

/// A shelf in memory, which fails at given calls and where a name isn't there.
#[derive(Drop)]
pub struct MemShelf {
    texts: Vec<(String, Vec<u8>)>,
    failing: Vec<u64>,
    calls: u64,
    faults: u64,
    names_opened: Vec<Vec<u8>>,
    opened: Vec<OpenedText>,
    place: usize,
    at: usize,
}

impl Model for MemShelf {
    ghost use Rattle.std.specs.Prelude.{map};
    ghost use Rattle.pungi_in_memory.specs.MemShelf.{ShelfState, pairs_of, left_at};

    ghost Value = { ShelfState };

    ghost view = { λ s. record {
      texts = pairs_of s.texts.items;
      failing = s.failing.items;
      calls = s.calls;
      faults = s.faults;
      names_opened = map (λ n. n.items) s.names_opened.items;
      rest = left_at s.texts.items s.place s.at;
      opened = s.opened.items;
    } };
}

/// The place of the text of a name.
pub(crate) fn place_of(texts: &[(String, Vec<u8>)], name: &str) -> Option<usize>
    ensures within { MatchOption result (text_named (pairs_of texts.now) name.now ≡ None) (λ i. i < length texts.now) }
    ensures text { MatchOption result (text_named (pairs_of texts.now) name.now ≡ None)
        (λ i. text_named (pairs_of texts.now) name.now ≡ Some (left_at texts.now i 0)) }
{
    for (i, text) in texts.iter().enumerate() {
        if text.0.as_str() == name {
            return Some(i);
        }
    }
    None
}

/// What is left of the text at a place.
pub(crate) fn rest_of(texts: &[(String, Vec<u8>)], place: usize, from: usize) -> &[u8]
    ensures left { result.now ≡ left_at texts.now place from }
    ensures short { from + length result.now < 2 ^ 64 }
{
    match texts.get(place) {
        None => &[],
        Some(text) => {
            let text = text.1.as_slice();
            if from <= text.len() {
                &text[from..]
            } else {
                &[]
            }
        }
    }
}

/// Copies the front of the bytes, as much as the buffer takes.
pub(crate) fn copy_front(rest: &[u8], buf: &mut [u8]) -> usize
    ensures count { result ≡ min (length buf.old) (length rest.now) }
    ensures bytes { rest.now ≡ take result buf.new ++ drop result rest.now }
{
    let count = buf.len().min(rest.len());
    buf[..count].copy_from_slice(&rest[..count]);
    count
}

impl MemShelf {
    /// A shelf with these texts by their names, of which the calls with these numbers fail, counted from 1.
    pub fn new(alloc: Global, texts: Vec<(String, Vec<u8>)>, failing: Vec<u64>) -> MemShelf
        ensures { result ≡ record {
          texts = pairs_of texts.items;
          failing = failing.items;
          calls = 0;
          faults = 0;
          names_opened = [];
          rest = [];
          opened = [];
        } }
    {
        let place = texts.len();
        MemShelf {
            texts,
            failing,
            calls: 0,
            faults: 0,
            names_opened: Vec::new(alloc),
            opened: Vec::new(alloc),
            place,
            at: 0,
        }
    }
}

impl Shelf for MemShelf {
    ghost texts = { λ s. Some (text_named s.texts) };

    ghost rest = { λ s. Some s.rest };

    ghost opened = { λ s. s.opened };

    ghost names_opened = { λ s. s.names_opened };

    ghost faults = { λ s. s.faults };

    fn open(&mut self, alloc: Global, name: &str) -> Result<(), OpenFault>
        ensures ok { OnOk result (Opens (Some (text_named self.old.texts)) name.now (Some self.new.rest)
            × (self.new.opened ≡ self.old.opened ++ just_opened name.now ∷ [])) }
        ensures err { OnErr result ((Some self.new.rest ≡ Some self.old.rest) × (self.new.opened ≡ self.old.opened)) }
        ensures names_opened { (result ≡ Err OpenFault.Memory → ⊥)
            → self.new.names_opened ≡ self.old.names_opened ++ name.now ∷ [] }
        ensures memory { result ≡ Err OpenFault.Memory → self.new.names_opened ≡ self.old.names_opened }
        ensures texts { Some (text_named self.new.texts) ≡ Some (text_named self.old.texts) }
        ensures steady { (result ≡ Err OpenFault.Failed → ⊥) → self.new.faults ≡ self.old.faults }
        ensures failed { result ≡ Err OpenFault.Failed → Rose self.old.faults self.new.faults }

        ensures exact { OnOk result (open_fails self.old name.now ≡ false) }
        ensures fails { result ≡ Err OpenFault.Failed → open_fails self.old name.now ≡ true }
        ensures next { OnOk result (self.new ≡ shelf_opened (shelf_asked self.old name.now) name.now self.new.rest) }
        ensures refused { result ≡ Err OpenFault.Failed → self.new ≡ shelf_failed (shelf_asked self.old name.now) }
        ensures unchanged { result ≡ Err OpenFault.Memory → self.new ≡ self.old }
    {
        let copy = Vec::from_slice(alloc, name.as_bytes())?;
        self.opened.reserve(1)?;
        self.names_opened.push(copy)?;
        self.calls = self.calls.saturating_add(1);
        if self.failing.contains(&self.calls) {
            self.faults = self.faults.saturating_add(1);
            return Err(OpenFault::Failed);
        }
        match place_of(&self.texts, name) {
            None => {
                self.faults = self.faults.saturating_add(1);
                Err(OpenFault::Failed)
            }
            Some(place) => {
                self.opened.push(OpenedText::new(name)).unwrap();
                self.place = place;
                self.at = 0;
                Ok(())
            }
        }
    }

    fn read(&mut self, buf: &mut [u8]) -> Result<usize, Failed>
        ensures within { IfOk result (λ count. count ≤ length buf.new) }
        ensures bytes { ReadConsumes (Some self.old.rest) (Some self.new.rest) result buf.new }
        ensures opened { Reads self.old.opened self.new.opened result buf.new }
        ensures end { IfOk result (λ count. count ≡ 0 → 0 < length buf.new → Some self.new.rest ≡ Some []) }
        ensures names_opened { self.new.names_opened ≡ self.old.names_opened }
        ensures texts { Some (text_named self.new.texts) ≡ Some (text_named self.old.texts) }
        ensures steady { OnOk result (self.new.faults ≡ self.old.faults) }
        ensures failed { OnErr result (Rose self.old.faults self.new.faults) }

        ensures fails { is_err result ≡ is_failing self.old.failing self.old.calls }
        ensures err { OnErr result (self.new ≡ shelf_failed self.old) }
        ensures count { IfOk result (λ count. count ≡ min (length buf.old) (length self.old.rest)) }
        ensures left { IfOk result (λ count. self.new ≡ shelf_read self.old count buf.new (drop count self.old.rest)) }
    {
        self.calls = self.calls.saturating_add(1);
        if self.failing.contains(&self.calls) {
            self.faults = self.faults.saturating_add(1);
            return Err(Failed);
        }
        let count = copy_front(rest_of(&self.texts, self.place, self.at), buf);
        read_last(&mut self.opened, buf, count);
        self.at += count;
        Ok(count)
    }
}

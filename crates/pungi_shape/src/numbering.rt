ghost use Rattle.std.specs.Prelude.{◌≡◌, ◌<◌, ◌^◌, None, get_or, is_some, length, map, replicate, IfOk, OnOk};
ghost use Rattle.pungi_shape.specs.Numbered.{no_numbers, number_by, number_token, number_tokens};
ghost use Rattle.pungi_shape.specs.Shapes.{before_slots, holding_of_slot, holding_of_static, token_in, tokens_in};

use crate::{Holding, Shape, Tracked};
use pungi_base::{Memory, Seq};
use std::alloc::Global;

/// New numbers of tokens, in the order of the holders that hold them first.
#[derive(Drop)]
pub struct Numbering {
    /// By token. One that isn't held has no number.
    pub numbers: Seq<Option<usize>>,
    /// The tokens, by number.
    pub tokens: Seq<u32>,
}

impl Numbering {
    /// No token has a number, of so many.
    fn none(alloc: Global, count: usize) -> Result<Numbering, Memory>
        ensures { IfOk result (λ m. m ≡ no_numbers count) }
    {
        let numbers = Seq::new(vec![in alloc; None; count]?);
        Ok(Numbering {
            numbers,
            tokens: Seq::new(Vec::new(alloc)),
        })
    }

    /// Whether a token has a number.
    fn has(&self, t: u32) -> bool
        ensures { result ≡ is_some (get_or self.now.numbers t None) }
    {
        let numbers = self.numbers.as_slice();
        if (t as usize) < numbers.len() {
            numbers[t as usize].is_some()
        } else {
            false
        }
    }

    /// A token is held. After an `Err` the numbers may be any.
    fn put(&mut self, t: u32) -> Result<(), Memory>
        ensures { OnOk result (self.new ≡ number_token t self.old) }
    {
        if self.has(t) {
            return Ok(());
        }
        let number = self.tokens.len();
        self.tokens.push(t)?;
        if (t as usize) < self.numbers.len() {
            self.numbers.set(t as usize, Some(number));
        }
        Ok(())
    }

    /// What is held by a holder.
    fn put_holding(&mut self, h: Holding) -> Result<(), Memory>
        ensures { OnOk result (self.new ≡ number_tokens (token_in h) self.old) }
    {
        match h {
            Holding::Token(t) => self.put(t),
            _ => Ok(()),
        }
    }

    #[tactic(auto, using(crate::proofs::NumberedLemmas::number_tokens_more))]
    fn put_holdings(&mut self, holdings: &[Holding]) -> Result<(), Memory>
        ensures { OnOk result (self.new ≡ number_tokens (tokens_in holdings.now) self.old) }
    {
        for h in holdings {
            self.put_holding(*h)?;
        }
        Ok(())
    }

    #[tactic(auto, using(crate::proofs::NumberedLemmas::number_tokens_more))]
    fn put_statics(&mut self, statics: &[(u32, Holding)]) -> Result<(), Memory>
        ensures { OnOk result (self.new
            ≡ number_tokens (tokens_in (map holding_of_static statics.now)) self.old) }
    {
        for k in statics {
            self.put_holding(k.1)?;
        }
        Ok(())
    }

    /// What slots hold. After an `Err` the numbers may be any.
    #[tactic(auto, using(crate::proofs::NumberedLemmas::number_tokens_more))]
    pub(crate) fn put_slots(&mut self, slots: &[Tracked]) -> Result<(), Memory>
        ensures { OnOk result (self.new
            ≡ number_tokens (tokens_in (map holding_of_slot slots.now)) self.old) }
    {
        for r in slots {
            self.put_holding(r.held)?;
        }
        Ok(())
    }

    fn put_shape(&mut self, shape: &Shape) -> Result<(), Memory>
        ensures { OnOk result (self.new ≡ number_tokens (tokens_in (before_slots shape.now)) self.old) }
    {
        self.put_holdings(shape.entry.as_slice())?;
        self.put_holdings(shape.vars.as_slice())?;
        self.put_statics(shape.statics.as_slice())?;
        self.put_holding(shape.returned)
    }

    /// The numbers of the tokens that the holders before the slots hold.
    pub(crate) fn before_slots(alloc: Global, shape: &Shape) -> Result<Numbering, Memory>
        ensures { IfOk result (λ m. m
            ≡ number_tokens (tokens_in (before_slots shape.now)) (no_numbers (length shape.now.made))) }
    {
        let mut numbering = Numbering::none(alloc, shape.made.len())?;
        numbering.put_shape(shape)?;
        Ok(numbering)
    }

    /// The numbers of the tokens of static objects.
    pub(crate) fn of_statics(alloc: Global, shape: &Shape) -> Result<Numbering, Memory>
        ensures { IfOk result (λ m. m ≡ number_tokens (tokens_in (map holding_of_static shape.now.statics))
            (no_numbers (length shape.now.made))) }
    {
        let mut numbering = Numbering::none(alloc, shape.made.len())?;
        numbering.put_statics(shape.statics.as_slice())?;
        Ok(numbering)
    }

    /// The numbers of the tokens of an exit class, of so many.
    pub(crate) fn of_exit(alloc: Global, exit: &Shape, count: usize) -> Result<Numbering, Memory>
        ensures { IfOk result (λ m. m ≡ number_tokens (tokens_in (before_slots exit.now)) (no_numbers count)) }
    {
        let mut numbering = Numbering::none(alloc, count)?;
        numbering.put_shape(exit)?;
        Ok(numbering)
    }

    /// The number of a token; that after all others where it has none.
    pub(crate) fn number(&self, t: u32) -> u32
        requires { number_by self.now t < 2 ^ 32 }
        ensures { result ≡ number_by self.now t }
    {
        let numbers = self.numbers.as_slice();
        if (t as usize) < numbers.len() {
            match numbers[t as usize] {
                Some(k) => k as u32,
                None => self.tokens.len() as u32,
            }
        } else {
            self.tokens.len() as u32
        }
    }
}

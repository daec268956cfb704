ghost use Rattle.std.specs.Prelude.{◌≡◌, [], ◌∷◌, List, Some, MatchOption};
ghost use Rattle.pungi_base.specs.declared.punct.Punct.{Punct as Mark};
ghost use Rattle.pungi_parse.specs.tokens.AwaitedBrackets.{awaited_marks, closer_mark};
ghost use Rattle.pungi_parse.specs.Gives.{Gives};
ghost use Rattle.pungi_tree.specs.Balanced.{awaited_after, closed, none_awaited};

use crate::stop::Stop;
use crate::tokens::closing_bracket::Closer;
use pungi_base::{Kind, Memory};
use smallvec::SmallVec;
use std::alloc::Global;
use std::marker::Model;

/// How many brackets are awaited without an allocation: as many as may be open at a time.
const INLINE: usize = 64;

/// The closing brackets that are awaited, the innermost last.
#[derive(Drop)]
pub(crate) struct Awaited {
    closers: SmallVec<Closer, INLINE>,
}

impl Model for Awaited {
    ghost Value = { List Mark };

    ghost view = { λ a. awaited_marks a.closers.items };
}

impl Awaited {
    pub(crate) fn new(alloc: Global) -> Self
        ensures { result ≡ [] }
    {
        Awaited {
            closers: SmallVec::new(alloc),
        }
    }

    pub(crate) fn is_empty(&self) -> bool
        ensures { result ≡ none_awaited self.now }
    {
        self.closers.is_empty()
    }

    /// One more token.
    pub(crate) fn read(&mut self, kind: Kind) -> Result<(), Stop>
        ensures { Gives (λ _. self.new) result (awaited_after kind self.old) }
    {
        if let Some(closer) = Closer::awaited_by(kind) {
            return self.push(closer);
        }
        match Closer::closing(kind) {
            Some(closer) => self.close(closer),
            None => Ok(()),
        }
    }

    fn push(&mut self, closer: Closer) -> Result<(), Stop>
        ensures { Gives (λ _. self.new) result (Some (closer_mark closer ∷ self.old)) }
    {
        self.closers.push(closer).map_err(Memory::from)?;
        Ok(())
    }

    fn pop(&mut self) -> Option<Closer>
        ensures { MatchOption result (self.old ≡ []) (λ closer. self.old ≡ closer_mark closer ∷ self.new) }
    {
        self.closers.pop()
    }

    /// A closing bracket, which has to be the innermost one that is awaited.
    fn close(&mut self, closer: Closer) -> Result<(), Stop>
        ensures { Gives (λ _. self.new) result (closed (closer_mark closer) self.old) }
    {
        match self.pop() {
            Some(innermost) if closer.is_same(innermost) => Ok(()),
            _ => Err(Stop::NothingRead),
        }
    }
}

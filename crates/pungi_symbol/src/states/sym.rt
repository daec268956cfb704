ghost use Rattle.std.specs.Prelude.{◌≡◌, IfOk};
ghost use Rattle.pungi_symbol.specs.Promises.{IsAdvanced};

use crate::states::state::State;
use pungi_base::Memory;
use pungi_code::Line;
use std::alloc::Global;
use std::marker::Model;

/// A symbolic state: what is known of all runs with one trace, with tokens in place of what came in. The static objects
/// are the first tokens, the arguments come next, then one token comes with each choice.
#[derive(Drop)]
pub struct Sym {
    state: State,
}

impl Model for Sym {
    ghost use Rattle.pungi_symbol.specs.declared.states.state.State.{State};

    ghost Value = { State };

    ghost view = { λ s. s.state };
}

impl Sym {
    pub(crate) fn new(state: State) -> Sym
        ensures { result ≡ state }
    {
        Sym { state }
    }

    pub(crate) fn state(&self) -> &State
        ensures { result.now ≡ self.now }
    {
        &self.state
    }

    /// Goes on where the next instruction asks nothing, or a head is counted: whether it did.
    pub(crate) fn advance(&mut self, alloc: Global, code: &[Line]) -> Result<bool, Memory>
        ensures { IfOk result (λ b. IsAdvanced code.now self.old b self.new) }
    {
        self.state.advance(alloc, code)
    }

    pub(crate) fn into_state(self) -> State
        ensures { result ≡ self }
    {
        let Sym { state } = self;
        state
    }
}

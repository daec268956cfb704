// What a call of the API asks.
ghost use Rattle.std.specs.Prelude.{◌≡◌, min};
ghost use Rattle.pungi_symbol.specs.states.Known.{term_of};
ghost use Rattle.pungi_symbol.specs.questions.NextQuestion.{asks_all_set, asks_param, asks_params, asks_take};
ghost use Rattle.pungi_symbol.specs.questions.NextQuestion.{asks_takes, asks_call_answer, first_term, asks_own};
ghost use Rattle.pungi_symbol.specs.questions.NextQuestion.{asks_signature, terms_of};

use crate::answers::decision::Decision;
use crate::questions::question::Question;
use crate::questions::term_questions::{asks_answer, asks_set};
use crate::states::known::Known;
use crate::states::term::Term;
use pungi_api::{CallAnswer, OwnEffect, Param, Signature, Take};
use pungi_code::Atom;

/// The smaller of two lengths.
pub fn smaller_length(m: usize, n: usize) -> usize
    ensures { result ≡ min m n }
{
    if m < n { m } else { n }
}

fn asks_call_answer(answer: CallAnswer) -> Question
    ensures { result ≡ asks_call_answer answer }
{
    match answer {
        CallAnswer::Of(answer) => asks_answer(answer),
        CallAnswer::Argument => Question::Does(Decision::Quiet),
    }
}

impl Known {
    fn asks_param(&self, param: Param, x: Term, q: Question) -> Question
        ensures { result ≡ asks_param self.now param x q }
    {
        match param {
            Param::Object => self.asks_thing(x, q),
            Param::Text => self.asks_thing(x, q),
            Param::ObjectOrNull => q,
            Param::TextOrNull => q,
            Param::Int => q,
            Param::Long => q,
            Param::Size => q,
            Param::ModuleDef => q,
        }
    }

    fn asks_take(&self, take: Take, x: Term, q: Question) -> Question
        ensures { result ≡ asks_take self.now take x q }
    {
        match take {
            Take::Never => q,
            Take::Always => self.asks_known(x, q),
            Take::OnSuccess => self.asks_known(x, q),
        }
    }

    /// The first argument.
    pub fn first_of(&self, atoms: &[Atom]) -> Term
        ensures { result ≡ first_term (terms_of self.now atoms.now) }
    {
        match atoms.first() {
            Some(a) => self.term(*a),
            None => Term::Null,
        }
    }

    /// Each of these is set. From the last to the first, so that the first asks first.
    #[tactic(auto, using(crate::proofs::questions::Arguments::set_step, crate::proofs::questions::Arguments::set_end))]
    pub fn asks_all_set(&self, atoms: &[Atom], last: Question) -> Question
        ensures { result ≡ asks_all_set (terms_of self.now atoms.now) last }
    {
        let mut q = last;
        let mut i = atoms.len();
        while i > 0 {
            i -= 1;
            q = asks_set(self.term(atoms[i]), q);
        }
        q
    }

    #[tactic(auto, using(crate::proofs::questions::Arguments::needing_step, crate::proofs::questions::Arguments::needing_end))]
    fn asks_params(&self, params: &[Param], atoms: &[Atom], last: Question) -> Question
        ensures { result ≡ asks_params self.now params.now (terms_of self.now atoms.now) last }
    {
        let mut q = last;
        let mut i = smaller_length(params.len(), atoms.len());
        while i > 0 {
            i -= 1;
            q = self.asks_param(params[i], self.term(atoms[i]), q);
        }
        q
    }

    #[tactic(auto, using(crate::proofs::questions::Arguments::taken_step, crate::proofs::questions::Arguments::taken_end))]
    fn asks_takes(&self, takes: &[Take], atoms: &[Atom], last: Question) -> Question
        ensures { result ≡ asks_takes self.now takes.now (terms_of self.now atoms.now) last }
    {
        let mut q = last;
        let mut i = smaller_length(takes.len(), atoms.len());
        while i > 0 {
            i -= 1;
            q = self.asks_take(takes[i], self.term(atoms[i]), q);
        }
        q
    }

    fn asks_own(
        &self,
        own: Option<OwnEffect>,
        takes: &[Take],
        atoms: &[Atom],
        last: Question,
    ) -> Question
        ensures { result ≡ asks_own self.now own takes.now (terms_of self.now atoms.now) last }
    {
        match own {
            None => self.asks_takes(takes, atoms, last),
            Some(OwnEffect::IncRef) => self.asks_known(self.first_of(atoms), last),
            Some(OwnEffect::DecRef) => self.asks_known(self.first_of(atoms), last),
        }
    }

    fn asks_signature(&self, signature: &Signature, atoms: &[Atom]) -> Question
        ensures { result ≡ asks_signature self.now signature.now (terms_of self.now atoms.now) }
    {
        let answer = asks_call_answer(signature.answer);
        let own = self.asks_own(signature.own, signature.takes.as_slice(), atoms, answer);
        self.asks_params(signature.params.as_slice(), atoms, own)
    }

    /// A call of the API.
    pub fn asks_call(&self, signature: &Signature, atoms: &[Atom]) -> Question
        ensures { result ≡ asks_all_set (terms_of self.now atoms.now) (asks_signature self.now signature.now
            (terms_of self.now atoms.now)) }
    {
        self.asks_all_set(atoms, self.asks_signature(signature, atoms))
    }
}

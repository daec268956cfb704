// The states after the answers to the next question.
ghost use Rattle.std.specs.Prelude.{◌≡◌, ◌++◌, ◌∷◌, [], true, false, Some, slice_get, IfOk, OnOk};
ghost use Rattle.pungi_symbol.specs.declared.answers.decision.Decision.TheVariants.{Order as IsOrder, Same as IsSame};
ghost use Rattle.std.specs.declared.cmp.Ordering.TheVariants.{Less, Equal, Greater};
ghost use Rattle.std.specs.List.{flat_map};
ghost use Rattle.pungi_symbol.specs.answers.SymbolicState.{after_if, after_left, numbered, answers_of};
ghost use Rattle.pungi_symbol.specs.answers.SymbolicState.{successors};
ghost use Rattle.pungi_symbol.specs.questions.NextQuestion.{IsPlaced};
ghost use Rattle.pungi_symbol.specs.Promises.{next_states, IsAdvanced};

use crate::answers::decision::Decision;
use crate::answers::outcomes::outcomes_of_call;
use crate::questions::question::Question;
use crate::states::code_lines::lines;
use crate::states::state::State;
use crate::states::sym::Sym;
use pungi_base::Memory;
use pungi_code::{Codes, Line};
use std::alloc::Global;
use std::cmp::Ordering;

impl State {
    /// The state after an answer is put among the next ones.
    fn put_next(
        self,
        alloc: Global,
        code: &[Line],
        q: Question,
        d: Decision,
        next: &mut Vec<(Decision, Sym)>,
    ) -> Result<(), Memory>
        requires placed { IsPlaced code.now self.known q }
        ensures { OnOk result (next.new.items ≡ next.old.items
            ++ after_left (slice_get code.now self.known.pc) q self (Some d)) }
    {
        let mut state = self;
        state.answer(alloc, code, q, d)?;
        next.push((d, Sym::new(state)))?;
        Ok(())
    }

    /// The state after an answer that is left over, if there is one, is put there.
    fn put_left(
        self,
        alloc: Global,
        code: &[Line],
        q: Question,
        left: Option<Decision>,
        next: &mut Vec<(Decision, Sym)>,
    ) -> Result<(), Memory>
        requires placed { IsPlaced code.now self.known q }
        ensures { OnOk result (next.new.items ≡ next.old.items
            ++ after_left (slice_get code.now self.known.pc) q self left) }
    {
        match left {
            None => Ok(()),
            Some(d) => self.put_next(alloc, code, q, d, next),
        }
    }

    /// The same, in a copy of the state.
    fn put_copy(
        &self,
        alloc: Global,
        code: &[Line],
        q: Question,
        left: Option<Decision>,
        next: &mut Vec<(Decision, Sym)>,
    ) -> Result<(), Memory>
        requires placed { IsPlaced code.now self.now.known q }
        ensures { OnOk result (next.new.items ≡ next.old.items
            ++ after_left (slice_get code.now self.now.known.pc) q self.now left) }
    {
        match left {
            None => Ok(()),
            Some(d) => {
                let state = self.copy(alloc)?;
                state.put_next(alloc, code, q, d, next)
            }
        }
    }

    /// One more answer, if the question still has it. It is left over in place of the one that was.
    fn leave(
        &self,
        alloc: Global,
        code: &[Line],
        q: Question,
        left: Option<Decision>,
        d: Decision,
        next: &mut Vec<(Decision, Sym)>,
    ) -> Result<Option<Decision>, Memory>
        requires placed { IsPlaced code.now self.now.known q }
        ensures { IfOk result (λ o. next.new.items ++ after_left (slice_get code.now self.now.known.pc) q self.now o
            ≡ (next.old.items ++ after_left (slice_get code.now self.now.known.pc) q self.now left)
            ++ after_if (slice_get code.now self.now.known.pc) q self.now d) }
    {
        if self.can(q, d) {
            self.put_copy(alloc, code, q, left, next)?;
            Ok(Some(d))
        } else {
            Ok(left)
        }
    }

    /// The states after those of these answers that the question still has, but for the last one, which is left over.
    #[tactic(auto, using(crate::proofs::answers::EachAnswer::next_step, crate::proofs::answers::EachAnswer::next_end))]
    fn put_each(
        &self,
        alloc: Global,
        code: &[Line],
        q: Question,
        answers: &[Decision],
        next: &mut Vec<(Decision, Sym)>,
    ) -> Result<Option<Decision>, Memory>
        requires placed { IsPlaced code.now self.now.known q }
        ensures { IfOk result (λ o. next.new.items ++ after_left (slice_get code.now self.now.known.pc) q self.now o
            ≡ next.old.items ++ flat_map (after_if (slice_get code.now self.now.known.pc) q self.now) answers.now) }
    {
        let mut left = None;
        for d in answers {
            left = self.leave(alloc, code, q, left, *d, next)?;
        }
        Ok(left)
    }

    /// The same of one answer.
    fn put_one(
        &self,
        alloc: Global,
        code: &[Line],
        q: Question,
        d: Decision,
        next: &mut Vec<(Decision, Sym)>,
    ) -> Result<Option<Decision>, Memory>
        requires placed { IsPlaced code.now self.now.known q }
        ensures { IfOk result (λ o. next.new.items ++ after_left (slice_get code.now self.now.known.pc) q self.now o
            ≡ next.old.items ++ flat_map (after_if (slice_get code.now self.now.known.pc) q self.now) (d ∷ [])) }
    {
        let answers = [d];
        self.put_each(alloc, code, q, &answers, next)
    }

    /// The same of the first so many numbered answers.
    #[tactic(auto, using(crate::proofs::answers::EachAnswer::numbered_step, crate::proofs::answers::EachAnswer::numbered_start))]
    fn put_numbered(
        &self,
        alloc: Global,
        code: &[Line],
        q: Question,
        count: u64,
        next: &mut Vec<(Decision, Sym)>,
    ) -> Result<Option<Decision>, Memory>
        requires placed { IsPlaced code.now self.now.known q }
        ensures { IfOk result (λ o. next.new.items ++ after_left (slice_get code.now self.now.known.pc) q self.now o
            ≡ next.old.items ++ flat_map (after_if (slice_get code.now self.now.known.pc) q self.now)
            (numbered count)) }
    {
        if count > u32::MAX as u64 {
            return Err(Memory);
        }
        let mut left = None;
        for k in 0..count as u32 {
            left = self.leave(alloc, code, q, left, Decision::Outcome(k), next)?;
        }
        Ok(left)
    }

    /// The same of whether two tokens are one object.
    fn put_same(
        &self,
        alloc: Global,
        code: &[Line],
        q: Question,
        next: &mut Vec<(Decision, Sym)>,
    ) -> Result<Option<Decision>, Memory>
        requires placed { IsPlaced code.now self.now.known q }
        ensures { IfOk result (λ o. next.new.items ++ after_left (slice_get code.now self.now.known.pc) q self.now o
            ≡ next.old.items ++ flat_map (after_if (slice_get code.now self.now.known.pc) q self.now)
            (IsSame false ∷ IsSame true ∷ [])) }
    {
        let answers = [Decision::Same(false), Decision::Same(true)];
        self.put_each(alloc, code, q, &answers, next)
    }

    /// The same of how two numbers compare.
    fn put_orders(
        &self,
        alloc: Global,
        code: &[Line],
        q: Question,
        next: &mut Vec<(Decision, Sym)>,
    ) -> Result<Option<Decision>, Memory>
        requires placed { IsPlaced code.now self.now.known q }
        ensures { IfOk result (λ o. next.new.items ++ after_left (slice_get code.now self.now.known.pc) q self.now o
            ≡ next.old.items ++ flat_map (after_if (slice_get code.now self.now.known.pc) q self.now)
            (IsOrder Less ∷ IsOrder Equal ∷ IsOrder Greater ∷ [])) }
    {
        let answers = [
            Decision::Order(Ordering::Less),
            Decision::Order(Ordering::Equal),
            Decision::Order(Ordering::Greater),
        ];
        self.put_each(alloc, code, q, &answers, next)
    }

    /// The states after all answers but the last one, which is left over.
    fn put_all(
        &self,
        alloc: Global,
        code: &[Line],
        q: Question,
        next: &mut Vec<(Decision, Sym)>,
    ) -> Result<Option<Decision>, Memory>
        requires placed { IsPlaced code.now self.now.known q }
        ensures { IfOk result (λ o. next.new.items ++ after_left (slice_get code.now self.now.known.pc) q self.now o
            ≡ next.old.items ++ flat_map (after_if (slice_get code.now self.now.known.pc) q self.now) (answers_of q)) }
    {
        match q {
            Question::Does(d) => self.put_one(alloc, code, q, d, next),
            Question::Touches(_) => self.put_one(alloc, code, q, Decision::Quiet, next),
            Question::Overwrites(_) => self.put_numbered(alloc, code, q, 2, next),
            Question::Null(_) => self.put_numbered(alloc, code, q, 2, next),
            Question::Base(_, _, _) => self.put_same(alloc, code, q, next),
            Question::Answers(answer) => {
                self.put_numbered(alloc, code, q, outcomes_of_call(answer), next)
            }
            Question::Same(_, _) => self.put_same(alloc, code, q, next),
            Question::Orders(_, _) => self.put_orders(alloc, code, q, next),
            Question::Range(_, _) => self.put_numbered(alloc, code, q, 3, next),
            Question::Computes(_, _, _, _) => self.put_numbered(alloc, code, q, 3, next),
            Question::Unplain => self.put_one(alloc, code, q, Decision::Quiet, next),
            Question::Turn => self.put_one(alloc, code, q, Decision::Quiet, next),
            Question::Returns(_) => self.put_one(alloc, code, q, Decision::Quiet, next),
            Question::Stops(d) => self.put_one(alloc, code, q, d, next),
            Question::Over => Ok(None),
        }
    }

    /// Goes on in place where the next instruction asks nothing, or a head is counted: whether it did.
    #[tactic(auto, using(crate::proofs::questions::Places::placed_as))]
    pub(crate) fn advance(&mut self, alloc: Global, code: &[Line]) -> Result<bool, Memory>
        ensures { IfOk result (λ b. IsAdvanced code.now self.old b self.new) }
    {
        let q = self.known.question(code);
        match q {
            Question::Does(d) => {
                self.answer(alloc, code, q, d)?;
                Ok(true)
            }
            Question::Turn => {
                self.answer(alloc, code, q, Decision::Quiet)?;
                Ok(true)
            }
            _ => Ok(false),
        }
    }

    /// The next states, each with its answer. The last one takes the place of the state, which isn't copied for it.
    #[tactic(auto, using(crate::proofs::questions::Places::placed_as))]
    fn next_states(self, alloc: Global, code: &[Line]) -> Result<Vec<(Decision, Sym)>, Memory>
        ensures { IfOk result (λ next. next.items ≡ successors code.now self) }
    {
        let q = self.known.question(code);
        let mut next = Vec::new(alloc);
        let left = self.put_all(alloc, code, q, &mut next)?;
        self.put_left(alloc, code, q, left, &mut next)?;
        Ok(next)
    }
}

/// The next states of a symbolic state, which is used up.
pub fn next_from(alloc: Global, codes: &Codes, state: Sym) -> Result<Vec<(Decision, Sym)>, Memory>
    ensures { IfOk result (λ next. next.items ≡ next_states codes.now state) }
{
    let state = state.into_state();
    let code = lines(codes, state.known.function);
    state.next_states(alloc, code)
}

/// The next states of a symbolic state.
pub fn next_of(alloc: Global, codes: &Codes, state: &Sym) -> Result<Vec<(Decision, Sym)>, Memory>
    ensures { IfOk result (λ next. next.items ≡ next_states codes.now state.now) }
{
    let copy = Sym::new(state.state().copy(alloc)?);
    next_from(alloc, codes, copy)
}

ghost use Rattle.std.specs.Prelude.{◌≡◌, true, false, slice_get, IfOk, OnOk};
ghost use Rattle.pungi_symbol.specs.answers.KnownAfter.{instr_of};
ghost use Rattle.pungi_symbol.specs.answers.SymbolicState.{class_of, are_one, owed_for, lower, stored_term, gather_at};
ghost use Rattle.pungi_symbol.specs.answers.SymbolicState.{merge_classes, merge_two, apply_same, join, take_answer};
ghost use Rattle.pungi_symbol.specs.answers.SymbolicState.{follow, apply};
ghost use Rattle.pungi_symbol.specs.questions.NextQuestion.{IsPlaced};

use crate::answers::balance_changes::succeeds;
use crate::answers::decision::Decision;
use crate::answers::outcomes::{
    mark_after, mark_of_answer, number_of_outcome, says_order, says_same,
};
use crate::questions::question::Question;
use crate::states::balances::{
    class_at, gather_at, is_one, owed_for, owed_for_answer, redirected_classes,
};
use crate::states::known::Known;
use crate::states::limit::Limit;
use crate::states::mark::Mark;
use pungi_api::Answer;
use pungi_base::{Memory, Seq};
use pungi_code::Line;
use std::alloc::Global;

/// Two tokens that are known to be different objects.
#[derive(Clone, Copy)]
pub struct Pair {
    pub a: usize,
    pub b: usize,
}

/// What a symbolic state notes. `classes` has the token that each token was merged with, and `balances` what is owed by
/// the object of the tokens that were merged with it.
#[derive(Drop)]
pub struct State {
    pub known: Known,
    /// How many static objects there are. They are the first tokens.
    pub statics: u32,
    pub classes: Seq<usize>,
    pub balances: Seq<i64>,
    pub others: Seq<Pair>,
    /// What the answers say of numbers.
    pub limits: Seq<Limit>,
}

impl State {
    /// The same.
    pub fn copy(&self, alloc: Global) -> Result<State, Memory>
        ensures { IfOk result (λ s. s ≡ self.now) }
    {
        let classes = self.classes.copy(alloc)?;
        let balances = self.balances.copy(alloc)?;
        let others = self.others.copy(alloc)?;
        let limits = self.limits.copy(alloc)?;
        let known = self.known.copy(alloc)?;
        Ok(State {
            known,
            statics: self.statics,
            classes,
            balances,
            others,
            limits,
        })
    }

    /// The token that stands for a token.
    pub fn class_of(&self, t: usize) -> usize
        ensures { result ≡ class_of self.now.classes t }
    {
        class_at(self.classes.as_slice(), t)
    }

    /// Two tokens are noted as one object.
    pub fn are_one(&self, t: usize, u: usize) -> bool
        ensures { result ≡ are_one self.now.classes t u }
    {
        is_one(self.classes.as_slice(), t, u)
    }

    fn join(&mut self, d: i64) -> Result<(), Memory>
        ensures { OnOk result (self.new ≡ join d self.old.balances self.old) }
    {
        let token = self.known.tokens();
        self.classes.push(token)?;
        self.balances.push(d)?;
        Ok(())
    }

    fn overwrite(&mut self, code: &[Line], m: Mark) -> Result<(), Memory>
        ensures { OnOk result (self.new ≡ join (owed_for m) (lower self.old.classes self.old.known
            (stored_term (instr_of (slice_get code.now self.old.known.pc)) self.old.known) self.old.balances)
            self.old) }
    {
        self.lower_stored(code)?;
        self.join(owed_for(m))
    }

    fn take_answer(&mut self, code: &[Line], answer: Answer, m: Mark) -> Result<(), Memory>
        ensures { OnOk result (self.new ≡ take_answer (instr_of (slice_get code.now self.old.known.pc)) answer m
            self.old) }
    {
        self.lower_call(code, succeeds(answer, m))?;
        self.join(owed_for_answer(answer, m))
    }

    fn gathered(&mut self, c: usize, d: usize) -> Result<(), Memory>
        ensures { OnOk result (self.new ≡ record self.old { balances = gather_at c d self.old.balances }) }
    {
        gather_at(&mut self.balances, c, d)
    }

    fn merge_classes(&mut self, alloc: Global, c: usize, d: usize) -> Result<(), Memory>
        ensures { OnOk result (self.new ≡ merge_classes c d self.old) }
    {
        self.classes = redirected_classes(alloc, self.classes.as_slice(), c, d)?;
        self.gathered(c, d)
    }

    /// The older token stands for both.
    fn merge_two(&mut self, alloc: Global, c: usize, d: usize) -> Result<(), Memory>
        ensures { OnOk result (self.new ≡ merge_two c d self.old) }
    {
        if d < c {
            self.merge_classes(alloc, d, c)
        } else {
            self.merge_classes(alloc, c, d)
        }
    }

    fn part(&mut self, t: usize, u: usize) -> Result<(), Memory>
        ensures { OnOk result (self.new ≡ apply_same (are_one self.old.classes t u) false t u self.old) }
    {
        self.others.push(Pair { a: t, b: u })?;
        Ok(())
    }

    fn unite(&mut self, alloc: Global, t: usize, u: usize) -> Result<(), Memory>
        ensures { OnOk result (self.new ≡ apply_same (are_one self.old.classes t u) true t u self.old) }
    {
        if self.are_one(t, u) {
            return Ok(());
        }
        let (c, d) = (self.class_of(t), self.class_of(u));
        self.merge_two(alloc, c, d)
    }

    fn take_same(&mut self, alloc: Global, same: bool, t: usize, u: usize) -> Result<(), Memory>
        ensures { OnOk result (self.new ≡ apply_same (are_one self.old.classes t u) same t u self.old) }
    {
        if same {
            self.unite(alloc, t, u)
        } else {
            self.part(t, u)
        }
    }

    fn follow(
        &mut self,
        alloc: Global,
        code: &[Line],
        q: Question,
        d: Decision,
    ) -> Result<(), Memory>
        ensures { OnOk result (self.new ≡ follow (slice_get code.now self.old.known.pc) q d self.old) }
    {
        let k = number_of_outcome(d);
        let same = says_same(d);
        match q {
            Question::Does(_) => self.weigh_line(code),
            Question::Touches(_) => self.join(0),
            Question::Overwrites(m) => self.overwrite(code, mark_after(m, k)),
            Question::Null(_) => Ok(()),
            Question::Base(t, u, _) => self.take_same(alloc, same, t, u),
            Question::Answers(answer) => self.take_answer(code, answer, mark_of_answer(answer, k)),
            Question::Same(t, u) => self.take_same(alloc, same, t, u),
            Question::Orders(a, b) => self.limit_order(a, b, says_order(d)),
            Question::Range(kind, a) => self.limit_range(kind, a, k),
            Question::Computes(kind, _, _, _) => {
                let sum = self.known.next_computed();
                self.limit_range(kind, sum, k)
            }
            Question::Unplain => Ok(()),
            Question::Turn => Ok(()),
            Question::Returns(_) => Ok(()),
            Question::Stops(_) => Ok(()),
            Question::Over => Ok(()),
        }
    }

    /// The state after an answer to a question.
    pub fn answer(
        &mut self,
        alloc: Global,
        code: &[Line],
        q: Question,
        d: Decision,
    ) -> Result<(), Memory>
        requires placed { IsPlaced code.now self.old.known q }
        ensures { OnOk result (self.new ≡ apply (slice_get code.now self.old.known.pc) q d self.old) }
    {
        self.follow(alloc, code, q, d)?;
        self.known.go(code, q, d)
    }
}

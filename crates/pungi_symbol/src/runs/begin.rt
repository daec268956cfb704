// The state at the start of a function.
ghost use Rattle.std.specs.Prelude.{◌≡◌, ◌+◌, ◌-◌, ◌++◌, pos, length, map, replicate, take, IfOk};
ghost use Rattle.std.specs.List.{range_with_len};
ghost use Rattle.std.specs.Option.{option_map_or};
ghost use Rattle.pungi_code.specs.Run.{code_at};
ghost use Rattle.pungi_symbol.specs.questions.NextQuestion.{content_mark};
ghost use Rattle.pungi_symbol.specs.states.Turns.{first_head, first_place, first_turns};
ghost use Rattle.pungi_symbol.specs.runs.Paths.{argument_count, known_at, start_states, start_state};

use crate::answers::decision::Decision;
use crate::questions::term_questions::content_mark;
use crate::states::code_lines::{code_of, front};
use crate::states::known::{Known, Status};
use crate::states::mark::Mark;
use crate::states::number_places::NumberPlaces;
use crate::states::spot::Progress;
use crate::states::state::State;
use crate::states::sym::Sym;
use crate::states::term::Term;
use crate::states::turns::{ReachedHead, Turns};
use crate::states::vars::Vars;
use pungi_api::Param;
use pungi_base::{Memory, Pos, Seq};
use pungi_code::{Code, Codes, Head};
use std::alloc::Global;

/// How many arguments a code takes.
pub fn argument_count(code: &Code) -> usize
    ensures { result ≡ argument_count code.now }
{
    front(code.vars.as_slice(), code.params as usize).len()
}

/// How many arguments a function takes. With no code it takes none.
pub fn arguments_of(codes: &Codes, f: usize) -> usize
    ensures { result ≡ option_map_or argument_count (code_at codes.now f) 0 }
{
    match code_of(codes, f) {
        Some(code) => argument_count(code),
        None => 0,
    }
}

/// How many tokens there are once the arguments came.
fn tokens_at(statics: u32, code: &Code) -> usize
    ensures { result ≡ statics + argument_count code.now }
{
    statics as usize + front(code.vars.as_slice(), code.params as usize).len()
}

#[tactic(auto, using(crate::proofs::runs::Ranges::tokens_more))]
fn tokens(alloc: Global, from: usize, end: usize) -> Result<Vec<Term>, Memory>
    ensures { IfOk result (λ vars. vars.items ≡ map Term.Token (range_with_len from (end - from))) }
{
    let mut vars = Vec::new(alloc);
    for t in from..end {
        vars.push(Term::Token(t))?;
    }
    Ok(vars)
}

#[tactic(auto, using(crate::proofs::states::HeldVars::arguments_first))]
fn variables(alloc: Global, statics: u32, code: &Code) -> Result<Vars, Memory>
    ensures { IfOk result (λ vars. vars ≡ map Term.Token (range_with_len statics (argument_count code.now))
        ++ replicate (length code.now.vars - argument_count code.now) Term.Unset) }
{
    let arguments = tokens(alloc, statics as usize, tokens_at(statics, code))?;
    Ok(Vars::new(code.vars.len(), arguments))
}

fn contents_of(alloc: Global, kinds: &[Param]) -> Result<Vec<Mark>, Memory>
    ensures { IfOk result (λ marks. marks.items ≡ map content_mark kinds.now) }
{
    let marks: Vec<Mark> = kinds.iter().map(|kind| content_mark(*kind)).collect(alloc)?;
    Ok(marks)
}

fn marks_at(alloc: Global, statics: u32, code: &Code) -> Result<Vec<Mark>, Memory>
    ensures { IfOk result (λ marks. marks.items ≡ replicate statics Mark.IsObject
        ++ map content_mark (take code.now.params code.now.vars)) }
{
    let mut marks = vec![in alloc; Mark::IsObject; statics as usize]?;
    let given = contents_of(alloc, front(code.vars.as_slice(), code.params as usize))?;
    marks.extend_from_slice(given.as_slice())?;
    Ok(marks)
}

#[tactic(auto, using(crate::proofs::runs::Ranges::range_more))]
pub fn classes_at(alloc: Global, end: usize) -> Result<Vec<usize>, Memory>
    ensures { IfOk result (λ classes. classes.items ≡ range_with_len 0 end) }
{
    let mut classes = Vec::new(alloc);
    for t in 0..end {
        classes.push(t)?;
    }
    Ok(classes)
}

/// No head was reached yet.
fn heads_at_start(alloc: Global, heads: &[Head]) -> Result<Vec<ReachedHead>, Memory>
    ensures { IfOk result (λ found. found.items ≡ map first_head heads.now) }
{
    let found: Vec<ReachedHead> = heads
        .iter()
        .map(|head| ReachedHead {
            label: head.label.0,
            pos: head.pos,
            times: 0,
        })
        .collect(alloc)?;
    Ok(found)
}

fn first_place(heads: &[Head]) -> Pos
    ensures { result ≡ first_place heads.now }
{
    match heads.first() {
        Some(head) => head.pos,
        None => Pos { line: 0, col: 0 },
    }
}

fn turns_at_start(alloc: Global, heads: &[Head]) -> Result<Turns, Memory>
    ensures { IfOk result (λ t. t ≡ first_turns heads.now) }
{
    let found = heads_at_start(alloc, heads)?;
    Ok(Turns {
        heads: Seq::new(found),
        steps: 0,
        last: first_place(heads),
        arriving: true,
    })
}

fn known_at_start(alloc: Global, statics: u32, f: usize, code: &Code) -> Result<Known, Memory>
    ensures { IfOk result (λ k. k ≡ known_at statics f code.now) }
{
    let vars = variables(alloc, statics, code)?;
    let marks = marks_at(alloc, statics, code)?;
    Ok(Known {
        function: f,
        pc: 0,
        vars,
        slots: Seq::new(Vec::new(alloc)),
        made: Seq::new(Vec::new(alloc)),
        marks: Seq::new(marks),
        progress: Progress::Looking(0),
        status: Status::Going,
        turns: turns_at_start(alloc, code.heads.as_slice())?,
        computed: Seq::new(Vec::new(alloc)),
        places: NumberPlaces {
            compared: None,
            computed: None,
        },
    })
}

/// The state at the start of a function.
pub fn first_state(alloc: Global, statics: u32, f: usize, code: &Code) -> Result<State, Memory>
    ensures { IfOk result (λ s. s ≡ start_state statics f code.now) }
{
    let end = tokens_at(statics, code);
    let classes = classes_at(alloc, end)?;
    let balances = vec![in alloc; 0i64; end]?;
    let known = known_at_start(alloc, statics, f, code)?;
    Ok(State {
        known,
        statics,
        classes: Seq::new(classes),
        balances: Seq::new(balances),
        others: Seq::new(Vec::new(alloc)),
        limits: Seq::new(Vec::new(alloc)),
    })
}

/// The states with which the runs of a function begin: one, where it has code.
pub fn first_of(alloc: Global, codes: &Codes, f: usize) -> Result<Vec<(Decision, Sym)>, Memory>
    ensures { IfOk result (λ first. first.items ≡ start_states codes.now.statics f (code_at codes.now f)) }
{
    let mut first = Vec::new(alloc);
    if let Some(code) = code_of(codes, f) {
        let state = first_state(alloc, codes.statics, f, code)?;
        first.push((Decision::Quiet, Sym::new(state)))?;
    }
    Ok(first)
}

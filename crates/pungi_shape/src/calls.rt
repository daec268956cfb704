ghost use Rattle.std.specs.Prelude.{◌≡◌, ◌<◌, ◌≤◌, ◌^◌, ◌++◌, ◌∷◌, [], ℕ, true, negsuc, get_or, if◌then◌else◌};
ghost use Rattle.std.specs.Prelude.{OnOk, length, map};
ghost use Rattle.std.specs.List.{enumerate_from, list_all};
ghost use Rattle.pungi_shape.specs.declared.holding.Holding.TheVariants.{Known, Token};
ghost use Rattle.pungi_shape.specs.declared.outcome.Outcome.TheVariants.{Nothing};
ghost use Rattle.pungi_world.specs.Calls.{is_success, is_call_success, is_taken, is_taken_at};
ghost use Rattle.pungi_shape.specs.Bounds.{IsFresh, IsScene, has_opposite};
ghost use Rattle.pungi_shape.specs.Calls.{outcomes_of_row, outcomes_of, outcome_value, lacks, stops, first_holding};
ghost use Rattle.pungi_shape.specs.Calls.{take_over, does, outcome_cases, put_if, put_reference, new_balance};
ghost use Rattle.pungi_shape.specs.Calls.{makes, any_number, outcome_case, argument_case, answer_cases};
ghost use Rattle.pungi_shape.specs.Cases.{leads, passes_on};
ghost use Rattle.pungi_shape.specs.Forms.{zero_form, constant, plus, IsFactor, IsStorable};
ghost use Rattle.pungi_shape.specs.Scenes.{holding_of, form_of, new_token, add_to_holding, balance_at};

use crate::cases::{add_frees, add_leads, add_passes_on, add_same, add_with_var, add_with_zero};
use crate::{Case, Form, Holding, Outcome, Scene};
use pungi_api::{Answer, CallAnswer, OwnEffect, Param, Signature, Take};
use pungi_base::{Memory, Seq, Value};
use pungi_code::{Atom, Var};
use std::alloc::Global;

// ---- outcomes

/// The outcomes of a row with this answer, in order.
fn outcomes_of_row(answer: Answer) -> &'static [Outcome]
    ensures { result.now ≡ outcomes_of_row answer }
{
    match answer {
        Answer::New | Answer::Borrowed | Answer::Made => &[Outcome::Null, Outcome::Object],
        Answer::BorrowedSure => &[Outcome::Object],
        Answer::Status => &[Outcome::Known(0), Outcome::Known(-1)],
        Answer::Truth => &[Outcome::Known(1), Outcome::Known(0), Outcome::Known(-1)],
        Answer::Found => &[Outcome::Known(1), Outcome::Known(0)],
        Answer::Size | Answer::Int | Answer::Long | Answer::AnySize | Answer::Flag => {
            &[Outcome::Number]
        }
        Answer::Converted { .. } => &[Outcome::Number],
        Answer::Text => &[Outcome::Null, Outcome::Text],
        Answer::TextSure => &[Outcome::Text],
        Answer::Void => &[Outcome::Nothing],
        Answer::Null => &[Outcome::Null],
    }
}

/// The outcomes of a call, in order.
fn outcomes_of(answer: CallAnswer) -> &'static [Outcome]
    ensures { result.now ≡ outcomes_of answer }
{
    match answer {
        CallAnswer::Of(answer) => outcomes_of_row(answer),
        CallAnswer::Argument => &[Outcome::Nothing],
    }
}

/// A value that a call with this outcome returns, if it returns one.
fn outcome_value(o: Outcome) -> Option<Value>
    ensures { result ≡ outcome_value o }
{
    match o {
        Outcome::Nothing => None,
        Outcome::Null => Some(Value::Null),
        Outcome::Object => Some(Value::Object(0)),
        Outcome::Text => Some(Value::Text),
        Outcome::Known(n) => Some(Value::Int(n as i64)),
        Outcome::Number => Some(Value::Int(0)),
    }
}

// ---- the first part

/// Whether an argument is `NULL` where the parameter may not be.
fn lacks(param: Param, h: Holding) -> bool
    ensures { result ≡ lacks param h }
{
    match param {
        Param::Object | Param::Text => matches!(h, Holding::Null),
        Param::ObjectOrNull
        | Param::Int
        | Param::Long
        | Param::Size
        | Param::TextOrNull
        | Param::ModuleDef => false,
    }
}

fn stops(params: &[Param], holdings: &[Holding]) -> bool
    ensures { result ≡ stops params.now holdings.now }
{
    params
        .iter()
        .zip(holdings)
        .any(|(param, h)| lacks(*param, *h))
}

/// What the first argument holds.
fn first_holding(holdings: &[Holding]) -> Holding
    ensures { result ≡ first_holding holdings.now }
{
    match holdings {
        [h, ..] => *h,
        [] => Holding::Null,
    }
}

/// Whether an answer says that the call succeeded.
fn is_success(answer: Answer, value: Option<Value>) -> bool
    ensures { result ≡ is_success answer value }
{
    match (answer, value) {
        (Answer::New, Some(Value::Object(_))) => true,
        (Answer::Status, Some(Value::Int(n))) => n == 0,
        _ => false,
    }
}

fn is_call_success(answer: CallAnswer, value: Option<Value>) -> bool
    ensures { result ≡ is_call_success answer value }
{
    match answer {
        CallAnswer::Of(answer) => is_success(answer, value),
        CallAnswer::Argument => false,
    }
}

/// Whether a call takes over the argument of such a parameter.
fn is_taken(success: bool, take: Take) -> bool
    ensures { result ≡ is_taken success take }
{
    match take {
        Take::Never => false,
        Take::Always => true,
        Take::OnSuccess => success,
    }
}

/// Whether a call takes over the argument at this place.
fn is_taken_at(success: bool, takes: &[Take], i: usize) -> bool
    ensures { result ≡ is_taken_at success takes.now i }
{
    if i < takes.len() {
        is_taken(success, takes[i])
    } else {
        false
    }
}

/// A reference to what is held escapes, if it is taken over.
fn take_one(alloc: Global, taken: bool, h: Holding, scene: &mut Scene) -> Result<(), Memory>
    requires scene { IsScene scene.old }
    requires storable { (t : ℕ) → h ≡ Token t
        → IsStorable (plus (balance_at scene.old t) (constant scene.old.width (negsuc 0))) }
    ensures { OnOk result (scene.new ≡ (if taken then add_to_holding h (negsuc 0) scene.old else scene.old)) }
{
    if taken {
        scene.add_to_holding(alloc, h, -1)
    } else {
        Ok(())
    }
}

/// The arguments that are taken over: a reference to each escapes.
fn take_over(
    alloc: Global,
    success: bool,
    takes: &[Take],
    holdings: &[Holding],
    scene: &mut Scene,
) -> Result<(), Memory>
    requires scene { IsScene scene.old }
    requires fresh { IsFresh scene.old }
    ensures { OnOk result (scene.new ≡ take_over success takes.now holdings.now scene.old) }
{
    for (i, h) in holdings.iter().enumerate() {
        take_one(alloc, is_taken_at(success, takes, i), *h, scene)?;
    }
    Ok(())
}

/// What a call does besides its answer, with this outcome.
fn does(
    alloc: Global,
    g: &Signature,
    holdings: &[Holding],
    o: Outcome,
    scene: &mut Scene,
) -> Result<(), Memory>
    requires scene { IsScene scene.old }
    requires fresh { IsFresh scene.old }
    ensures { OnOk result (scene.new ≡ does g.now.own g.now holdings.now o scene.old) }
{
    match g.own {
        None => {
            let success = is_call_success(g.answer, outcome_value(o));
            take_over(alloc, success, g.takes.as_slice(), holdings, scene)
        }
        Some(OwnEffect::IncRef) => scene.add_to_holding(alloc, first_holding(holdings), 1),
        Some(OwnEffect::DecRef) => scene.add_to_holding(alloc, first_holding(holdings), -1),
    }
}

/// Adds the case of an outcome, by its number.
fn add_outcome(
    alloc: Global,
    g: &Signature,
    holdings: &[Holding],
    k: u32,
    o: Outcome,
    scene: Scene,
    out: &mut Seq<Case>,
) -> Result<(), Memory>
    requires scene { IsScene scene }
    requires fresh { IsFresh scene }
    ensures { OnOk result (out.new ≡ out.old ++ passes_on k (does g.now.own g.now holdings.now o scene) ∷ []) }
{
    let mut after = scene;
    does(alloc, g, holdings, o, &mut after)?;
    add_passes_on(alloc, k, after, out)
}

/// Adds this case, with a copy of the scene.
fn add_copied_outcome(
    alloc: Global,
    g: &Signature,
    holdings: &[Holding],
    k: u32,
    o: Outcome,
    scene: &Scene,
    out: &mut Seq<Case>,
) -> Result<(), Memory>
    requires scene { IsScene scene.now }
    requires fresh { IsFresh scene.now }
    ensures { OnOk result (out.new ≡ out.old ++ passes_on k (does g.now.own g.now holdings.now o scene.now) ∷ []) }
{
    let copy = scene.copy(alloc)?;
    add_outcome(alloc, g, holdings, k, o, copy, out)
}

/// Adds the cases of these outcomes, by their numbers. The last takes the scene, and each other a copy.
fn add_outcomes(
    alloc: Global,
    g: &Signature,
    holdings: &[Holding],
    outcomes: &[Outcome],
    scene: Scene,
    out: &mut Seq<Case>,
) -> Result<(), Memory>
    requires few { length outcomes.now ≤ 3 }
    requires scene { IsScene scene }
    requires fresh { IsFresh scene }
    ensures { OnOk result (out.new ≡ out.old ++ map (λ e. passes_on e.0 (does g.now.own g.now holdings.now e.1 scene))
        (enumerate_from 0 outcomes.now)) }
{
    let Some((last, others)) = outcomes.split_last() else {
        return Ok(());
    };
    for (k, o) in others.iter().enumerate() {
        add_copied_outcome(alloc, g, holdings, k as u32, *o, &scene, out)?;
    }
    add_outcome(alloc, g, holdings, others.len() as u32, *last, scene, out)
}

/// Adds the cases of the first part of a call: one for each outcome.
pub(crate) fn outcome_cases(
    alloc: Global,
    g: &Signature,
    holdings: &[Holding],
    scene: Scene,
    out: &mut Seq<Case>,
) -> Result<(), Memory>
    requires scene { IsScene scene }
    requires fresh { IsFresh scene }
    ensures { OnOk result (out.new ≡ out.old ++ outcome_cases g.now holdings.now scene) }
{
    if stops(g.params.as_slice(), holdings) {
        return Ok(());
    }
    add_outcomes(alloc, g, holdings, outcomes_of(g.answer), scene, out)
}

// ---- the answer

/// The balance of an object that is returned: 1 of a new reference, 0 of a borrowed one.
fn new_balance(answer: CallAnswer) -> i64
    ensures { result ≡ new_balance answer }
{
    match answer {
        CallAnswer::Of(Answer::New | Answer::Made) => 1,
        _ => 0,
    }
}

/// Whether a call with this answer makes the object that it returns.
fn makes(answer: CallAnswer) -> bool
    ensures { result ≡ makes answer }
{
    match answer {
        CallAnswer::Of(Answer::Made) => true,
        _ => false,
    }
}

/// Adds the case that the variable of an answer gets this, if there is one.
fn add_if(
    alloc: Global,
    x: Option<Var>,
    h: Holding,
    form: Form,
    pc: u32,
    scene: Scene,
    out: &mut Seq<Case>,
) -> Result<(), Memory>
    ensures { OnOk result (out.new ≡ out.old ++ leads pc (put_if x h form scene) ∷ []) }
{
    match x {
        Some(x) => add_with_var(alloc, x.0, h, form, pc, scene, out),
        None => add_same(alloc, pc, scene, out),
    }
}

/// Adds the case that the variable of an answer gets what is no number, if there is one.
fn add_zero_if(
    alloc: Global,
    x: Option<Var>,
    h: Holding,
    pc: u32,
    scene: Scene,
    out: &mut Seq<Case>,
) -> Result<(), Memory>
    ensures { OnOk result (out.new ≡ out.old ++ leads pc (put_if x h (zero_form scene.width) scene) ∷ []) }
{
    match x {
        Some(x) => add_with_zero(alloc, x.0, h, pc, scene, out),
        None => add_same(alloc, pc, scene, out),
    }
}

/// Adds the case that the variable of an answer gets a number, if there is one.
fn add_number_if(
    alloc: Global,
    x: Option<Var>,
    n: i8,
    pc: u32,
    scene: Scene,
    out: &mut Seq<Case>,
) -> Result<(), Memory>
    ensures { OnOk result (out.new
        ≡ out.old ++ leads pc (put_if x (Known n) (constant scene.width n) scene) ∷ []) }
{
    let form = Form::constant(alloc, scene.width, n as i64)?;
    add_if(alloc, x, Holding::Known(n), form, pc, scene, out)
}

/// The variable of an answer gets a token of its own, with this balance, which was made or not.
fn put_reference(
    alloc: Global,
    scene: &mut Scene,
    x: Option<Var>,
    n: i64,
    made: bool,
) -> Result<(), Memory>
    requires few { new_token scene.old < 2 ^ 32 }
    requires factor { IsFactor n }
    ensures { OnOk result (scene.new ≡ put_reference x n made scene.old) }
{
    let t = scene.new_token();
    let form = Form::constant(alloc, scene.width, n)?;
    scene.put_token(form, made)?;
    if let Some(x) = x {
        scene.put_var(x.0, Holding::Token(t), Form::zero(alloc, scene.width));
    }
    Ok(())
}

/// Adds the case of an answer with an object.
fn add_reference(
    alloc: Global,
    x: Option<Var>,
    n: i64,
    made: bool,
    pc: u32,
    scene: Scene,
    out: &mut Seq<Case>,
) -> Result<(), Memory>
    requires few { new_token scene < 2 ^ 32 }
    requires factor { IsFactor n }
    ensures { OnOk result (out.new ≡ out.old ++ leads pc (put_reference x n made scene) ∷ []) }
{
    let mut after = scene;
    put_reference(alloc, &mut after, x, n, made)?;
    add_leads(alloc, pc, after, out)
}

/// Adds the case of an answer with any number.
fn add_any_number(
    alloc: Global,
    x: Option<Var>,
    pc: u32,
    scene: Scene,
    out: &mut Seq<Case>,
) -> Result<(), Memory>
    ensures { OnOk result (out.new ≡ out.old ++ any_number x pc scene ∷ []) }
{
    match x {
        Some(x) => add_frees(alloc, x.0, Holding::Number, pc, scene, out),
        None => add_same(alloc, pc, scene, out),
    }
}

/// Adds the case of an answer with this outcome.
fn outcome_case(
    alloc: Global,
    o: Outcome,
    answer: CallAnswer,
    x: Option<Var>,
    pc: u32,
    scene: Scene,
    out: &mut Seq<Case>,
) -> Result<(), Memory>
    requires { new_token scene < 2 ^ 32 }
    ensures { OnOk result (out.new ≡ out.old ++ outcome_case o answer x pc scene ∷ []) }
{
    match o {
        Outcome::Nothing => add_same(alloc, pc, scene, out),
        Outcome::Null => add_zero_if(alloc, x, Holding::Null, pc, scene, out),
        Outcome::Object => {
            add_reference(alloc, x, new_balance(answer), makes(answer), pc, scene, out)
        }
        Outcome::Text => add_zero_if(alloc, x, Holding::Text, pc, scene, out),
        Outcome::Known(n) => add_number_if(alloc, x, n, pc, scene, out),
        Outcome::Number => add_any_number(alloc, x, pc, scene, out),
    }
}

/// Adds the case of an answer that is this argument.
fn add_argument(
    alloc: Global,
    x: Option<Var>,
    a: Atom,
    pc: u32,
    scene: Scene,
    out: &mut Seq<Case>,
) -> Result<(), Memory>
    requires { has_opposite a ≡ true }
    ensures { OnOk result (out.new
        ≡ out.old ++ leads pc (put_if x (holding_of scene a) (form_of scene a) scene) ∷ []) }
{
    let form = scene.form_of(alloc, a)?;
    add_if(alloc, x, scene.holding_of(a), form, pc, scene, out)
}

/// Adds the case of an answer that is the first argument.
fn argument_case(
    alloc: Global,
    x: Option<Var>,
    atoms: &[Atom],
    pc: u32,
    scene: Scene,
    out: &mut Seq<Case>,
) -> Result<(), Memory>
    requires { list_all has_opposite atoms.now ≡ true }
    ensures { OnOk result (out.new ≡ out.old ++ argument_case x atoms.now pc scene ∷ []) }
{
    match atoms {
        [a, ..] => add_argument(alloc, x, *a, pc, scene, out),
        [] => add_zero_if(alloc, x, Holding::Null, pc, scene, out),
    }
}

/// The outcome of this number, of a row with this answer.
fn outcome_at(answer: Answer, k: u32) -> Outcome
    ensures { result ≡ get_or (outcomes_of_row answer) k Nothing }
{
    let outcomes = outcomes_of_row(answer);
    if (k as usize) < outcomes.len() {
        outcomes[k as usize]
    } else {
        Outcome::Nothing
    }
}

/// Adds the case of the last part of a call, after the outcome of this number.
pub(crate) fn answer_cases(
    alloc: Global,
    k: u32,
    answer: CallAnswer,
    x: Option<Var>,
    atoms: &[Atom],
    pc: u32,
    scene: Scene,
    out: &mut Seq<Case>,
) -> Result<(), Memory>
    requires few { new_token scene < 2 ^ 32 }
    requires opposites { list_all has_opposite atoms.now ≡ true }
    ensures { OnOk result (out.new ≡ out.old ++ answer_cases k answer x atoms.now pc scene) }
{
    match answer {
        CallAnswer::Of(row) => outcome_case(alloc, outcome_at(row, k), answer, x, pc, scene, out),
        CallAnswer::Argument => argument_case(alloc, x, atoms, pc, scene, out),
    }
}

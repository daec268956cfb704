ghost use Rattle.std.specs.Prelude.{◌≡◌, ◌<◌, ◌≤◌, ◌^◌, ℕ, [], ◌∷◌, ◌++◌, length, map, OnOk, IfOk};
ghost use Rattle.std.specs.List.{flat_map, zip};
ghost use Rattle.pungi_shape.specs.Arrivals.{arrive, numbers_kept, rows_under};
ghost use Rattle.pungi_shape.specs.Bounds.{IsCodeOfFile, IsScene};
ghost use Rattle.pungi_shape.specs.Live.{IsLiveness};
ghost use Rattle.pungi_shape.specs.Numbered.{dropped, made_by, number_by};
ghost use Rattle.pungi_shape.specs.Scenes.{balance_at};
ghost use Rattle.pungi_shape.specs.Shapes.{rename, rename_holding, rename_tracked, tokens_of};

use crate::kept::{anchored, slots_in_order, trim};
use crate::liveness::Liveness;
use crate::numbering::Numbering;
use crate::{Arrival, Form, Holding, Point, Scene, Shape, Spot, Tracked};
use pungi_base::{Memory, Seq};
use pungi_code::Code;
use std::alloc::Global;

/// Adds the form of a holder that holds a number.
fn push_kept(alloc: Global, rows: &mut Seq<Form>, h: Holding, f: &Form) -> Result<(), Memory>
    ensures { OnOk result (rows.new ≡ rows.old ++ numbers_kept (h ∷ []) (f.now ∷ [])) }
{
    if h.is_number() {
        rows.push(f.copy(alloc)?)
    } else {
        Ok(())
    }
}

/// Adds the forms of the holders that hold a number.
fn push_all_kept(
    alloc: Global,
    rows: &mut Seq<Form>,
    holdings: &[Holding],
    forms: &[Form],
) -> Result<(), Memory>
    requires { length forms.now ≡ length holdings.now }
    ensures { OnOk result (rows.new ≡ rows.old ++ numbers_kept holdings.now forms.now) }
{
    for i in 0..holdings.len() {
        if holdings[i].is_number() {
            rows.push(forms[i].copy(alloc)?)?;
        }
    }
    Ok(())
}

/// Adds the balances of tokens.
fn push_balances(
    alloc: Global,
    rows: &mut Seq<Form>,
    scene: &Scene,
    tokens: &[u32],
) -> Result<(), Memory>
    ensures { OnOk result (rows.new ≡ rows.old ++ map (balance_at scene.now) tokens.now) }
{
    for t in tokens {
        rows.push(scene.balance_at(alloc, *t)?)?;
    }
    Ok(())
}

/// The forms of the coordinates of the scene's own shape, which is what is kept.
fn rows_under(alloc: Global, scene: &Scene, tokens: &[u32]) -> Result<Seq<Form>, Memory>
    requires tokens { tokens.now ≡ tokens_of scene.now.shape }
    requires vars { length scene.now.vars ≡ length scene.now.shape.vars }
    requires entry { length scene.now.entry ≡ length scene.now.shape.entry }
    ensures { IfOk result (λ rows. rows ≡ rows_under scene.now scene.now.shape) }
{
    let kept = &scene.shape;
    let mut rows = Seq::new(Vec::new(alloc));
    rows.push(Form::unit(alloc, scene.width, 0)?)?;
    push_all_kept(
        alloc,
        &mut rows,
        kept.vars.as_slice(),
        scene.vars.as_slice(),
    )?;
    push_kept(alloc, &mut rows, kept.returned, &scene.returned)?;
    push_all_kept(
        alloc,
        &mut rows,
        kept.entry.as_slice(),
        scene.entry.as_slice(),
    )?;
    push_balances(alloc, &mut rows, scene, tokens)?;
    Ok(rows)
}

/// Adds the balance of a token that has no number.
fn push_drop(
    alloc: Global,
    drops: &mut Seq<Form>,
    number: Option<usize>,
    balance: &Option<Form>,
) -> Result<(), Memory>
    ensures { OnOk result (drops.new ≡ drops.old ++ dropped number balance.now) }
{
    match number {
        Some(_) => Ok(()),
        None => match balance {
            None => Ok(()),
            Some(f) => drops.push(f.copy(alloc)?),
        },
    }
}

/// The balances of the tokens that nothing holds any more.
fn drops_under(
    alloc: Global,
    balances: &[Option<Form>],
    numbers: &[Option<usize>],
) -> Result<Seq<Form>, Memory>
    requires { length numbers.now ≡ length balances.now }
    ensures { IfOk result (λ drops. drops ≡ flat_map (λ e. dropped e.0 e.1) (zip numbers.now balances.now)) }
{
    let mut drops = Seq::new(Vec::new(alloc));
    for t in 0..balances.len() {
        push_drop(alloc, &mut drops, numbers[t], &balances[t])?;
    }
    Ok(drops)
}

/// The same holding, with the new number of its token.
fn renumber_holding(numbering: &Numbering, h: Holding) -> Holding
    requires { (t : ℕ) → number_by numbering.now t < 2 ^ 32 }
    ensures { result ≡ rename_holding (number_by numbering.now) h }
{
    match h {
        Holding::Token(t) => Holding::Token(numbering.number(t)),
        _ => h,
    }
}

fn renumber_holdings(numbering: &Numbering, holdings: &mut Seq<Holding>)
    requires { (t : ℕ) → number_by numbering.now t < 2 ^ 32 }
    ensures { holdings.new ≡ map (rename_holding (number_by numbering.now)) holdings.old }
{
    for i in 0..holdings.len() {
        if let Holding::Token(t) = holdings.as_slice()[i] {
            holdings.set(i, Holding::Token(numbering.number(t)));
        }
    }
}

fn renumber_statics(numbering: &Numbering, statics: &mut Seq<(u32, Holding)>)
    requires { (t : ℕ) → number_by numbering.now t < 2 ^ 32 }
    ensures { statics.new ≡ map (λ k. (k.0, rename_holding (number_by numbering.now) k.1)) statics.old }
{
    for i in 0..statics.len() {
        let k = statics.as_slice()[i];
        statics.set(i, (k.0, renumber_holding(numbering, k.1)));
    }
}

fn renumber_slot(numbering: &Numbering, r: Tracked) -> Tracked
    requires { (t : ℕ) → number_by numbering.now t < 2 ^ 32 }
    ensures { result ≡ rename_tracked (number_by numbering.now) r }
{
    let spot = match r.spot {
        Spot::Global(n) => Spot::Global(n),
        Spot::Field { base, tag, field } => Spot::Field {
            base: numbering.number(base),
            tag,
            field,
        },
    };
    Tracked {
        spot,
        held: renumber_holding(numbering, r.held),
    }
}

fn renumber_slots(numbering: &Numbering, slots: &mut Seq<Tracked>)
    requires { (t : ℕ) → number_by numbering.now t < 2 ^ 32 }
    ensures { slots.new ≡ map (rename_tracked (number_by numbering.now)) slots.old }
{
    for i in 0..slots.len() {
        let r = slots.as_slice()[i];
        slots.set(i, renumber_slot(numbering, r));
    }
}

/// Which tokens are made objects that an anchor holds, by their new numbers.
fn made_tokens(
    alloc: Global,
    made: &[bool],
    marks: &[bool],
    tokens: &[u32],
) -> Result<Seq<bool>, Memory>
    ensures { IfOk result (λ out. out ≡ map (made_by made.now marks.now) tokens.now) }
{
    let mut out = Seq::new(Vec::new(alloc));
    for t in tokens {
        let i = *t as usize;
        out.push(i < made.len() && made[i] && i < marks.len() && marks[i])?;
    }
    Ok(out)
}

/// Tokens have the numbers of the holders that hold them first.
fn renumber(
    alloc: Global,
    numbering: &Numbering,
    marks: &[bool],
    shape: &mut Shape,
) -> Result<(), Memory>
    requires { (t : ℕ) → number_by numbering.now t < 2 ^ 32 }
    ensures { OnOk result (shape.new ≡ record (rename (number_by numbering.now) shape.old)
        { made = map (made_by shape.old.made marks.now) numbering.now.tokens }) }
{
    shape.made = made_tokens(
        alloc,
        shape.made.as_slice(),
        marks,
        numbering.tokens.as_slice(),
    )?;
    renumber_holdings(numbering, &mut shape.entry);
    renumber_holdings(numbering, &mut shape.vars);
    renumber_statics(numbering, &mut shape.statics);
    shape.returned = renumber_holding(numbering, shape.returned);
    renumber_slots(numbering, &mut shape.slots);
    Ok(())
}

/// A scene arrives at this point: its shape becomes that of the place. Returns the forms of the coordinates, and the
/// balances of the tokens that nothing holds any more. After an `Err` the scene may be any.
fn reshape(
    alloc: Global,
    code: &Code,
    live: &Liveness,
    p: Point,
    scene: &mut Scene,
) -> Result<(Seq<Form>, Seq<Form>), Memory>
    requires well_formed { IsCodeOfFile code.now }
    requires live { IsLiveness code.now live.now }
    requires scene { IsScene scene.old }
    requires vars { length scene.old.shape.vars ≤ length code.now.vars }
    requires few { length scene.old.shape.made < 2 ^ 32 }
    ensures shape { IfOk result (λ _. scene.new.shape ≡ (arrive code.now p scene.old).shape) }
    ensures rows { IfOk result (λ r. r.0 ≡ (arrive code.now p scene.old).rows) }
    ensures drops { IfOk result (λ r. r.1 ≡ (arrive code.now p scene.old).drops) }
{
    trim(code, live, p, &mut scene.shape);
    let marks = anchored(alloc, &scene.shape)?;
    let mut numbering = Numbering::before_slots(alloc, &scene.shape)?;
    let slots = scene.shape.slots.as_slice();
    scene.shape.slots = slots_in_order(alloc, &numbering, marks.as_slice(), slots)?;
    numbering.put_slots(scene.shape.slots.as_slice())?;
    let rows = rows_under(alloc, scene, numbering.tokens.as_slice())?;
    let drops = drops_under(
        alloc,
        scene.balances.as_slice(),
        numbering.numbers.as_slice(),
    )?;
    renumber(alloc, &numbering, marks.as_slice(), &mut scene.shape)?;
    Ok((rows, drops))
}

/// What a scene arrives at, at this point.
pub(crate) fn arrive(
    alloc: Global,
    code: &Code,
    live: &Liveness,
    p: Point,
    scene: Scene,
) -> Result<Arrival, Memory>
    requires well_formed { IsCodeOfFile code.now }
    requires live { IsLiveness code.now live.now }
    requires scene { IsScene scene }
    requires vars { length scene.shape.vars ≤ length code.now.vars }
    requires few { length scene.shape.made < 2 ^ 32 }
    ensures { IfOk result (λ a. a ≡ arrive code.now p scene) }
{
    let mut after = scene;
    let (rows, drops) = reshape(alloc, code, live, p, &mut after)?;
    Ok(Arrival {
        shape: after.into_shape(),
        rows,
        drops,
    })
}

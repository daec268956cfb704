// Where a function is entered.
ghost use Rattle.std.specs.Prelude.{◌≡◌, ◌≤◌, ◌<◌, ◌+◌, ◌-◌, ◌^◌, ◌++◌, Some, false, length, replicate, IfOk, OnOk};
ghost use Rattle.pungi_shape.specs.declared.holding.Holding.TheVariants.{Unset};
ghost use Rattle.pungi_shape.specs.Bounds.{IsCodeOfFile};
ghost use Rattle.pungi_shape.specs.Edges.{entry_scene};
ghost use Rattle.pungi_shape.specs.Forms.{zero_form};
ghost use Rattle.pungi_shape.specs.Live.{IsLiveness};
ghost use Rattle.pungi_shape.specs.Places.{entry_shape, entry_width, tokens_from, whole_entry_shape};
ghost use Rattle.pungi_shape.specs.Shapes.{tokens_in};

use crate::kept::trim;
use crate::liveness::Liveness;
use crate::scenes::number_forms;
use crate::shapes::count_of_numbers;
use crate::skips::start_of;
use crate::{Form, Holding, Scene, Shape};
use pungi_base::{Memory, Seq};
use pungi_code::Code;
use std::alloc::Global;

// ---- the scene at an entry

/// Forms that are 0.
pub(crate) fn push_zeros(
    alloc: Global,
    width: u32,
    count: usize,
    out: &mut Seq<Form>,
) -> Result<(), Memory>
    ensures { OnOk result (out.new ≡ out.old ++ replicate count (zero_form width)) }
{
    for _ in 0..count {
        out.push(Form::zero(alloc, width))?;
    }
    Ok(())
}

/// The balances of so many tokens, each 0.
pub(crate) fn level_balances(
    alloc: Global,
    width: u32,
    count: usize,
) -> Result<Seq<Option<Form>>, Memory>
    ensures { IfOk result (λ balances. balances ≡ replicate count (Some (zero_form width))) }
{
    let mut balances = Seq::new(Vec::new(alloc));
    for _ in 0..count {
        balances.push(Some(Form::zero(alloc, width)))?;
    }
    Ok(balances)
}

/// The scene at an entry, over its coordinates: the parameters hold their values, and each balance is 0.
pub(crate) fn entry_scene(alloc: Global, shape: &Shape) -> Result<Scene, Memory>
    requires fits { length shape.now.entry ≤ length shape.now.vars }
    requires narrow { entry_width shape.now ≤ 256 }
    ensures { IfOk result (λ scene. scene ≡ entry_scene shape.now) }
{
    let width = 1 + count_of_numbers(shape.entry.as_slice()) as u32;
    let mut vars = number_forms(alloc, width, 1, shape.entry.as_slice())?;
    push_zeros(
        alloc,
        width,
        shape.vars.len() - shape.entry.len(),
        &mut vars,
    )?;
    let entry = number_forms(alloc, width, 1, shape.entry.as_slice())?;
    let balances = level_balances(alloc, width, shape.made.len())?;
    let shape = shape.copy(alloc)?;
    Ok(Scene {
        width,
        shape,
        vars,
        returned: Form::zero(alloc, width),
        entry,
        balances,
    })
}

// ---- the shapes at an entry

fn push_unset(count: usize, vars: &mut Seq<Holding>) -> Result<(), Memory>
    ensures { OnOk result (vars.new ≡ vars.old ++ replicate count Unset) }
{
    for _ in 0..count {
        vars.push(Holding::Unset)?;
    }
    Ok(())
}

/// The variables where the first ones hold these values.
fn entry_vars(alloc: Global, count: usize, values: &[Holding]) -> Result<Seq<Holding>, Memory>
    requires { length values.now ≤ count }
    ensures { IfOk result (λ vars. vars ≡ values.now ++ replicate (count - length values.now) Unset) }
{
    let mut vars = Seq::new(Vec::from_slice(alloc, values)?);
    push_unset(count - values.len(), &mut vars)?;
    Ok(vars)
}

/// These static objects, with the tokens from t on.
fn static_tokens(alloc: Global, statics: &[u32], t: u32) -> Result<Seq<(u32, Holding)>, Memory>
    requires { t + length statics.now < 2 ^ 32 }
    ensures { IfOk result (λ list. list ≡ tokens_from t statics.now) }
{
    let mut list = Seq::new(Vec::new(alloc));
    for (i, k) in statics.iter().enumerate() {
        list.push((*k, Holding::Token(t + i as u32)))?;
    }
    Ok(list)
}

/// The shape where a function is entered with these values, which have so many tokens, of all variables.
fn whole_entry_shape(
    alloc: Global,
    statics: &[u32],
    code: &Code,
    values: &[Holding],
    tokens: u32,
) -> Result<Shape, Memory>
    requires fits { length values.now ≤ length code.now.vars }
    requires tokens { tokens ≡ length (tokens_in values.now) }
    requires few { tokens + length statics.now < 2 ^ 32 }
    ensures { IfOk result (λ shape. shape ≡ whole_entry_shape statics.now code.now values.now) }
{
    let entry = Seq::new(Vec::from_slice(alloc, values)?);
    let vars = entry_vars(alloc, code.vars.len(), values)?;
    let named = static_tokens(alloc, statics, tokens)?;
    let made = Seq::new(vec![in alloc; false; tokens as usize + statics.len()]?);
    Ok(Shape {
        entry,
        vars,
        statics: named,
        returned: Holding::Dead,
        slots: Seq::new(Vec::new(alloc)),
        made,
    })
}

/// The shape where a function is entered with these values, which have so many tokens.
pub(crate) fn entry_shape(
    alloc: Global,
    statics: &[u32],
    code: &Code,
    live: &Liveness,
    values: &[Holding],
    tokens: u32,
) -> Result<Shape, Memory>
    requires well_formed { IsCodeOfFile code.now }
    requires live { IsLiveness code.now live.now }
    requires fits { length values.now ≤ length code.now.vars }
    requires tokens { tokens ≡ length (tokens_in values.now) }
    requires few { tokens + length statics.now < 2 ^ 32 }
    ensures { IfOk result (λ shape. shape ≡ entry_shape statics.now code.now values.now) }
{
    let mut shape = whole_entry_shape(alloc, statics, code, values, tokens)?;
    trim(code, live, start_of(0), &mut shape);
    Ok(shape)
}

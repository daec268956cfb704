// What is kept of a shape at a point.
ghost use Rattle.std.specs.Prelude.{◌≡◌, ◌<◌, ◌≤◌, ◌^◌, ℕ, [], ◌∷◌, true, false, length, map, replicate};
ghost use Rattle.std.specs.Prelude.{if◌then◌else◌, reverse, IfOk, OnOk};
ghost use Rattle.std.specs.List.{filter};
ghost use Rattle.std.specs.Ordering.{nat_cmp};
ghost use Rattle.std.specs.Cmp.Lexicographic.{slice_cmp};
ghost use Rattle.pungi_shape.specs.declared.holding.Holding.TheVariants.{Dead};
ghost use Rattle.pungi_shape.specs.Arrivals.{anchors, trim};
ghost use Rattle.pungi_shape.specs.Bounds.{IsCodeOfFile};
ghost use Rattle.pungi_shape.specs.Live.{IsLiveness};
ghost use Rattle.pungi_shape.specs.Liveness.{is_holder};
ghost use Rattle.pungi_shape.specs.Numbered.{key_by, kept_by, mark, mark_all, number_by, put_spot, put_spots};
ghost use Rattle.pungi_shape.specs.Shapes.{holding_of_static};

use crate::liveness::Liveness;
use crate::numbering::Numbering;
use crate::{Holding, Point, Shape, Spot, Tracked};
use pungi_base::{Memory, Seq};
use pungi_code::Code;
use std::alloc::Global;
use std::cmp::Ordering;

/// Whether a variable holds something that is dropped at a point, as it is no holder there.
fn is_dropped(code: &Code, live: &Liveness, p: Point, x: u32, h: Holding) -> bool
    requires well_formed { IsCodeOfFile code.now }
    requires live { IsLiveness code.now live.now }
    requires there { x < length code.now.vars }
    ensures yes { result ≡ true → is_holder code.now p x ≡ false }
    ensures no { result ≡ false → (if is_holder code.now p x then h else Dead) ≡ h }
{
    match h {
        Holding::Dead => false,
        _ => !live.is_holder(code, p, x),
    }
}

/// Temporaries that aren't live at a point are no holders.
pub(crate) fn trim(code: &Code, live: &Liveness, p: Point, shape: &mut Shape)
    requires well_formed { IsCodeOfFile code.now }
    requires live { IsLiveness code.now live.now }
    requires vars { length shape.old.vars ≤ length code.now.vars }
    ensures { shape.new ≡ trim code.now p shape.old }
{
    for x in 0..shape.vars.len() {
        let h = shape.vars.as_slice()[x];
        if is_dropped(code, live, p, x as u32, h) {
            shape.vars.set(x, Holding::Dead);
        }
    }
}

/// The token that is held is marked.
fn mark(marks: &mut Seq<bool>, h: Holding)
    ensures { marks.new ≡ mark h marks.old }
{
    if let Holding::Token(t) = h {
        if (t as usize) < marks.len() {
            marks.set(t as usize, true);
        }
    }
}

fn mark_all(marks: &mut Seq<bool>, holdings: &[Holding])
    ensures { marks.new ≡ mark_all holdings.now marks.old }
{
    for h in holdings {
        mark(marks, *h);
    }
}

fn mark_statics(marks: &mut Seq<bool>, statics: &[(u32, Holding)])
    ensures { marks.new ≡ mark_all (map holding_of_static statics.now) marks.old }
{
    for k in statics {
        mark(marks, k.1);
    }
}

/// The tokens that an anchor holds are marked.
pub(crate) fn anchored(alloc: Global, shape: &Shape) -> Result<Seq<bool>, Memory>
    ensures { IfOk result (λ marks. marks
        ≡ mark_all (anchors shape.now) (replicate (length shape.now.made) false)) }
{
    let marks = vec![in alloc; false; shape.made.len()]?;
    let mut marks = Seq::new(marks);
    mark_all(&mut marks, shape.entry.as_slice());
    mark_all(&mut marks, shape.vars.as_slice());
    mark_statics(&mut marks, shape.statics.as_slice());
    Ok(marks)
}

/// Whether a slot is kept.
fn is_kept(marks: &[bool], spot: Spot) -> bool
    ensures { result ≡ kept_by marks.now spot }
{
    match spot {
        Spot::Global(_) => true,
        Spot::Field {
            base,
            tag: _,
            field: _,
        } => (base as usize) < marks.len() && marks[base as usize],
    }
}

/// How the numbers of two slots compare, with the new numbers of their bases.
fn slot_cmp(numbering: &Numbering, p: Spot, q: Spot) -> Ordering
    requires { (t : ℕ) → number_by numbering.now t < 2 ^ 32 }
    ensures { result ≡ slice_cmp nat_cmp (key_by numbering.now p) (key_by numbering.now q) }
{
    match (p, q) {
        (Spot::Global(m), Spot::Global(n)) => m.0.cmp(&n.0),
        (
            Spot::Global(_),
            Spot::Field {
                base: _,
                tag: _,
                field: _,
            },
        ) => Ordering::Less,
        (
            Spot::Field {
                base: _,
                tag: _,
                field: _,
            },
            Spot::Global(_),
        ) => Ordering::Greater,
        (
            Spot::Field {
                base: b,
                tag: t,
                field: f,
            },
            Spot::Field {
                base: c,
                tag: u,
                field: g,
            },
        ) => numbers_cmp(
            (numbering.number(b), t.0, f.0),
            (numbering.number(c), u.0, g.0),
        ),
    }
}

fn numbers_cmp(p: (u32, u32, u32), q: (u32, u32, u32)) -> Ordering
    ensures { result ≡ slice_cmp nat_cmp (p.0 ∷ p.1 ∷ p.2 ∷ []) (q.0 ∷ q.1 ∷ q.2 ∷ []) }
{
    match p.0.cmp(&q.0) {
        Ordering::Less => Ordering::Less,
        Ordering::Greater => Ordering::Greater,
        Ordering::Equal => match p.1.cmp(&q.1) {
            Ordering::Less => Ordering::Less,
            Ordering::Greater => Ordering::Greater,
            Ordering::Equal => p.2.cmp(&q.2),
        },
    }
}

/// Puts a slot into a list of slots from the last to the first: in place of one with its numbers, if there is one.
fn put_slot(numbering: &Numbering, last_first: &mut Vec<Tracked>, r: Tracked) -> Result<(), Memory>
    requires { (t : ℕ) → number_by numbering.now t < 2 ^ 32 }
    ensures { OnOk result (reverse last_first.new.items ≡ put_spot numbering.now r (reverse last_first.old.items)) }
{
    let mut i = last_first.len();
    while i > 0 {
        match slot_cmp(numbering, r.spot, last_first[i - 1].spot) {
            Ordering::Less => break,
            Ordering::Equal => {
                last_first[i - 1] = r;
                return Ok(());
            }
            Ordering::Greater => i -= 1,
        }
    }
    last_first.insert(i, r)?;
    Ok(())
}

/// The slots that are kept, in order.
pub(crate) fn slots_in_order(
    alloc: Global,
    numbering: &Numbering,
    marks: &[bool],
    slots: &[Tracked],
) -> Result<Seq<Tracked>, Memory>
    requires { (t : ℕ) → number_by numbering.now t < 2 ^ 32 }
    ensures { IfOk result (λ rs. rs
        ≡ put_spots numbering.now (filter (λ r. kept_by marks.now r.spot) slots.now)) }
{
    let mut last_first = Vec::new(alloc);
    let mut i = slots.len();
    while i > 0 {
        i -= 1;
        if is_kept(marks, slots[i].spot) {
            put_slot(numbering, &mut last_first, slots[i])?;
        }
    }
    last_first.reverse();
    Ok(Seq::new(last_first))
}

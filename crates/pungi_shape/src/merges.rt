// Two tokens become one.
ghost use Rattle.std.specs.Prelude.{◌≡◌, ◌<◌, false, get_or, length, map};
ghost use Rattle.pungi_shape.specs.Scenes.{redirect, shape_of_merge};
ghost use Rattle.pungi_shape.specs.Shapes.{rename_holding, rename_tracked};

use crate::{Holding, Shape, Spot, Tracked};
use pungi_base::Seq;

/// A token stands for another.
fn redirect_holding(t: u32, u: u32, h: Holding) -> Holding
    ensures { result ≡ rename_holding (redirect t u) h }
{
    match h {
        Holding::Token(v) => Holding::Token(if v == u { t } else { v }),
        _ => h,
    }
}

fn redirect_all(t: u32, u: u32, holdings: &mut Seq<Holding>)
    ensures { holdings.new ≡ map (rename_holding (redirect t u)) holdings.old }
{
    for i in 0..holdings.len() {
        let h = holdings.as_slice()[i];
        holdings.set(i, redirect_holding(t, u, h));
    }
}

fn redirect_statics(t: u32, u: u32, statics: &mut Seq<(u32, Holding)>)
    ensures { statics.new ≡ map (λ k. (k.0, rename_holding (redirect t u) k.1)) statics.old }
{
    for i in 0..statics.len() {
        let k = statics.as_slice()[i];
        statics.set(i, (k.0, redirect_holding(t, u, k.1)));
    }
}

fn redirect_slot(t: u32, u: u32, r: Tracked) -> Tracked
    ensures { result ≡ rename_tracked (redirect t u) r }
{
    let spot = match r.spot {
        Spot::Global(n) => Spot::Global(n),
        Spot::Field { base, tag, field } => Spot::Field {
            base: if base == u { t } else { base },
            tag,
            field,
        },
    };
    Tracked {
        spot,
        held: redirect_holding(t, u, r.held),
    }
}

fn redirect_slots(t: u32, u: u32, slots: &mut Seq<Tracked>)
    ensures { slots.new ≡ map (rename_tracked (redirect t u)) slots.old }
{
    for i in 0..slots.len() {
        let r = slots.as_slice()[i];
        slots.set(i, redirect_slot(t, u, r));
    }
}

impl Shape {
    /// Two tokens become one.
    pub(crate) fn merge(&mut self, t: u32, u: u32)
        requires { t < length self.old.made }
        ensures { self.new ≡ shape_of_merge t u self.old }
    {
        let made = self.is_made(t) || self.is_made(u);
        redirect_all(t, u, &mut self.entry);
        redirect_all(t, u, &mut self.vars);
        redirect_statics(t, u, &mut self.statics);
        self.returned = redirect_holding(t, u, self.returned);
        redirect_slots(t, u, &mut self.slots);
        self.made.set(t as usize, made);
    }
}

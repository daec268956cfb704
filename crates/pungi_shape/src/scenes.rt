ghost use Rattle.std.specs.Prelude.{◌≡◌, ◌+◌, ◌<◌, ◌≤◌, ◌^◌, ◌==◌, ℕ, get_or, slice_set, true, IfOk, OnOk, OnErr};
ghost use Rattle.std.specs.Map.{lookup};
ghost use Rattle.pungi_shape.specs.declared.holding.Holding.TheVariants.{Token, Unset};
ghost use Rattle.pungi_shape.specs.Bounds.{HasWidth, IsScene, IsShape, has_opposite};
ghost use Rattle.pungi_shape.specs.Forms.{IsStorable, constant, plus};
ghost use Rattle.pungi_shape.specs.Scenes.{Scene, scene_of, scene_over, holding_at, form_at, holding_of, form_of};
ghost use Rattle.pungi_shape.specs.Scenes.{add_form, add_to_holding, balance_at, form_or, merge, new_token, with_token};
ghost use Rattle.pungi_shape.specs.Scenes.{with_var};
ghost use Rattle.pungi_shape.specs.Scenes.{number_form, number_forms, token_forms, or_unset};
ghost use Rattle.pungi_shape.specs.Shapes.{count_of_numbers, width_of};

use crate::shapes::{count_of_numbers, holding_of_number, one_if_number};
use crate::{Form, Holding, Scene, Shape};
use pungi_base::{Memory, Seq};
use pungi_code::Atom;
use std::alloc::Global;

/// A coordinate where a number is held, and else 0.
fn number_form(alloc: Global, width: u32, k: u32, h: Holding) -> Result<Form, Memory>
    ensures { IfOk result (λ f. f ≡ number_form width k h) }
{
    if h.is_number() {
        Form::unit(alloc, width, k)
    } else {
        Ok(Form::zero(alloc, width))
    }
}

/// The numbers of several holders, from a coordinate on.
pub(crate) fn number_forms(
    alloc: Global,
    width: u32,
    from: u32,
    holdings: &[Holding],
) -> Result<Seq<Form>, Memory>
    requires { from + count_of_numbers holdings.now < 2 ^ 32 }
    ensures { IfOk result (λ fs. fs ≡ number_forms width from holdings.now) }
{
    let mut out = Seq::new(Vec::with_capacity(alloc, holdings.len())?);
    let mut k = from;
    for h in holdings {
        out.push(number_form(alloc, width, k, *h)?)?;
        if h.is_number() {
            k += 1;
        }
    }
    Ok(out)
}

/// The balances of some tokens, from a coordinate on.
fn token_forms(
    alloc: Global,
    width: u32,
    from: u32,
    count: u32,
) -> Result<Seq<Option<Form>>, Memory>
    requires { from + count < 2 ^ 32 }
    ensures { IfOk result (λ fs. fs ≡ token_forms width from count) }
{
    let mut out = Seq::new(Vec::with_capacity(alloc, count as usize)?);
    for k in from..from + count {
        out.push(Some(Form::unit(alloc, width, k)?))?;
    }
    Ok(out)
}

/// The same forms.
fn copy_forms(alloc: Global, forms: &[Form]) -> Result<Seq<Form>, Memory>
    ensures { IfOk result (λ fs. fs ≡ forms.now) }
{
    let mut out = Seq::new(Vec::with_capacity(alloc, forms.len())?);
    for f in forms {
        out.push(f.copy(alloc)?)?;
    }
    Ok(out)
}

/// The same balance, if there is one.
fn copy_balance(alloc: Global, balance: &Option<Form>) -> Result<Option<Form>, Memory>
    ensures { IfOk result (λ b. b ≡ balance.now) }
{
    match balance {
        None => Ok(None),
        Some(f) => Ok(Some(f.copy(alloc)?)),
    }
}

/// The same balances.
fn copy_balances(alloc: Global, balances: &[Option<Form>]) -> Result<Seq<Option<Form>>, Memory>
    ensures { IfOk result (λ bs. bs ≡ balances.now) }
{
    let mut out = Seq::new(Vec::with_capacity(alloc, balances.len())?);
    for b in balances {
        out.push(copy_balance(alloc, b)?)?;
    }
    Ok(out)
}

/// What a variable holds.
fn holding_in(vars: &[Holding], x: u32) -> Holding
    ensures { result ≡ get_or vars.now x Unset }
{
    if (x as usize) < vars.len() {
        vars[x as usize]
    } else {
        Holding::Unset
    }
}

/// What a static object holds, if it is one of these.
fn static_holding(statics: &[(u32, Holding)], n: u32) -> Holding
    ensures { result ≡ or_unset (lookup (λ j. j == n) statics.now) }
{
    for k in statics {
        if k.0 == n {
            return k.1;
        }
    }
    Holding::Unset
}

/// A balance, and 0 where there is none.
fn form_or(alloc: Global, width: u32, balance: &Option<Form>) -> Result<Form, Memory>
    ensures { IfOk result (λ f. f ≡ form_or width balance.now) }
{
    match balance {
        None => Ok(Form::zero(alloc, width)),
        Some(f) => f.copy(alloc),
    }
}

impl Shape {
    /// What an atom is.
    pub(crate) fn holding_of(&self, a: Atom) -> Holding
        ensures { (s : Scene) → s.shape ≡ self.now → result ≡ holding_of s a }
    {
        match a {
            Atom::Var(x) => holding_in(self.vars.as_slice(), x.0),
            Atom::Int(n) => holding_of_number(n),
            Atom::Null => Holding::Null,
            Atom::Text => Holding::Text,
            Atom::Static(k) => static_holding(self.statics.as_slice(), k),
        }
    }
}

impl Scene {
    /// The scene at a place with this shape.
    pub(crate) fn of(alloc: Global, shape: &Shape) -> Result<Scene, Memory>
        requires shape { IsShape shape.now }
        requires narrow { width_of shape.now ≤ 256 }
        ensures { IfOk result (λ s. s ≡ scene_of shape.now) }
    {
        let width = shape.width() as u32;
        Scene::over(alloc, width, shape)
    }

    /// The scene at a place with this shape, where its coordinates are the first ones of so many.
    pub(crate) fn over(alloc: Global, width: u32, shape: &Shape) -> Result<Scene, Memory>
        requires shape { IsShape shape.now }
        requires narrow { width_of shape.now ≤ 256 }
        ensures { IfOk result (λ s. s ≡ scene_over width shape.now) }
    {
        let after_vars = 1 + count_of_numbers(shape.vars.as_slice()) as u32;
        let after_returned = after_vars + one_if_number(shape.returned) as u32;
        let after_entry = after_returned + count_of_numbers(shape.entry.as_slice()) as u32;
        let returned = number_form(alloc, width, after_vars, shape.returned)?;
        let vars = number_forms(alloc, width, 1, shape.vars.as_slice())?;
        let entry = number_forms(alloc, width, after_returned, shape.entry.as_slice())?;
        let balances = token_forms(alloc, width, after_entry, shape.made.len() as u32)?;
        let shape = shape.copy(alloc)?;
        Ok(Scene {
            width,
            shape,
            vars,
            returned,
            entry,
            balances,
        })
    }

    /// The same scene.
    pub(crate) fn copy(&self, alloc: Global) -> Result<Scene, Memory>
        ensures { IfOk result (λ s. s ≡ self.now) }
    {
        let returned = self.returned.copy(alloc)?;
        let vars = copy_forms(alloc, self.vars.as_slice())?;
        let entry = copy_forms(alloc, self.entry.as_slice())?;
        let balances = copy_balances(alloc, self.balances.as_slice())?;
        let shape = self.shape.copy(alloc)?;
        Ok(Scene {
            width: self.width,
            shape,
            vars,
            returned,
            entry,
            balances,
        })
    }

    /// What a variable holds.
    pub(crate) fn holding_at(&self, x: u32) -> Holding
        ensures { result ≡ holding_at self.now x }
    {
        holding_in(self.shape.vars.as_slice(), x)
    }

    /// What an atom is.
    pub(crate) fn holding_of(&self, a: Atom) -> Holding
        ensures { result ≡ holding_of self.now a }
    {
        self.shape.holding_of(a)
    }

    /// A variable, as a number.
    fn form_at(&self, alloc: Global, x: u32) -> Result<Form, Memory>
        ensures { IfOk result (λ f. f ≡ form_at self.now x) }
    {
        let vars = self.vars.as_slice();
        if (x as usize) < vars.len() {
            vars[x as usize].copy(alloc)
        } else {
            Ok(Form::zero(alloc, self.width))
        }
    }

    /// An atom, as a number.
    pub(crate) fn form_of(&self, alloc: Global, a: Atom) -> Result<Form, Memory>
        requires { has_opposite a ≡ true }
        ensures { IfOk result (λ f. f ≡ form_of self.now a) }
    {
        match a {
            Atom::Var(x) => self.form_at(alloc, x.0),
            Atom::Int(n) => Form::constant(alloc, self.width, n),
            Atom::Null => Ok(Form::zero(alloc, self.width)),
            Atom::Text => Ok(Form::zero(alloc, self.width)),
            Atom::Static(_) => Ok(Form::zero(alloc, self.width)),
        }
    }

    /// A variable holds something else.
    pub(crate) fn put_var(&mut self, x: u32, h: Holding, f: Form)
        ensures { self.new ≡ with_var x h f self.old }
    {
        if (x as usize) < self.shape.vars.len() {
            self.shape.vars.set(x as usize, h);
        }
        if (x as usize) < self.vars.len() {
            self.vars.set(x as usize, f);
        }
    }

    /// The balance of a token.
    pub(crate) fn balance_at(&self, alloc: Global, t: u32) -> Result<Form, Memory>
        ensures { IfOk result (λ f. f ≡ balance_at self.now t) }
    {
        let balances = self.balances.as_slice();
        if (t as usize) < balances.len() {
            form_or(alloc, self.width, &balances[t as usize])
        } else {
            Ok(Form::zero(alloc, self.width))
        }
    }

    /// A token has this balance, or none.
    fn set_balance(&mut self, t: u32, balance: Option<Form>)
        ensures { self.new ≡ record self.old { balances = slice_set self.old.balances t balance } }
    {
        if (t as usize) < self.balances.len() {
            self.balances.set(t as usize, balance);
        }
    }

    /// The balance of a token changes by a form.
    pub(crate) fn add_form(&mut self, alloc: Global, t: u32, f: &Form) -> Result<(), Memory>
        requires scene { IsScene self.old }
        requires width { HasWidth self.old.width f.now }
        requires storable { IsStorable (plus (balance_at self.old t) f.now) }
        ensures ok { OnOk result (self.new ≡ add_form t f.now self.old) }
        ensures err { OnErr result (self.new ≡ self.old) }
    {
        let sum = self.balance_at(alloc, t)?.plus(alloc, f)?;
        self.set_balance(t, Some(sum));
        Ok(())
    }

    /// The balance of what is held changes by a number.
    pub(crate) fn add_to_holding(&mut self, alloc: Global, h: Holding, n: i32) -> Result<(), Memory>
        requires scene { IsScene self.old }
        requires storable { (t : ℕ) → h ≡ Token t
            → IsStorable (plus (balance_at self.old t) (constant self.old.width n)) }
        ensures ok { OnOk result (self.new ≡ add_to_holding h n self.old) }
        ensures err { OnErr result (self.new ≡ self.old) }
    {
        match h {
            Holding::Token(t) => {
                let f = Form::constant(alloc, self.width, n as i64)?;
                self.add_form(alloc, t, &f)
            }
            _ => Ok(()),
        }
    }

    /// The number of one more token.
    pub(crate) fn new_token(&self) -> u32
        requires { new_token self.now < 2 ^ 32 }
        ensures { result ≡ new_token self.now }
    {
        self.shape.made.len() as u32
    }

    /// One more token, with this balance. After an `Err` the scene may be any.
    pub(crate) fn put_token(&mut self, f: Form, made: bool) -> Result<(), Memory>
        ensures { OnOk result (self.new ≡ with_token f made self.old) }
    {
        self.shape.made.push(made)?;
        self.balances.push(Some(f))
    }

    /// Two tokens become one, which has the sum of their balances and is made where one of them was.
    pub(crate) fn merge(&mut self, alloc: Global, t: u32, u: u32) -> Result<(), Memory>
        requires scene { IsScene self.old }
        requires first { t < new_token self.old }
        requires second { u < new_token self.old }
        requires storable { IsStorable (plus (balance_at self.old t) (balance_at self.old u)) }
        ensures ok { OnOk result (self.new ≡ merge t u self.old) }
        ensures err { OnErr result (self.new ≡ self.old) }
    {
        let second = self.balance_at(alloc, u)?;
        let sum = self.balance_at(alloc, t)?.plus(alloc, &second)?;
        self.shape.merge(t, u);
        self.set_balance(t, Some(sum));
        self.set_balance(u, None);
        Ok(())
    }
}

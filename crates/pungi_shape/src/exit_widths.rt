// How many coordinates exit classes have.
ghost use Rattle.std.specs.Prelude.{◌≡◌, ◌<◌, ◌^◌, ℕ, List, [], ◌∷◌, ◌++◌, length, map, IfOk, OnOk};
ghost use Rattle.pungi_shape.specs.Shapes.{distinct, holding_of_static, token_in, tokens_in, tokens_of, width_of};

use crate::shapes::{count_of_numbers, one_if_number};
use crate::{Holding, Shape};
use pungi_base::Memory;
use std::alloc::Global;

/// Adds a token, unless it is among these.
fn add_new(token: u32, tokens: &mut Vec<u32>) -> Result<(), Memory>
    ensures { OnOk result ((seen : List ℕ) → tokens.old.items ≡ distinct seen
        → tokens.new.items ≡ distinct (seen ++ token ∷ [])) }
{
    if !tokens.as_slice().contains(&token) {
        tokens.push(token)?;
    }
    Ok(())
}

/// Adds the token that is held, if one is.
fn add_token(holding: Holding, tokens: &mut Vec<u32>) -> Result<(), Memory>
    ensures { OnOk result ((seen : List ℕ) → tokens.old.items ≡ distinct seen
        → tokens.new.items ≡ distinct (seen ++ token_in holding)) }
{
    match holding {
        Holding::Token(token) => add_new(token, tokens),
        Holding::Unset
        | Holding::Null
        | Holding::Text
        | Holding::Known(_)
        | Holding::Number
        | Holding::Dead => Ok(()),
    }
}

fn add_tokens(holdings: &[Holding], tokens: &mut Vec<u32>) -> Result<(), Memory>
    ensures { OnOk result ((seen : List ℕ) → tokens.old.items ≡ distinct seen
        → tokens.new.items ≡ distinct (seen ++ tokens_in holdings.now)) }
{
    for holding in holdings {
        add_token(*holding, tokens)?;
    }
    Ok(())
}

fn add_static_tokens(statics: &[(u32, Holding)], tokens: &mut Vec<u32>) -> Result<(), Memory>
    ensures { OnOk result ((seen : List ℕ) → tokens.old.items ≡ distinct seen
        → tokens.new.items ≡ distinct (seen ++ tokens_in (map holding_of_static statics.now))) }
{
    for (_, holding) in statics {
        add_token(*holding, tokens)?;
    }
    Ok(())
}

/// How many tokens an exit class has.
fn count_of_tokens(alloc: Global, exit: &Shape) -> Result<usize, Memory>
    requires vars { exit.now.vars ≡ [] }
    requires slots { exit.now.slots ≡ [] }
    ensures { IfOk result (λ count. count ≡ length (tokens_of exit.now)) }
{
    let mut tokens = Vec::new(alloc);
    add_tokens(exit.entry.as_slice(), &mut tokens)?;
    add_static_tokens(exit.statics.as_slice(), &mut tokens)?;
    add_token(exit.returned, &mut tokens)?;
    Ok(tokens.as_slice().len())
}

/// How many coordinates vectors have where a function left by an exit class.
pub(crate) fn exit_width(alloc: Global, exit: &Shape) -> Result<u32, Memory>
    requires vars { exit.now.vars ≡ [] }
    requires slots { exit.now.slots ≡ [] }
    requires narrow { width_of exit.now < 2 ^ 32 }
    ensures { IfOk result (λ width. width ≡ width_of exit.now) }
{
    let tokens = count_of_tokens(alloc, exit)?;
    let entry = count_of_numbers(exit.entry.as_slice());
    let returned = one_if_number(exit.returned);
    Ok((1 + returned + entry + tokens) as u32)
}

ghost use Rattle.std.specs.Prelude.{◌≡◌, ◌⊎◌, ◌+◌, ◌<◌, ◌^◌, Err, IfOk, IsSome, Some, length};
ghost use Rattle.std.specs.List.{All};
ghost use Rattle.pungi_code.specs.Run.{code_at};
ghost use Rattle.pungi_code.specs.WellFormed.{AreWellFormed, IsAlone};
ghost use Rattle.pungi_domain.specs.Programs.{IsWellFormed};
ghost use Rattle.pungi_shape.specs.declared.graph_fault.GraphFault.TheVariants.{Shapes};
ghost use Rattle.pungi_shape.specs.Bounds.{IsCodeOfFile};
ghost use Rattle.pungi_shape.specs.Callables.{IsCallOf};
ghost use Rattle.pungi_shape.specs.Classes.{AreClasses, classes_of};
ghost use Rattle.pungi_shape.specs.Named.{callees_of, statics_of};
ghost use Rattle.pungi_shape.specs.Programs.{AreExits, HasManyPlaces, HasWidePlace, IsProgram, IsTooLarge};

use crate::named::statics_of;
use crate::programs::program;
use crate::search::{FoundGraph, search};
use crate::statics::statics_from;
use crate::{Classes, GraphFault, Liveness};
use pungi_code::{Code, Codes};
use pungi_domain::AffineProgram;
use std::alloc::Global;

/// The affine program of a code, where these are the exit classes of the functions that it calls.
fn graph_by(
    alloc: Global,
    codes: &Codes,
    f: u32,
    statics: &[u32],
    code: &Code,
    classes: &Classes,
) -> Result<AffineProgram, GraphFault>
    requires code { code_at codes.now f ≡ Some code.now }
    requires well_formed { IsCodeOfFile code.now }
    requires statics { statics.now ≡ statics_of codes.now f }
    requires few { code.now.params + length (statics_of codes.now f) < 2 ^ 31 }
    requires functions { length codes.now.codes < 2 ^ 32 }
    requires classes { AreClasses codes.now (classes_of classes.now) }
    requires exits { All (λ g. AreExits codes.now g (classes_of classes.now g)) (callees_of codes.now f) }
    ensures program { IfOk result (λ p. IsProgram codes.now f p) }
    ensures well_formed { IfOk result (λ p. IsWellFormed p) }
    ensures calls { IfOk result (λ p. All (λ e. IsCallOf codes.now (classes_of classes.now) f e.action) p.edges) }
    ensures small { IfOk result (λ p. HasManyPlaces codes.now f ⊎ HasWidePlace codes.now f → ⊥) }
    ensures large { result ≡ Err Shapes → HasManyPlaces codes.now f ⊎ HasWidePlace codes.now f }
{
    let live = Liveness::of(alloc, code)?;
    let FoundGraph { found, mut edges } = search(alloc, codes, f, statics, code, &live, classes)?;
    Ok(program(alloc, code, &found, &mut edges)?)
}

/// The affine program of a function of a file (Karr 1976) that calls none of it, unless it is too large.
pub fn graph(alloc: Global, codes: &Codes, f: u32) -> Result<AffineProgram, GraphFault>
    requires well_formed { IsAlone codes.now f }
    requires there { IsSome (code_at codes.now f) }
    ensures program { IfOk result (λ p. IsProgram codes.now f p) }
    ensures well_formed { IfOk result (λ p. IsWellFormed p) }
    ensures small { IfOk result (λ p. IsTooLarge codes.now f → ⊥) }
    ensures large { result ≡ Err Shapes → IsTooLarge codes.now f }
{
    let Some(code) = &codes.codes.as_slice()[f as usize] else {
        unreachable!();
    };
    let statics = statics_of(alloc, codes, f)?;
    let none = Classes::none(alloc);
    graph_by(alloc, codes, f, statics.as_slice(), code, &none)
}

/// The affine program of a function of a file, unless it is too large itself, where these are the exit classes of the
/// functions that it calls.
pub fn graph_among(
    alloc: Global,
    codes: &Codes,
    f: u32,
    classes: &Classes,
) -> Result<AffineProgram, GraphFault>
    requires well_formed { AreWellFormed codes.now }
    requires there { IsSome (code_at codes.now f) }
    requires classes { AreClasses codes.now (classes_of classes.now) }
    requires exits { All (λ g. AreExits codes.now g (classes_of classes.now g)) (callees_of codes.now f) }
    ensures program { IfOk result (λ p. IsProgram codes.now f p) }
    ensures well_formed { IfOk result (λ p. IsWellFormed p) }
    ensures calls { IfOk result (λ p. All (λ e. IsCallOf codes.now (classes_of classes.now) f e.action) p.edges) }
    ensures small { IfOk result (λ p. HasManyPlaces codes.now f ⊎ HasWidePlace codes.now f → ⊥) }
    ensures large { result ≡ Err Shapes → HasManyPlaces codes.now f ⊎ HasWidePlace codes.now f }
{
    let Some(code) = &codes.codes.as_slice()[f as usize] else {
        unreachable!();
    };
    let statics = statics_from(alloc, codes, f)?;
    graph_by(alloc, codes, f, statics.as_slice(), code, classes)
}

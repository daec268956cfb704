// Copies of instructions.
ghost use Rattle.std.specs.Prelude.{◌≡◌, IfOk};
ghost use Rattle.pungi_code.specs.declared.instr.Instr.TheVariants.{Api, Call};

use pungi_api::BoxedSignature;
use pungi_base::{Memory, Seq};
use pungi_code::{Atom, Head, Instr, Line, Var};
use std::alloc::Global;

fn atoms(alloc: Global, atoms: &[Atom]) -> Result<Seq<Atom>, Memory>
    ensures { IfOk result (λ copy. copy ≡ atoms.now) }
{
    Ok(Seq::new(Vec::from_slice(alloc, atoms)?))
}

/// The same loop heads.
pub fn heads(alloc: Global, heads: &[Head]) -> Result<Seq<Head>, Memory>
    ensures { IfOk result (λ copy. copy ≡ heads.now) }
{
    Ok(Seq::new(Vec::from_slice(alloc, heads)?))
}

fn api(
    alloc: Global,
    x: Option<Var>,
    signature: &BoxedSignature,
    args: &[Atom],
) -> Result<Instr, Memory>
    ensures { IfOk result (λ copy. copy ≡ Api x signature.now args.now) }
{
    let signature = signature.copy(alloc)?;
    let args = atoms(alloc, args)?;
    Ok(Instr::Api(x, signature, args))
}

fn call(alloc: Global, x: Option<Var>, f: usize, args: &[Atom]) -> Result<Instr, Memory>
    ensures { IfOk result (λ copy. copy ≡ Call x f args.now) }
{
    let args = atoms(alloc, args)?;
    Ok(Instr::Call(x, f, args))
}

fn instr(alloc: Global, instr: &Instr) -> Result<Instr, Memory>
    ensures { IfOk result (λ copy. copy ≡ instr.now) }
{
    match instr {
        Instr::Api(x, signature, args) => api(alloc, *x, signature, args.as_slice()),
        Instr::Call(x, f, args) => call(alloc, *x, *f, args.as_slice()),
        Instr::Set(x, a) => Ok(Instr::Set(*x, *a)),
        Instr::Arith(x, kind, op, a, b) => Ok(Instr::Arith(*x, *kind, *op, *a, *b)),
        Instr::Fit(x, kind, a) => Ok(Instr::Fit(*x, *kind, *a)),
        Instr::Compare(x, cmp, a, b) => Ok(Instr::Compare(*x, *cmp, *a, *b)),
        Instr::Load(x, place) => Ok(Instr::Load(*x, *place)),
        Instr::Store(place, a) => Ok(Instr::Store(*place, *a)),
        Instr::Unset(x) => Ok(Instr::Unset(*x)),
        Instr::Jump(to) => Ok(Instr::Jump(*to)),
        Instr::Branch(a, this, other) => Ok(Instr::Branch(*a, *this, *other)),
        Instr::Return(value) => Ok(Instr::Return(*value)),
        Instr::Fall => Ok(Instr::Fall),
    }
}

fn line(alloc: Global, line: &Line) -> Result<Line, Memory>
    ensures { IfOk result (λ copy. copy ≡ line.now) }
{
    let instr = instr(alloc, &line.instr)?;
    Ok(Line {
        pos: line.pos,
        instr,
    })
}

/// The same lines.
pub fn lines(alloc: Global, lines: &[Line]) -> Result<Seq<Line>, Memory>
    ensures { IfOk result (λ copy. copy ≡ lines.now) }
{
    let mut copy = Vec::new(alloc);
    for each in lines {
        copy.push(line(alloc, each)?)?;
    }
    Ok(Seq::new(copy))
}

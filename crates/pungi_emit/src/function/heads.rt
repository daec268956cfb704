// The heads of a function's loops.
ghost use Rattle.std.specs.Prelude.{◌≡◌, ◌<◌, ◌≤◌, ◌||◌, ◌&&◌, ◌==◌, ◌∷◌, ◌++◌, [], ℕ, false, nat_le, if◌then◌else◌};
ghost use Rattle.std.specs.Prelude.{length};
ghost use Rattle.std.specs.Prelude.{get_or, replicate, IfOk, OnOk, Some, None};
ghost use Rattle.pungi_code.specs.Limits.{most_instructions};
ghost use Rattle.pungi_code.specs.WellFormed.{targets};
ghost use Rattle.pungi_layout.specs.code.Heads.{first_pos, loop_pos, label_pos, names, leads_back, back_pos};
ghost use Rattle.pungi_layout.specs.code.Heads.{found_head, heads_below};

use pungi_base::{Memory, Pos};
use pungi_code::{Head, Instr, Label, Line};
use pungi_layout::Mark;
use std::alloc::Global;

/// A place of the text for a place of the code, where it has none yet.
fn keep_first(kept: &mut [Option<Pos>], place: u32, pos: Pos)
    ensures long { length kept.new ≡ length kept.old }
    ensures first { (n : ℕ) → n < length kept.old
        → get_or kept.new n None ≡ first_pos (get_or kept.old n None) (if place == n then Some pos else None) }
{
    let place = place as usize;
    if place < kept.len() {
        if kept[place].is_none() {
            kept[place] = Some(pos);
        }
    }
}

/// No place of the text for any of so many places of the code.
#[tactic(auto, using(pungi_meaning::proofs::ListLemmas::replicate_step))]
fn no_places(alloc: Global, count: usize) -> Result<Vec<Option<Pos>>, Memory>
    ensures { IfOk result (λ v. v.items ≡ replicate count None) }
{
    let mut places = Vec::new(alloc);
    for _ in 0..count {
        places.push(None)?;
    }
    Ok(places)
}

/// None of so many places of the code.
#[tactic(auto, using(pungi_meaning::proofs::ListLemmas::replicate_step))]
fn no_backs(alloc: Global, count: usize) -> Result<Vec<bool>, Memory>
    ensures { IfOk result (λ v. v.items ≡ replicate count false) }
{
    let mut backs = Vec::new(alloc);
    for _ in 0..count {
        backs.push(false)?;
    }
    Ok(backs)
}

/// For each place of the code the first loop whose head it is.
fn loop_places(alloc: Global, marks: &[Mark], count: usize) -> Result<Vec<Option<Pos>>, Memory>
    ensures long { IfOk result (λ v. length v.items ≡ count) }
    ensures found { IfOk result (λ v. (n : ℕ) → n < count → get_or v.items n None ≡ loop_pos n marks.now) }
{
    let mut kept = no_places(alloc, count)?;
    for mark in marks {
        match mark {
            Mark::OfLoop(head) => keep_first(&mut kept, head.label.0, head.pos),
            Mark::OfLabel(_) => {}
        }
    }
    Ok(kept)
}

/// For each place of the code the first label that stands there.
fn label_places(alloc: Global, marks: &[Mark], count: usize) -> Result<Vec<Option<Pos>>, Memory>
    ensures long { IfOk result (λ v. length v.items ≡ count) }
    ensures found { IfOk result (λ v. (n : ℕ) → n < count → get_or v.items n None ≡ label_pos n marks.now) }
{
    let mut kept = no_places(alloc, count)?;
    for mark in marks {
        match mark {
            Mark::OfLabel(head) => keep_first(&mut kept, head.label.0, head.pos),
            Mark::OfLoop(_) => {}
        }
    }
    Ok(kept)
}

/// A label leads back, where it is not after the instruction that names it.
fn note_back(backs: &mut [bool], place: usize, label: Label)
    ensures long { length backs.new ≡ length backs.old }
    ensures back { (n : ℕ) → n < length backs.old
        → get_or backs.new n false ≡ (get_or backs.old n false || (nat_le n place && label.0 == n)) }
{
    let to = label.0 as usize;
    if to < backs.len() && to <= place {
        backs[to] = true;
    }
}

/// The labels that an instruction names.
fn note_instr(backs: &mut [bool], place: usize, instr: &Instr)
    ensures long { length backs.new ≡ length backs.old }
    ensures back { (n : ℕ) → n < length backs.old
        → get_or backs.new n false ≡ (get_or backs.old n false || (nat_le n place && names n (targets instr.now))) }
{
    match instr {
        Instr::Jump(to) => note_back(backs, place, *to),
        Instr::Branch(_, this, other) => {
            note_back(backs, place, *this);
            note_back(backs, place, *other);
        }
        Instr::Set(_, _)
        | Instr::Arith(_, _, _, _, _)
        | Instr::Fit(_, _, _)
        | Instr::Compare(_, _, _, _)
        | Instr::Load(_, _)
        | Instr::Store(_, _)
        | Instr::Api(_, _, _)
        | Instr::Call(_, _, _)
        | Instr::Unset(_)
        | Instr::Return(_)
        | Instr::Fall => {}
    }
}

/// For each place of the code whether an instruction that is not in front of it leads to it.
fn back_places(alloc: Global, code: &[Line]) -> Result<Vec<bool>, Memory>
    ensures long { IfOk result (λ v. length v.items ≡ length code.now) }
    ensures found { IfOk result (λ v. (n : ℕ) → n < length code.now
        → get_or v.items n false ≡ leads_back n 0 code.now) }
{
    let mut backs = no_backs(alloc, code.len())?;
    for place in 0..code.len() {
        note_instr(&mut backs, place, &code[place].instr);
    }
    Ok(backs)
}

/// Where the head at a place of the code stands in the text.
fn head_place(of_loop: Option<Pos>, is_back: bool, of_label: Option<Pos>) -> Option<Pos>
    ensures { result ≡ back_pos of_loop is_back of_label }
{
    match of_loop {
        Some(pos) => Some(pos),
        None => {
            if is_back {
                match of_label {
                    Some(pos) => Some(pos),
                    None => Some(Pos { line: 0, col: 0 }),
                }
            } else {
                None
            }
        }
    }
}

/// One more head, where there is one.
fn put_head(heads: &mut Vec<Head>, place: usize, pos: Option<Pos>) -> Result<(), Memory>
    requires { place ≤ most_instructions }
    ensures { OnOk result (heads.new.items ≡ heads.old.items ++ found_head place pos) }
{
    match pos {
        None => Ok(()),
        Some(pos) => {
            let label = Label(place as u32);
            heads.push(Head { label, pos })?;
            Ok(())
        }
    }
}

/// The heads of a code with these loops and labels, in the order of their places.
pub fn heads(alloc: Global, marks: &[Mark], code: &[Line]) -> Result<Vec<Head>, Memory>
    requires { length code.now ≤ most_instructions }
    ensures { IfOk result (λ v. v.items ≡ heads_below marks.now code.now (length code.now)) }
{
    let loops = loop_places(alloc, marks, code.len())?;
    let labels = label_places(alloc, marks, code.len())?;
    let backs = back_places(alloc, code)?;
    let mut heads = Vec::new(alloc);
    for place in 0..code.len() {
        let pos = head_place(loops[place], backs[place], labels[place]);
        put_head(&mut heads, place, pos)?;
    }
    Ok(heads)
}

// The copy of a called code, in the place of its call.
ghost use Rattle.std.specs.Prelude.{◌≡◌, ◌≤◌, ◌<◌, ◌^◌, ◌+◌, ◌++◌, ◌∷◌, [], IfOk, OnOk};
ghost use Rattle.std.specs.List.{flat_map};
ghost use Rattle.pungi_code.specs.Limits.{most_instructions};
ghost use Rattle.pungi_code.specs.declared.instr.Instr.TheVariants.{Set, Jump};
ghost use Rattle.pungi_inline.specs.Copies.{passed, unset, copied_line, exit_lines, body_label, body_lines, copy};
ghost use Rattle.pungi_inline.specs.Moved.{label_at, moved_atom, line as line_at};
ghost use Rattle.pungi_inline.specs.Places.{place_in, site_view};
ghost use Rattle.pungi_inline.specs.Sites.{call_size, entry_size, total, body_sizes};

use crate::moved::{moved_atom, moved_line, var_in};
use crate::places::{Places, places_from};
use crate::sites::{CallSite, body_size, body_sizes};
use pungi_base::{Memory, Pos};
use pungi_code::{Atom, Code, Instr, Label, Line, Var};
use std::alloc::Global;

fn put(out: &mut Vec<Line>, pos: Pos, instr: Instr) -> Result<(), Memory>
    ensures { OnOk result (out.new.items ≡ out.old.items ++ line_at pos instr ∷ []) }
{
    out.push(Line { pos, instr })?;
    Ok(())
}

// ---- before and after

fn put_passed(out: &mut Vec<Line>, pos: Pos, window: u32, args: &[Atom]) -> Result<(), Memory>
    ensures { OnOk result (out.new.items ≡ out.old.items ++ passed pos window 0 args.now) }
{
    for (n, a) in args.iter().enumerate() {
        put(out, pos, Instr::Set(var_in(window, n), *a))?;
    }
    Ok(())
}

fn put_unset(
    out: &mut Vec<Line>,
    pos: Pos,
    window: u32,
    first: usize,
    count: usize,
) -> Result<(), Memory>
    requires { first + count < 2 ^ 63 }
    ensures { OnOk result (out.new.items ≡ out.old.items ++ unset pos window first count) }
{
    for n in 0..count {
        put(out, pos, Instr::Unset(var_in(window, first + n)))?;
    }
    Ok(())
}

fn put_exit(out: &mut Vec<Line>, pos: Pos, from: Var, into: Option<Var>) -> Result<(), Memory>
    ensures { OnOk result (out.new.items ≡ out.old.items ++ exit_lines pos from into) }
{
    match into {
        Some(x) => put(out, pos, Instr::Set(x, Atom::Var(from))),
        None => Ok(()),
    }
}

// ---- the instructions of the called code

/// A return with a value in a called code: the result is set, and the run goes on at the end of the copy.
fn put_result(
    out: &mut Vec<Line>,
    pos: Pos,
    window: u32,
    result_var: Var,
    end: u32,
    value: Atom,
) -> Result<(), Memory>
    ensures { OnOk result (out.new.items ≡ out.old.items ++ line_at pos (Set result_var (moved_atom window value))
        ∷ line_at pos (Jump (label_at end)) ∷ []) }
{
    put(out, pos, Instr::Set(result_var, moved_atom(window, value)))?;
    put(out, pos, Instr::Jump(Label(end)))
}

/// The copy of a line of a called code.
fn put_copied(
    out: &mut Vec<Line>,
    alloc: Global,
    window: u32,
    places: &Places,
    result_var: Var,
    end: u32,
    line: &Line,
) -> Result<(), Memory>
    ensures { OnOk result (out.new.items ≡ out.old.items ++ copied_line window (place_in places.now.starts.items)
        result_var end line.now) }
{
    match &line.instr {
        Instr::Return(None) => put(out, line.pos, Instr::Jump(Label(end))),
        Instr::Return(Some(value)) => put_result(out, line.pos, window, result_var, end, *value),
        _ => {
            let copy = moved_line(alloc, window, places, line)?;
            out.push(copy)?;
            Ok(())
        }
    }
}

fn put_all_copied(
    out: &mut Vec<Line>,
    alloc: Global,
    window: u32,
    places: &Places,
    result_var: Var,
    end: u32,
    lines: &[Line],
) -> Result<(), Memory>
    ensures { OnOk result (out.new.items ≡ out.old.items ++ flat_map (copied_line window
        (place_in places.now.starts.items) result_var end) lines.now) }
{
    for line in lines {
        put_copied(out, alloc, window, places, result_var, end, line)?;
    }
    Ok(())
}

/// Where the copies of the instructions of a called code begin, in a copy that begins here.
pub fn body_places(alloc: Global, at: u32, code: &Code) -> Result<Places, Memory>
    requires { at + entry_size code.now + total (body_sizes code.now.instrs) ≤ most_instructions }
    ensures { IfOk result (λ p. place_in p.starts.items ≡ body_label at code.now) }
{
    let sizes = body_sizes(alloc, code.instrs.as_slice())?;
    places_from(alloc, at + code.vars.len() as u32 + 1, sizes.as_slice())
}

fn put_body(
    out: &mut Vec<Line>,
    alloc: Global,
    window: u32,
    at: u32,
    code: &Code,
) -> Result<(), Memory>
    requires { at + entry_size code.now + total (body_sizes code.now.instrs) ≤ most_instructions }
    ensures { OnOk result (out.new.items ≡ out.old.items ++ body_lines window at code.now) }
{
    let places = body_places(alloc, at, code)?;
    let lines = code.instrs.as_slice();
    let result_var = var_in(window, code.vars.len());
    let end = at + code.vars.len() as u32 + 1 + body_size(lines);
    put_all_copied(out, alloc, window, &places, result_var, end, lines)
}

/// The copy of a called code, for a call at this place of the text.
pub fn put_copy(
    out: &mut Vec<Line>,
    alloc: Global,
    pos: Pos,
    window: u32,
    at: u32,
    site: CallSite,
) -> Result<(), Memory>
    requires { at + call_size (site_view site) ≤ most_instructions }
    ensures { OnOk result (out.new.items ≡ out.old.items ++ copy pos window at (site_view site.entry)) }
{
    let vars = site.code.vars.len();
    let args = site.args.len();
    put_passed(out, pos, window, site.args)?;
    put_unset(out, pos, window, args, (vars + 1).saturating_sub(args))?;
    put_body(out, alloc, window, at, site.code)?;
    put_exit(out, pos, var_in(window, vars), site.into)
}

// A code with one round of copies.
ghost use Rattle.std.specs.Prelude.{◌≡◌, ◌≤◌, ◌+◌, ◌++◌, true, map, IfOk, OnOk, option_map};
ghost use Rattle.pungi_code.specs.Limits.{most_instructions, most_variables};
ghost use Rattle.pungi_inline.specs.Inlined.{lines_of, all_lines, site_kinds, all_kinds, site_heads, all_heads};
ghost use Rattle.pungi_inline.specs.Inlined.{expanded};
ghost use Rattle.pungi_inline.specs.Moved.{moved_head};
ghost use Rattle.pungi_inline.specs.Places.{place_in, site_view};
ghost use Rattle.pungi_inline.specs.Sites.{line_size, line_sizes, window_sizes, total, is_small};

use crate::copies::{body_places, put_copy};
use crate::moved::{moved_head, moved_line};
use crate::places::{Places, places_from};
use crate::sites::{CallSite, line_size, line_sizes, result_kind, site_at, window_size};
use pungi_api::Param;
use pungi_base::{Memory, Seq};
use pungi_code::{Code, Head, Line};
use std::alloc::Global;

// ---- instructions

/// What stands in the place of a line.
fn put_lines(
    out: &mut Vec<Line>,
    alloc: Global,
    places: &Places,
    window: u32,
    at: u32,
    line: &Line,
    site: Option<CallSite>,
) -> Result<(), Memory>
    requires { at + line_size (option_map site_view site) ≤ most_instructions }
    ensures { OnOk result (out.new.items ≡ out.old.items ++ lines_of (place_in places.now.starts.items) window at
        line.now (option_map site_view site.entry)) }
{
    match site {
        Some(site) => put_copy(out, alloc, line.pos, window, at, site),
        None => {
            let copy = moved_line(alloc, 0, places, line)?;
            out.push(copy)?;
            Ok(())
        }
    }
}

fn all_lines(
    alloc: Global,
    codes: &[Option<Code>],
    places: &Places,
    first_window: u32,
    lines: &[Line],
) -> Result<Vec<Line>, Memory>
    requires instrs { total (line_sizes codes.now lines.now) ≤ most_instructions }
    requires vars { first_window + total (window_sizes codes.now lines.now) ≤ most_variables }
    ensures { IfOk result (λ out. out.items ≡ all_lines codes.now (place_in places.now.starts.items) first_window 0
        lines.now) }
{
    let mut out = Vec::new(alloc);
    let mut window = first_window;
    let mut at: u32 = 0;
    for line in lines {
        let site = site_at(codes, line);
        put_lines(&mut out, alloc, places, window, at, line, site)?;
        window += window_size(site);
        at += line_size(site);
    }
    Ok(out)
}

// ---- variables

fn put_kinds(kinds: &mut Vec<Param>, site: Option<CallSite>) -> Result<(), Memory>
    ensures { OnOk result (kinds.new.items ≡ kinds.old.items ++ site_kinds (option_map site_view site.entry)) }
{
    if let Some(site) = site {
        kinds.extend_from_slice(site.code.vars.as_slice())?;
        kinds.push(result_kind(site.code.result))?;
    }
    Ok(())
}

fn all_kinds(alloc: Global, codes: &[Option<Code>], code: &Code) -> Result<Vec<Param>, Memory>
    ensures { IfOk result (λ kinds. kinds.items ≡ code.now.vars ++ all_kinds codes.now code.now.instrs) }
{
    let mut kinds = Vec::from_slice(alloc, code.vars.as_slice())?;
    for line in code.instrs.as_slice() {
        put_kinds(&mut kinds, site_at(codes, line))?;
    }
    Ok(kinds)
}

// ---- loop heads

fn put_heads(out: &mut Vec<Head>, places: &Places, heads: &[Head]) -> Result<(), Memory>
    ensures { OnOk result (out.new.items ≡ out.old.items ++ map (moved_head (place_in places.now.starts.items))
        heads.now) }
{
    for head in heads {
        out.push(moved_head(places, *head))?;
    }
    Ok(())
}

fn put_site_heads(
    out: &mut Vec<Head>,
    alloc: Global,
    at: u32,
    site: Option<CallSite>,
) -> Result<(), Memory>
    requires { at + line_size (option_map site_view site) ≤ most_instructions }
    ensures { OnOk result (out.new.items ≡ out.old.items ++ site_heads at (option_map site_view site.entry)) }
{
    let Some(site) = site else {
        return Ok(());
    };
    let places = body_places(alloc, at, site.code)?;
    put_heads(out, &places, site.code.heads.as_slice())
}

fn all_heads(
    out: &mut Vec<Head>,
    alloc: Global,
    codes: &[Option<Code>],
    lines: &[Line],
) -> Result<(), Memory>
    requires { total (line_sizes codes.now lines.now) ≤ most_instructions }
    ensures { OnOk result (out.new.items ≡ out.old.items ++ all_heads codes.now 0 lines.now) }
{
    let mut at: u32 = 0;
    for line in lines {
        let site = site_at(codes, line);
        put_site_heads(out, alloc, at, site)?;
        at += line_size(site);
    }
    Ok(())
}

// ---- codes

/// The code with copies, which is within the limits.
pub fn expanded(alloc: Global, codes: &[Option<Code>], code: &Code) -> Result<Code, Memory>
    requires { is_small codes.now code.now ≡ true }
    ensures { IfOk result (λ c. c ≡ expanded codes.now code.now) }
{
    let lines = code.instrs.as_slice();
    let sizes = line_sizes(alloc, codes, lines)?;
    let places = places_from(alloc, 0, sizes.as_slice())?;
    let instrs = all_lines(alloc, codes, &places, code.vars.len() as u32, lines)?;
    let vars = all_kinds(alloc, codes, code)?;
    let terms = code.terms.copy(alloc)?;
    let mut heads = Vec::new(alloc);
    put_heads(&mut heads, &places, code.heads.as_slice())?;
    all_heads(&mut heads, alloc, codes, lines)?;
    Ok(Code {
        instrs: Seq::new(instrs),
        vars: Seq::new(vars),
        params: code.params,
        locals: code.locals,
        result: code.result,
        heads: Seq::new(heads),
        terms,
    })
}

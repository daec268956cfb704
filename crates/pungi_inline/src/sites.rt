// The calls in whose place a copy of the called code is put.
ghost use Rattle.std.specs.Prelude.{◌≡◌, ◌≤◌, nat_le, min, option_map, IfOk};
ghost use Rattle.pungi_code.specs.Limits.{most_instructions};
ghost use Rattle.pungi_code.specs.Frames.{code_numbered};
ghost use Rattle.pungi_code.specs.WellFormed.{is_slot_kind};
ghost use Rattle.pungi_inline.specs.Moved.{largest_number};
ghost use Rattle.pungi_inline.specs.Places.{site_view};
ghost use Rattle.pungi_inline.specs.Sites.{result_kind, is_copied, site_of, site_at, copied_size, body_sizes, total};
ghost use Rattle.pungi_inline.specs.Sites.{call_size, line_size, window_size, line_sizes, window_sizes, has_site};
ghost use Rattle.pungi_inline.specs.Sites.{is_small};

use pungi_api::Param;
use pungi_base::Memory;
use pungi_code::{Atom, Code, Instr, Line, Var};
use std::alloc::Global;

/// The most instructions of a code.
const MOST_INSTRUCTIONS: u32 = 16384;

/// The most variables of a code.
const MOST_VARIABLES: u32 = 65536;

/// A call in whose place a copy of the called code is put.
#[derive(Clone, Copy)]
pub struct CallSite<'a> {
    /// Where its result goes.
    pub into: Option<Var>,
    pub args: &'a [Atom],
    pub code: &'a Code,
}

// ---- which calls

fn is_slot_kind(kind: Param) -> bool
    ensures { result ≡ is_slot_kind kind }
{
    match kind {
        Param::ObjectOrNull | Param::TextOrNull | Param::Int | Param::Long | Param::Size => true,
        Param::Object | Param::Text | Param::ModuleDef => false,
    }
}

/// What the variable of a result holds.
pub fn result_kind(result_of: Option<Param>) -> Param
    ensures { result ≡ result_kind result_of }
{
    result_of.unwrap_or(Param::Int)
}

fn is_copied(code: &Code, args: &[Atom]) -> bool
    ensures { result ≡ is_copied code.now args.now }
{
    let params = code.params as usize;
    !code.instrs.is_empty() && args.len() == params && is_slot_kind(result_kind(code.result))
}

fn site_of<'a>(into: Option<Var>, args: &'a [Atom], code: Option<&'a Code>) -> Option<CallSite<'a>>
    ensures { option_map site_view result ≡ site_of into args.now (option_map (λ c. c.now) code.entry) }
{
    let code = code?;
    if is_copied(code, args) {
        Some(CallSite { into, args, code })
    } else {
        None
    }
}

/// The code of a function by its number, if it has one.
fn code_numbered(codes: &[Option<Code>], f: usize) -> Option<&Code>
    ensures { option_map (λ c. c.now) result ≡ code_numbered codes.now f }
{
    match codes.get(f) {
        Some(code) => code.as_ref(),
        None => None,
    }
}

/// The call that a line is, if a copy of the called code is put in its place.
pub fn site_at<'a>(codes: &'a [Option<Code>], line: &'a Line) -> Option<CallSite<'a>>
    ensures { option_map site_view result ≡ site_at codes.now line.now }
{
    match &line.instr {
        Instr::Call(x, f, args) => site_of(*x, args.as_slice(), code_numbered(codes, *f)),
        _ => None,
    }
}

/// Whether there is such a call.
pub fn has_site(codes: &[Option<Code>], lines: &[Line]) -> bool
    ensures { result ≡ has_site codes.now lines.now }
{
    lines.iter().any(|line| site_at(codes, line).is_some())
}

// ---- sizes

/// A length as a number of instructions or variables, which is at most 2^32 - 1.
fn capped(n: usize) -> u32
    ensures { result ≡ min n largest_number }
{
    n.min(u32::MAX as usize) as u32
}

/// How many instructions the copy of an instruction takes.
pub fn copied_size(instr: &Instr) -> u32
    ensures { result ≡ copied_size instr.now }
{
    match instr {
        Instr::Return(Some(_)) => 2,
        _ => 1,
    }
}

/// How many instructions the copies of these take.
pub fn body_size(lines: &[Line]) -> u32
    ensures { result ≡ min (total (body_sizes lines.now)) largest_number }
{
    let mut size: u32 = 0;
    for line in lines {
        size = size.saturating_add(copied_size(&line.instr));
    }
    size
}

/// How many variables are added for a call.
pub fn window_size(site: Option<CallSite>) -> u32
    ensures { result ≡ min (window_size (option_map site_view site.entry)) largest_number }
{
    match site {
        Some(site) => capped(site.code.vars.len()).saturating_add(1),
        None => 0,
    }
}

fn call_size(site: CallSite) -> u32
    ensures { result ≡ min (call_size (site_view site.entry)) largest_number }
{
    let entry = capped(site.code.vars.len()).saturating_add(1);
    let exit = if site.into.is_some() { 1 } else { 0 };
    entry
        .saturating_add(body_size(site.code.instrs.as_slice()))
        .saturating_add(exit)
}

/// How many instructions stand in the place of a line.
pub fn line_size(site: Option<CallSite>) -> u32
    ensures { result ≡ min (line_size (option_map site_view site.entry)) largest_number }
{
    match site {
        Some(site) => call_size(site),
        None => 1,
    }
}

/// Whether what stands in the place of the lines is within the limit. What comes after the line that passes it is
/// not looked at.
fn are_few_instrs(codes: &[Option<Code>], lines: &[Line]) -> bool
    ensures { result ≡ nat_le (total (line_sizes codes.now lines.now)) most_instructions }
{
    let mut left = MOST_INSTRUCTIONS;
    for line in lines {
        let size = line_size(site_at(codes, line));
        if size > left {
            return false;
        }
        left -= size;
    }
    true
}

fn total_window(codes: &[Option<Code>], lines: &[Line]) -> u32
    ensures { result ≡ min (total (window_sizes codes.now lines.now)) largest_number }
{
    let mut size: u32 = 0;
    for line in lines {
        size = size.saturating_add(window_size(site_at(codes, line)));
    }
    size
}

/// Whether a code with copies is within the limits.
pub fn is_small(codes: &[Option<Code>], code: &Code) -> bool
    ensures { result ≡ is_small codes.now code.now }
{
    let lines = code.instrs.as_slice();
    let vars = capped(code.vars.len()).saturating_add(total_window(codes, lines));
    are_few_instrs(codes, lines) && vars <= MOST_VARIABLES
}

/// The sizes of what stands in the place of each line.
pub fn line_sizes(alloc: Global, codes: &[Option<Code>], lines: &[Line]) -> Result<Vec<u32>, Memory>
    requires { total (line_sizes codes.now lines.now) ≤ most_instructions }
    ensures { IfOk result (λ sizes. sizes.items ≡ line_sizes codes.now lines.now) }
{
    let mut sizes = Vec::new(alloc);
    for line in lines {
        sizes.push(line_size(site_at(codes, line)))?;
    }
    Ok(sizes)
}

/// The sizes of the copies of the instructions of a called code.
pub fn body_sizes(alloc: Global, lines: &[Line]) -> Result<Vec<u32>, Memory>
    ensures { IfOk result (λ sizes. sizes.items ≡ body_sizes lines.now) }
{
    let mut sizes = Vec::new(alloc);
    for line in lines {
        sizes.push(copied_size(&line.instr))?;
    }
    Ok(sizes)
}

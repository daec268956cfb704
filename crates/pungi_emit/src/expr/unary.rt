// The instructions of a sign, a conversion and `!`.
ghost use Rattle.std.specs.Prelude.{◌≡◌, ◌+◌, ◌<◌, ◌≤◌, ◌^◌, ◌++◌, length, OnOk};
ghost use Rattle.pungi_code.specs.Limits.{most_instructions};
ghost use Rattle.pungi_resolved.specs.ValueView.{value_view};
ghost use Rattle.pungi_resolved.specs.Values.{signed, negated, converted};
ghost use Rattle.pungi_layout.specs.code.Sizes.{expr_size};
ghost use Rattle.pungi_layout.specs.code.Sound.{IsSound, expr_nodes};
ghost use Rattle.pungi_layout.specs.code.ExprCode.{expr_code};

use crate::code::instructions::{Around, next_place, put};
use crate::expr::expr_code::emit_value;
use crate::expr::parts::{bit, branch_on, is_minus};
use crate::expr::step::emit_sign;
use crate::expr::temporary::{atom, sign_var, temp_of};
use pungi_base::{Kind, Memory, Pos, Seq};
use pungi_code::{Instr, Line, Var};
use pungi_resolved::Value as Node;
use pungi_types::ValueKind;

/// A value with a sign.
#[cycle(emit)]
pub fn emit_signed(
    code: &mut Seq<Line>,
    around: Around,
    depth: u16,
    target: u32,
    pos: Pos,
    mark: Kind,
    kind: ValueKind,
    part: &Node,
) -> Result<(), Memory>
    requires sound { IsSound around.locals (signed pos mark kind (value_view part.now)) }
    requires deep { depth + expr_nodes (signed pos mark kind (value_view part.now)) < 2 ^ 16 }
    requires long { length code.old + expr_size (signed pos mark kind (value_view part.now)) ≤ most_instructions }
    ensures { OnOk result (code.new ≡ code.old ++ expr_code around.locals depth target (length code.old)
        (signed pos mark kind (value_view part.now))) }
{
    let minus = is_minus(mark);
    let value = temp_of(around.locals, depth, part);
    emit_value(code, around, depth, sign_var(minus, target, value), part)?;
    emit_sign(code, minus, pos, kind, target, value)
}

/// A conversion.
#[cycle(emit)]
pub fn emit_converted(
    code: &mut Seq<Line>,
    around: Around,
    depth: u16,
    target: u32,
    pos: Pos,
    kind: ValueKind,
    part: &Node,
) -> Result<(), Memory>
    requires sound { IsSound around.locals (converted pos kind (value_view part.now)) }
    requires deep { depth + expr_nodes (converted pos kind (value_view part.now)) < 2 ^ 16 }
    requires long { length code.old + expr_size (converted pos kind (value_view part.now)) ≤ most_instructions }
    ensures { OnOk result (code.new ≡ code.old ++ expr_code around.locals depth target (length code.old)
        (converted pos kind (value_view part.now))) }
{
    let value = temp_of(around.locals, depth, part);
    emit_value(code, around, depth, value, part)?;
    put(code, pos, Instr::Fit(Var(target), kind, atom(value)))
}

/// `!`: the truth that waits is set to the other one.
#[cycle(emit)]
pub fn emit_negated(
    code: &mut Seq<Line>,
    around: Around,
    depth: u16,
    target: u32,
    pos: Pos,
    part: &Node,
) -> Result<(), Memory>
    requires sound { IsSound around.locals (negated pos (value_view part.now)) }
    requires deep { depth + expr_nodes (negated pos (value_view part.now)) < 2 ^ 16 }
    requires long { length code.old + expr_size (negated pos (value_view part.now)) ≤ most_instructions }
    ensures { OnOk result (code.new ≡ code.old ++ expr_code around.locals depth target (length code.old)
        (negated pos (value_view part.now))) }
{
    let level = depth + 1;
    let value = temp_of(around.locals, level, part);
    put(code, pos, Instr::Set(Var(target), bit(true)))?;
    emit_value(code, around, level, value, part)?;
    let test = next_place(code);
    let branch = branch_on(true, value, test + 1, test + 2);
    put(code, pos, branch)?;
    put(code, pos, Instr::Set(Var(target), bit(false)))?;
    Ok(())
}

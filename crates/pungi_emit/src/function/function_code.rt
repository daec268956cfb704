//! The code of a function.
ghost use Rattle.std.specs.Prelude.{◌≡◌, length, IfOk, OnOk, ◌++◌};
ghost use Rattle.pungi_resolved.specs.ActionView.{function_view, action_view};
ghost use Rattle.pungi_meaning.specs.Run.{closing_brace};
ghost use Rattle.pungi_layout.specs.code.CallKinds.{returned_kind};
ghost use Rattle.pungi_layout.specs.code.Heads.{heads_of};
ghost use Rattle.pungi_emit.specs.function.Limits.{IsWithinLimits};
ghost use Rattle.pungi_emit.specs.planning.Plans.{Begins, plan_of};
ghost use Rattle.pungi_layout.specs.code.StmtCode.{body_code, end_code};
ghost use Rattle.pungi_layout.specs.code.Sizes.{stmt_size};
ghost use Rattle.pungi_layout.specs.code.VarKinds.{var_kinds as kinds_of_vars};

use crate::code::instructions::{Around, put};
use crate::expr::call_kinds::{is_void, returned_kind};
use crate::function::heads::heads;
use crate::function::var_kinds::var_kinds;
use crate::planning::plan::Plan;
use crate::planning::scope::{Labels, Scope};
use crate::planning::survey::survey_stmt;
use crate::stmt::stmt_code::emit_stmt;
use pungi_base::{Memory, Pos, Seq};
use pungi_code::{Code, Instr, Line};
use pungi_resolved::{Action, ActionNode, Function};
use std::alloc::Global;

const NOWHERE: Pos = Pos { line: 0, col: 0 };

/// The closing brace of a body.
fn closing_brace(body: &Action) -> Pos
    ensures { result ≡ closing_brace (action_view body.now) }
{
    match &body.node {
        ActionNode::Block(_, pos) => *pos,
        ActionNode::Declare(_)
        | ActionNode::Do(_)
        | ActionNode::If(_, _)
        | ActionNode::IfElse(_, _, _)
        | ActionNode::While(_, _)
        | ActionNode::DoWhile(_, _)
        | ActionNode::For(_, _, _, _, _)
        | ActionNode::Switch(_, _)
        | ActionNode::Case(_, _)
        | ActionNode::Default(_)
        | ActionNode::Label(_, _)
        | ActionNode::Goto(_)
        | ActionNode::Break
        | ActionNode::Continue
        | ActionNode::Return(_, _) => NOWHERE,
    }
}

/// The end of a function.
fn emit_end(code: &mut Seq<Line>, pos: Pos, void: bool) -> Result<(), Memory>
    ensures { OnOk result (code.new ≡ code.old ++ end_code pos void) }
{
    if void {
        put(code, pos, Instr::Return(None))
    } else {
        put(code, pos, Instr::Fall)
    }
}

/// The instructions of a body, whose statements lead to these places and which takes so many instructions.
fn emit_body(around: Around, places: &[u32], size: u32, f: &Function) -> Result<Seq<Line>, Memory>
    requires within { IsWithinLimits (function_view f.now) }
    requires locals { around.locals ≡ f.now.locals }
    requires plan { Begins (plan_of 0 (action_view f.now.body)) places.now }
    ensures { IfOk result (λ code. size ≡ stmt_size (action_view f.now.body)
        → code ≡ body_code (function_view f.now)) }
{
    let labels = Labels::Nowhere(size);
    let scope = Scope {
        breaks: size,
        continues: size,
        labels: &labels,
    };
    let mut plan = Plan { left: places };
    let mut code = Seq::new(Vec::new(around.alloc));
    emit_stmt(&mut code, around, &scope, &mut plan, &f.body)?;
    emit_end(&mut code, closing_brace(&f.body), is_void(f.result))?;
    Ok(code)
}

/// The code of a function: its instructions, what each of its variables holds, the heads of its loops, and its terms.
pub fn lower_function(alloc: Global, f: &Function) -> Result<Code, Memory>
    requires { IsWithinLimits (function_view f.now) }
    ensures instrs { IfOk result (λ code. code.instrs ≡ body_code (function_view f.now)) }
    ensures vars { IfOk result (λ code. code.vars ≡ kinds_of_vars (function_view f.now)) }
    ensures params { IfOk result (λ code. code.params ≡ length f.now.params) }
    ensures locals { IfOk result (λ code. code.locals ≡ f.now.locals) }
    ensures returned { IfOk result (λ code. code.result ≡ returned_kind f.now.result) }
    ensures heads { IfOk result (λ code. code.heads ≡ heads_of (function_view f.now)) }
    ensures terms { IfOk result (λ code. code.terms ≡ f.now.terms) }
{
    let locals = f.locals as u16;
    let params = f.params.len() as u32;
    let vars = var_kinds(alloc, f)?;
    let mut marks = Seq::new(Vec::new(alloc));
    let mut places = Seq::new(Vec::new(alloc));
    let mut labels = Seq::new(Vec::new(alloc));
    let size = survey_stmt(alloc, &mut marks, &mut places, &mut labels, &f.body, 0)?;
    let around = Around { alloc, locals };
    let instrs = emit_body(around, places.as_slice(), size, f)?;
    let heads = Seq::new(heads(alloc, marks.as_slice(), instrs.as_slice())?);
    let terms = f.terms.copy(alloc)?;
    Ok(Code {
        instrs,
        vars,
        params,
        locals: f.locals as u32,
        result: returned_kind(f.result),
        heads,
        terms,
    })
}

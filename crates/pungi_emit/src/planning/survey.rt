// What is found out of a statement before its code is there: the places that it leads to, and its loops and labels.
ghost use Rattle.std.specs.Prelude.{◌≡◌, ◌+◌, ◌≤◌, ◌++◌, [], map, IfOk};
ghost use Rattle.pungi_code.specs.Limits.{most_instructions};
ghost use Rattle.pungi_resolved.specs.ActionView.{declared_view, action_view, actions_of};
ghost use Rattle.pungi_resolved.specs.ValueView.{value_view, optional_view};
ghost use Rattle.pungi_layout.specs.code.Sizes.{option_size, declare_size, stmt_size, stmts_size, switch_size};
ghost use Rattle.pungi_layout.specs.code.Scopes.{for_head};
ghost use Rattle.pungi_layout.specs.code.Heads.{head_at};
ghost use Rattle.pungi_emit.specs.planning.LabelPlaces.{list_labels};
ghost use Rattle.pungi_emit.specs.planning.Plans.{places_of, plans_of};
ghost use Rattle.pungi_emit.specs.planning.Surveys.{SurveysStmt, SurveysSkipped, SurveysSwitch, SurveysList};
ghost use Rattle.pungi_resolved.specs.Actions.{block, if_only, if_else, while, do_while, for, switch, label};
ghost use Rattle.pungi_meaning.specs.Run.{nowhere};

use crate::expr::size::{after_option, after_test, after_tested, after_value};
use crate::planning::counts::{cases_count, declared_count};
use crate::planning::labels::block_names;
use crate::planning::reserved_places::{fill, hold};
use pungi_base::{Memory, Name, Pos, Seq};
use pungi_code::{Head, Label};
use pungi_layout::Mark;
use pungi_resolved::{Action, ActionNode, DeclaredLocal, Value as Node};
use std::alloc::Global;

/// A head at a place of the code.
fn head(place: u32, pos: Pos) -> Head
    ensures { result ≡ head_at place pos }
{
    Head {
        label: Label(place),
        pos,
    }
}

/// The place after what declared locals hold at first.
fn after_reached(from: u32, list: &[DeclaredLocal]) -> u32
    requires { from + declare_size (map declared_view list.now) ≤ most_instructions }
    ensures { result ≡ from + declare_size (map declared_view list.now) }
{
    let mut place = from;
    for reached in list {
        place = after_option(place, &reached.value) + 1;
    }
    place
}

/// The place after a `return` and its value.
fn after_give(from: u32, node: &Option<Box<Node>>) -> u32
    requires { from + (option_size (optional_view node.now) + 1) ≤ most_instructions }
    ensures { result ≡ from + (option_size (optional_view node.now) + 1) }
{
    after_option(from, node) + 1
}

/// The place of the head of a `for`, after what it declares and does first.
fn for_head(from: u32, reached: &[DeclaredLocal], first: &Option<Box<Node>>) -> u32
    requires { for_head from (map declared_view reached.now) (optional_view first.now) ≤ most_instructions }
    ensures { result ≡ for_head from (map declared_view reached.now) (optional_view first.now) }
{
    let unset = from + reached.len() as u32;
    let bound = after_reached(unset, reached);
    after_option(bound, first)
}

/// Statements, one after another, the first of which begins at this place. Returns the place after them.
#[cycle(survey)]
fn survey_list(
    alloc: Global,
    marks: &mut Seq<Mark>,
    places: &mut Seq<u32>,
    labels: &mut Seq<u32>,
    starts: &mut Seq<u32>,
    list: &[Action],
    from: u32,
) -> Result<u32, Memory>
    requires { from + stmts_size (actions_of (map action_view list.now)) ≤ most_instructions }
    ensures { IfOk result (λ next. SurveysList from (map action_view list.now)
        (plans_of from (actions_of (map action_view list.now))) (places_of (list_labels from
        (map action_view list.now))) next marks.old marks.new places.old places.new labels.old labels.new starts.old
        starts.new) }
{
    let mut place = from;
    for action in list {
        starts.push(place)?;
        place = survey_stmt(alloc, marks, places, labels, action, place)?;
    }
    Ok(place)
}

/// The statements of a block, which begin at this place.
#[cycle(survey)]
fn survey_inside(
    alloc: Global,
    marks: &mut Seq<Mark>,
    places: &mut Seq<u32>,
    starts: &mut Seq<u32>,
    list: &[Action],
    from: u32,
) -> Result<u32, Memory>
    requires { from + stmts_size (actions_of (map action_view list.now)) ≤ most_instructions }
    ensures { IfOk result (λ next. SurveysList from (map action_view list.now)
        (places_of (list_labels from (map action_view list.now))
        ++ plans_of from (actions_of (map action_view list.now))) [] next marks.old marks.new places.old places.new []
        [] starts.old starts.new) }
{
    let names = block_names(alloc, list)?;
    let room = hold(places, names.len())?;
    let mut labels = Seq::new(Vec::new(alloc));
    let next = survey_list(alloc, marks, places, &mut labels, starts, list, from)?;
    fill(places, room, labels.as_slice());
    Ok(next)
}

/// A block in a `switch`, after the value.
#[cycle(survey)]
fn survey_switched(
    alloc: Global,
    marks: &mut Seq<Mark>,
    places: &mut Seq<u32>,
    list: &[Action],
    place: u32,
) -> Result<u32, Memory>
    requires { place + switch_size (block nowhere (actions_of (map action_view list.now)) nowhere) ≤ most_instructions }
    ensures { IfOk result (λ next. SurveysSwitch place (block nowhere (actions_of (map action_view list.now))
        nowhere) next marks.old marks.new places.old places.new [] []) }
{
    let end = hold(places, 1)?;
    let begun = hold(places, list.len())?;
    let own = declared_count(list);
    let cases = cases_count(list);
    let unset = place + own;
    let compared = unset + cases;
    let branched = compared + cases;
    let from = branched + 1;
    let mut starts = Seq::new(Vec::new(alloc));
    let next = survey_inside(alloc, marks, places, &mut starts, list, from)?;
    fill(places, begun, starts.as_slice());
    fill(places, end, &[next]);
    Ok(next)
}

/// A block elsewhere.
#[cycle(survey)]
fn survey_inner(
    alloc: Global,
    marks: &mut Seq<Mark>,
    places: &mut Seq<u32>,
    list: &[Action],
    pc: u32,
) -> Result<u32, Memory>
    requires { pc + stmt_size (block nowhere (actions_of (map action_view list.now)) nowhere) ≤ most_instructions }
    ensures { IfOk result (λ next. SurveysStmt pc (block nowhere (actions_of (map action_view list.now)) nowhere)
        next marks.old marks.new places.old places.new [] []) }
{
    let own = declared_count(list);
    let from = pc + own;
    let mut starts = Seq::new(Vec::new(alloc));
    let next = survey_inside(alloc, marks, places, &mut starts, list, from)?;
    Ok(next)
}

/// What is no block in a `switch`, after the value.
#[cycle(survey)]
fn survey_skipped(
    alloc: Global,
    marks: &mut Seq<Mark>,
    places: &mut Seq<u32>,
    labels: &mut Seq<u32>,
    body: &Action,
    place: u32,
) -> Result<u32, Memory>
    requires { place + (1 + stmt_size (action_view body.now)) ≤ most_instructions }
    ensures { IfOk result (λ next. SurveysSkipped place (action_view body.now) next marks.old marks.new places.old
        places.new labels.old labels.new) }
{
    let end = hold(places, 1)?;
    let from = place + 1;
    let next = survey_stmt(alloc, marks, places, labels, body, from)?;
    fill(places, end, &[next]);
    Ok(next)
}

/// A `switch`, after its value.
#[cycle(survey)]
#[tactic(auto, using(crate::proofs::planning::Surveys::no_labels))]
fn survey_choice(
    alloc: Global,
    marks: &mut Seq<Mark>,
    places: &mut Seq<u32>,
    labels: &mut Seq<u32>,
    body: &Action,
    place: u32,
) -> Result<u32, Memory>
    requires { place + switch_size (action_view body.now) ≤ most_instructions }
    ensures { IfOk result (λ next. SurveysSwitch place (action_view body.now) next marks.old marks.new places.old
        places.new labels.old labels.new) }
{
    match &body.node {
        ActionNode::Block(list, _) => survey_switched(alloc, marks, places, list, place),
        ActionNode::Declare(_)
        | ActionNode::Do(_)
        | ActionNode::If(_, _)
        | ActionNode::IfElse(_, _, _)
        | ActionNode::While(_, _)
        | ActionNode::DoWhile(_, _)
        | ActionNode::For(_, _, _, _, _)
        | ActionNode::Switch(_, _)
        | ActionNode::Case(_, _)
        | ActionNode::Default(_)
        | ActionNode::Label(_, _)
        | ActionNode::Goto(_)
        | ActionNode::Break
        | ActionNode::Continue
        | ActionNode::Return(_, _) => survey_skipped(alloc, marks, places, labels, body, place),
    }
}

/// `for`.
#[cycle(survey)]
fn survey_for(
    alloc: Global,
    marks: &mut Seq<Mark>,
    places: &mut Seq<u32>,
    labels: &mut Seq<u32>,
    body: &Action,
    pc: u32,
    pos: Pos,
    reached: &[DeclaredLocal],
    first: &Option<Box<Node>>,
    test: &Option<Box<Node>>,
    last: &Option<Box<Node>>,
) -> Result<u32, Memory>
    requires { pc + stmt_size (for pos (map declared_view reached.now) (optional_view first.now)
        (optional_view test.now) (optional_view last.now) (action_view body.now)) ≤ most_instructions }
    ensures { IfOk result (λ next. SurveysStmt pc (for pos (map declared_view reached.now) (optional_view first.now)
        (optional_view test.now) (optional_view last.now) (action_view body.now)) next marks.old marks.new places.old
        places.new labels.old labels.new) }
{
    let room = hold(places, 2)?;
    let top = for_head(pc, reached, first);
    marks.push(Mark::OfLoop(head(top, pos)))?;
    let go = after_tested(top, test);
    let next = survey_stmt(alloc, marks, places, labels, body, go)?;
    let turned = after_option(next, last);
    let behind_it = turned + 1;
    fill(places, room, &[next, behind_it]);
    Ok(behind_it)
}

/// `if` with `else`.
#[cycle(survey)]
fn survey_else(
    alloc: Global,
    marks: &mut Seq<Mark>,
    places: &mut Seq<u32>,
    labels: &mut Seq<u32>,
    a: &Action,
    b: &Action,
    pc: u32,
    pos: Pos,
    c: &Node,
) -> Result<u32, Memory>
    requires { pc + stmt_size (if_else pos (value_view c.now) (action_view a.now) (action_view b.now))
        ≤ most_instructions }
    ensures { IfOk result (λ next. SurveysStmt pc (if_else pos (value_view c.now) (action_view a.now)
        (action_view b.now)) next marks.old marks.new places.old places.new labels.old labels.new) }
{
    let _place = pos;
    let room = hold(places, 2)?;
    let go = after_test(pc, c);
    let last = survey_stmt(alloc, marks, places, labels, a, go)?;
    let middle = last + 1;
    let next = survey_stmt(alloc, marks, places, labels, b, middle)?;
    fill(places, room, &[middle, next]);
    Ok(next)
}

/// `if` without `else`.
#[cycle(survey)]
fn survey_if(
    alloc: Global,
    marks: &mut Seq<Mark>,
    places: &mut Seq<u32>,
    labels: &mut Seq<u32>,
    body: &Action,
    pc: u32,
    pos: Pos,
    c: &Node,
) -> Result<u32, Memory>
    requires { pc + stmt_size (if_only pos (value_view c.now) (action_view body.now)) ≤ most_instructions }
    ensures { IfOk result (λ next. SurveysStmt pc (if_only pos (value_view c.now) (action_view body.now)) next
        marks.old marks.new places.old places.new labels.old labels.new) }
{
    let _place = pos;
    let room = hold(places, 1)?;
    let go = after_test(pc, c);
    let next = survey_stmt(alloc, marks, places, labels, body, go)?;
    fill(places, room, &[next]);
    Ok(next)
}

/// `while`.
#[cycle(survey)]
fn survey_while(
    alloc: Global,
    marks: &mut Seq<Mark>,
    places: &mut Seq<u32>,
    labels: &mut Seq<u32>,
    body: &Action,
    pc: u32,
    pos: Pos,
    c: &Node,
) -> Result<u32, Memory>
    requires { pc + stmt_size (while pos (value_view c.now) (action_view body.now)) ≤ most_instructions }
    ensures { IfOk result (λ next. SurveysStmt pc (while pos (value_view c.now) (action_view body.now)) next
        marks.old marks.new places.old places.new labels.old labels.new) }
{
    let room = hold(places, 1)?;
    marks.push(Mark::OfLoop(head(pc, pos)))?;
    let go = after_test(pc, c);
    let next = survey_stmt(alloc, marks, places, labels, body, go)?;
    let behind_it = next + 1;
    fill(places, room, &[next]);
    Ok(behind_it)
}

/// `do`.
#[cycle(survey)]
fn survey_until(
    alloc: Global,
    marks: &mut Seq<Mark>,
    places: &mut Seq<u32>,
    labels: &mut Seq<u32>,
    body: &Action,
    pc: u32,
    pos: Pos,
    c: &Node,
) -> Result<u32, Memory>
    requires { pc + stmt_size (do_while pos (action_view body.now) (value_view c.now)) ≤ most_instructions }
    ensures { IfOk result (λ next. SurveysStmt pc (do_while pos (action_view body.now) (value_view c.now)) next
        marks.old marks.new places.old places.new labels.old labels.new) }
{
    let room = hold(places, 2)?;
    let top = pc + 1;
    marks.push(Mark::OfLoop(head(top, pos)))?;
    let go = after_test(top, c);
    let next = survey_stmt(alloc, marks, places, labels, body, go)?;
    let behind_it = next + 1;
    fill(places, room, &[go, next]);
    Ok(behind_it)
}

/// A labelled statement.
#[cycle(survey)]
fn survey_label(
    alloc: Global,
    marks: &mut Seq<Mark>,
    places: &mut Seq<u32>,
    labels: &mut Seq<u32>,
    body: &Action,
    pc: u32,
    pos: Pos,
    name: Name,
) -> Result<u32, Memory>
    requires { pc + stmt_size (action_view body.now) ≤ most_instructions }
    ensures { IfOk result (λ next. SurveysStmt pc (label pos name (action_view body.now)) next marks.old marks.new
        places.old places.new labels.old labels.new) }
{
    let _name = name;
    labels.push(pc)?;
    marks.push(Mark::OfLabel(head(pc, pos)))?;
    let next = survey_stmt(alloc, marks, places, labels, body, pc)?;
    Ok(next)
}

/// A `switch`.
#[cycle(survey)]
fn survey_switch(
    alloc: Global,
    marks: &mut Seq<Mark>,
    places: &mut Seq<u32>,
    labels: &mut Seq<u32>,
    body: &Action,
    pc: u32,
    pos: Pos,
    node: &Node,
) -> Result<u32, Memory>
    requires { pc + stmt_size (switch pos (value_view node.now) (action_view body.now)) ≤ most_instructions }
    ensures { IfOk result (λ next. SurveysStmt pc (switch pos (value_view node.now) (action_view body.now)) next
        marks.old marks.new places.old places.new labels.old labels.new) }
{
    let _place = pos;
    let place = after_value(pc, node);
    let next = survey_choice(alloc, marks, places, labels, body, place)?;
    Ok(next)
}

/// A statement that begins at this place. Its places and those of its labels come after the others. Returns the place
/// after it.
#[cycle(survey)]
#[tactic(auto, using(crate::proofs::planning::Surveys::nothing_found, crate::proofs::planning::Surveys::no_labels))]
pub fn survey_stmt(
    alloc: Global,
    marks: &mut Seq<Mark>,
    places: &mut Seq<u32>,
    labels: &mut Seq<u32>,
    action: &Action,
    pc: u32,
) -> Result<u32, Memory>
    requires { pc + stmt_size (action_view action.now) ≤ most_instructions }
    ensures { IfOk result (λ next. SurveysStmt pc (action_view action.now) next marks.old marks.new places.old
        places.new labels.old labels.new) }
{
    let pos = action.pos;
    match &action.node {
        ActionNode::Block(list, _) => survey_inner(alloc, marks, places, list, pc),
        ActionNode::Declare(list) => Ok(after_reached(pc, list)),
        ActionNode::Do(node) => Ok(after_option(pc, node)),
        ActionNode::If(c, a) => survey_if(alloc, marks, places, labels, a, pc, pos, c),
        ActionNode::IfElse(c, a, b) => {
            survey_else(alloc, marks, places, labels, a, b, pc, pos, c)
        }
        ActionNode::While(c, a) => { survey_while(alloc, marks, places, labels, a, pc, pos, c) }
        ActionNode::DoWhile(a, c) => { survey_until(alloc, marks, places, labels, a, pc, pos, c) }
        ActionNode::For(rs, u, c, w, a) => {
            survey_for(alloc, marks, places, labels, a, pc, pos, rs, u, c, w)
        }
        ActionNode::Switch(node, a) => {
            survey_switch(alloc, marks, places, labels, a, pc, pos, node)
        }
        ActionNode::Case(_, a) | ActionNode::Default(a) => {
            survey_stmt(alloc, marks, places, labels, a, pc)
        }
        ActionNode::Label(name, a) => {
            survey_label(alloc, marks, places, labels, a, pc, pos, *name)
        }
        ActionNode::Goto(_) | ActionNode::Break | ActionNode::Continue => Ok(pc + 1),
        ActionNode::Return(_, node) => Ok(after_give(pc, node)),
    }
}

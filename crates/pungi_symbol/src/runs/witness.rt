// A run for a state: the values of its tokens where all that may differ differs.
ghost use Rattle.std.specs.Prelude.{◌≡◌, ◌<◌, ◌^◌, nat_lt, drop, map, take, IfOk};
ghost use Rattle.std.specs.List.{range_with_len};
ghost use Rattle.std.specs.Option.{option_map_or};
ghost use Rattle.pungi_code.specs.Run.{code_at};
ghost use Rattle.pungi_symbol.specs.states.Known.{count};
ghost use Rattle.pungi_symbol.specs.runs.Paths.{argument_count, object_number, own_value, canon, conversion_of};
ghost use Rattle.pungi_symbol.specs.runs.Paths.{number_choice};
ghost use Rattle.pungi_symbol.specs.runs.Paths.{choice_of, choices_of, own_choices};

use crate::questions::call_questions::smaller_length;
use crate::runs::begin::{arguments_of, classes_at};
use crate::states::code_lines::{front, rest};
use crate::states::mark::Mark;
use crate::states::state::State;
use crate::states::sym::Sym;
use pungi_base::{Choice, Entry, Memory, Seq, Value, Witness};
use pungi_code::Codes;
use std::alloc::Global;

/// The number of an object, where it has one.
fn small_number(number: usize) -> Result<u32, Memory>
    ensures { IfOk result (λ n. n ≡ number) }
{
    if number > u32::MAX as usize {
        return Err(Memory);
    }
    Ok(number as u32)
}

/// The object of a class, by its number. Those that were made come after so many others, in the order of their making.
fn object_number(others: usize, made: &[usize], class: usize) -> Result<u32, Memory>
    requires few { others < 2 ^ 60 }
    ensures { IfOk result (λ n. n ≡ object_number others made.now class) }
{
    for i in 0..made.len() {
        if made[i] == class {
            return small_number(others + i);
        }
    }
    small_number(class)
}

/// The numbers of the objects of the classes below a number, where there are so many others. Each of those that were
/// made is looked at once, the last first, so that the first of a class stays.
fn object_numbers(alloc: Global, others: usize, made: &[usize]) -> Result<Vec<usize>, Memory>
    requires few { others < 2 ^ 60 }
    ensures { IfOk result (λ numbers. numbers.items ≡ map (object_number others made.now) (range_with_len 0 others)) }
{
    let mut numbers = classes_at(alloc, others)?;
    for later in 0..made.len() {
        let i = made.len() - 1 - later;
        if made[i] < others {
            numbers[made[i]] = others + i;
        }
    }
    Ok(numbers)
}

/// The number of the object of a class, which is among these numbers where the class is a token.
fn class_number(
    numbers: &[usize],
    others: usize,
    made: &[usize],
    class: usize,
) -> Result<u32, Memory>
    requires few { others < 2 ^ 60 }
    requires numbers { numbers.now ≡ map (object_number others made.now) (range_with_len 0 others) }
    ensures { IfOk result (λ n. n ≡ object_number others made.now class) }
{
    if class < numbers.len() {
        return small_number(numbers[class]);
    }
    object_number(others, made, class)
}

fn value_for(m: Mark, class: u32, number: i64) -> Value
    ensures { result ≡ own_value m class number }
{
    match m {
        Mark::Pointer => Value::Object(class),
        Mark::TextPointer => Value::Text,
        Mark::IsNull => Value::Null,
        Mark::IsObject => Value::Object(class),
        Mark::IsText => Value::Text,
        Mark::IsNumber(n) => Value::Int(n),
        Mark::IsConverted(n) => Value::Int(n),
        Mark::Integer(_) => Value::Int(number),
    }
}

/// How an argument parser ended, by what it returned.
fn conversion_for(n: i64) -> Result<Choice, Memory>
    ensures { IfOk result (λ c. c ≡ conversion_of n) }
{
    let units = if n < 0 { -1 - n } else { n };
    if units > u32::MAX as i64 {
        return Err(Memory);
    }
    if n < 0 {
        Ok(Choice::Failed(units as u32))
    } else {
        Ok(Choice::Given(units as u32))
    }
}

fn number_choice(m: Mark, n: i64) -> Result<Choice, Memory>
    ensures { IfOk result (λ c. c ≡ number_choice m n) }
{
    match m {
        Mark::IsConverted(_) => conversion_for(n),
        Mark::Pointer => Ok(Choice::Int(n)),
        Mark::TextPointer => Ok(Choice::Int(n)),
        Mark::IsNull => Ok(Choice::Int(n)),
        Mark::IsObject => Ok(Choice::Int(n)),
        Mark::IsText => Ok(Choice::Int(n)),
        Mark::IsNumber(_) => Ok(Choice::Int(n)),
        Mark::Integer(_) => Ok(Choice::Int(n)),
    }
}

fn choice_for(m: Mark, value: Value) -> Result<Choice, Memory>
    ensures { IfOk result (λ c. c ≡ choice_of m value) }
{
    match value {
        Value::Null => Ok(Choice::Null),
        Value::Object(k) => Ok(Choice::Object(k)),
        Value::Int(n) => number_choice(m, n),
        Value::Text => Ok(Choice::Text),
    }
}

#[tactic(auto, using(crate::proofs::runs::Canon::own_end))]
fn own_table(alloc: Global, state: &State, numbers: &[i64]) -> Result<Vec<Value>, Memory>
    ensures { IfOk result (λ table. table.items ≡ canon state.now numbers.now) }
{
    let marks = state.known.marks.as_slice();
    let classes = state.classes.as_slice();
    let made = state.known.made.as_slice();
    let others = marks.len();
    let of_classes = object_numbers(alloc, others, made)?;
    let n = smaller_length(smaller_length(others, classes.len()), numbers.len());
    let mut table = Vec::new(alloc);
    for i in 0..n {
        table.push(value_for(
            marks[i],
            class_number(of_classes.as_slice(), others, made, classes[i])?,
            numbers[i],
        ))?;
    }
    Ok(table)
}

#[tactic(auto, using(crate::proofs::runs::Canon::choices_end))]
fn choices_for(alloc: Global, marks: &[Mark], values: &[Value]) -> Result<Vec<Choice>, Memory>
    ensures { IfOk result (λ choices. choices.items ≡ choices_of marks.now values.now) }
{
    let mut choices = Vec::new(alloc);
    for i in 0..smaller_length(marks.len(), values.len()) {
        choices.push(choice_for(marks[i], values[i])?)?;
    }
    Ok(choices)
}

/// Whether an entry may have as many objects as there are tokens.
pub fn has_few_tokens(state: &State) -> bool
    ensures { result ≡ nat_lt (count state.now.known) (2 ^ 31) }
{
    state.known.marks.len() < 0x8000_0000
}

/// There are as many objects as tokens.
fn object_count(state: &State) -> Result<u32, Memory>
    ensures is { IfOk result (λ n. n ≡ count state.now.known) }
    ensures few { IfOk result (λ n. n < 2 ^ 31) }
{
    let n = state.known.tokens();
    if n < 0x8000_0000 {
        Ok(n as u32)
    } else {
        Err(Memory)
    }
}

fn witness_of(
    alloc: Global,
    statics: u32,
    arguments: usize,
    state: &State,
    numbers: &[i64],
) -> Result<Witness, Memory>
    ensures objects { IfOk result (λ w. w.input.objects ≡ count state.now.known) }
    ensures few { IfOk result (λ w. w.input.objects < 2 ^ 31) }
    ensures args { IfOk result (λ w. w.input.args ≡ take arguments (drop statics (canon state.now numbers.now))) }
    ensures choices { IfOk result (λ w. w.choices ≡ drop arguments (drop statics (own_choices state.now numbers.now))) }
{
    let table = own_table(alloc, state, numbers)?;
    let came = rest(table.as_slice(), statics as usize);
    let args = Vec::from_slice(alloc, front(came, arguments))?;
    let marks = rest(state.known.marks.as_slice(), statics as usize);
    let choices = choices_for(alloc, rest(marks, arguments), rest(came, arguments))?;
    Ok(Witness {
        input: Entry {
            objects: object_count(state)?,
            args: Seq::new(args),
        },
        choices: Seq::new(choices),
    })
}

/// The run of a symbolic state in which its numbers are these.
pub fn run_of(alloc: Global, codes: &Codes, state: &Sym, numbers: &[i64]) -> Result<Witness, Memory>
    ensures objects { IfOk result (λ w. w.input.objects ≡ count state.now.known) }
    ensures few { IfOk result (λ w. w.input.objects < 2 ^ 31) }
    ensures args { IfOk result (λ w. w.input.args ≡ take (option_map_or argument_count
        (code_at codes.now state.now.known.function) 0) (drop codes.now.statics (canon state.now numbers.now))) }
    ensures choices { IfOk result (λ w. w.choices ≡ drop (option_map_or argument_count
        (code_at codes.now state.now.known.function) 0) (drop codes.now.statics (own_choices state.now numbers.now))) }
{
    let state = state.state();
    let arguments = arguments_of(codes, state.known.function);
    witness_of(alloc, codes.statics, arguments, state, numbers)
}

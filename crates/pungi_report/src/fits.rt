// Whoever reads a number of a type finds one that the type has.
ghost use Rattle.std.specs.List.{All};
ghost use Rattle.pungi_base.specs.declared.verdict.Verdict.TheVariants.{Refused};
ghost use Rattle.pungi_report.specs.Fits.{FitsPlace, FitsValue, FitsChoice, FitsWitness, FitsFault, FitsWhy};
ghost use Rattle.pungi_report.specs.Fits.{FitsVerdict, FitsLine};

use pungi_base::{Choice, Fault, Name, Pos, Rule, Value, Verdict, Why, Witness};

fn place_fits(pos: Pos)
    ensures { FitsPlace pos }
{}

fn value_fits(value: Value)
    ensures { FitsValue value }
{
    match value {
        Value::Null | Value::Text => {}
        Value::Object(_) => {}
        Value::Int(_) => {}
    }
}

fn choice_fits(choice: Choice)
    ensures { FitsChoice choice }
{
    match choice {
        Choice::Null | Choice::Text => {}
        Choice::Object(_) | Choice::Given(_) | Choice::Failed(_) => {}
        Choice::Int(_) => {}
    }
}

fn places_fit(places: &[Pos])
    ensures { All FitsPlace places.now }
{
    for pos in places {
        place_fits(*pos);
    }
}

fn values_fit(values: &[Value])
    ensures { All FitsValue values.now }
{
    for value in values {
        value_fits(*value);
    }
}

fn choices_fit(choices: &[Choice])
    ensures { All FitsChoice choices.now }
{
    for choice in choices {
        choice_fits(*choice);
    }
}

fn witness_fits(witness: &Witness)
    ensures { FitsWitness witness.now }
{
    let _objects = witness.input.objects;
    values_fit(witness.input.args.as_slice());
    choices_fit(witness.choices.as_slice());
}

fn fault_fits(fault: &Fault)
    ensures { FitsFault fault.now }
{
    let _object = fault.object;
    let _change = fault.change;
    let _escaped = fault.escaped;
    place_fits(fault.pos);
    witness_fits(&fault.witness);
    places_fit(fault.used.as_slice());
}

fn why_fits(why: &Why)
    ensures { FitsWhy why.now }
{
    match why {
        Why::Traces | Why::Shapes => {}
        Why::Range { pos, .. } => place_fits(*pos),
        Why::Number { pos } => place_fits(*pos),
        Why::Loop { pos } => place_fits(*pos),
        Why::Call { pos, .. } => place_fits(*pos),
    }
}

fn refusal_fits(pos: Pos, rule: Rule)
    ensures { FitsVerdict (Refused pos rule) }
{
    let Rule(_number) = rule;
    place_fits(pos);
}

fn verdict_fits(verdict: &Verdict)
    ensures { FitsVerdict verdict.now }
{
    match verdict {
        Verdict::Clean => {}
        Verdict::Faulty(fault) => fault_fits(fault),
        Verdict::Unknown(why) => why_fits(why),
        Verdict::Refused(pos, rule) => refusal_fits(*pos, *rule),
    }
}

/// The numbers of lines are those that their types have.
pub(crate) fn lines_fit(lines: &[(Name, Verdict)])
    ensures { All FitsLine lines.now }
{
    for line in lines {
        verdict_fits(&line.1);
    }
}

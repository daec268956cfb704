ghost use Rattle.std.specs.Prelude.{◌≡◌, ◌++◌, length, zip, string_bytes, IfOk, OnOk};
ghost use Rattle.pungi_base.specs.Witness.{argument_line, choice_line, witness_text};
ghost use Rattle.std.specs.List.{flat_map};

use crate::{Choice, Entry, Memory, Pos, Seq, Value};
use std::alloc::Global;
use std::fmt::Write;

/// A run, by its entry and its choices in the order of their use.
#[derive(Drop)]
pub struct Witness {
    pub input: Entry,
    pub choices: Seq<Choice>,
}

fn push_arguments(text: &mut String, args: &[Value]) -> Result<(), Memory>
    ensures { OnOk result (string_bytes text.new ≡ string_bytes text.old ++ flat_map argument_line args.now) }
{
    for value in args {
        write!(text, "  argument {value}\n")?;
    }
    Ok(())
}

fn push_choices(text: &mut String, used: &[Pos], choices: &[Choice]) -> Result<(), Memory>
    requires { length used.now ≡ length choices.now }
    ensures { OnOk result (string_bytes text.new ≡ string_bytes text.old
        ++ flat_map choice_line (zip used.now choices.now)) }
{
    for (i, choice) in choices.iter().enumerate() {
        let pos = used[i];
        write!(text, "  {pos} {choice}\n")?;
    }
    Ok(())
}

impl Witness {
    /// The lines that print the witness, where each choice was used at the place beside it.
    pub fn text(&self, alloc: Global, used: &[Pos]) -> Result<Vec<u8>, Memory>
        requires { length used.now ≡ length self.now.choices }
        ensures { IfOk result (λ text. text.items ≡ witness_text self.now used.now) }
    {
        let mut text = format!(in alloc; "  objects {}\n", self.input.objects)?;
        push_arguments(&mut text, self.input.args.as_slice())?;
        push_choices(&mut text, used, self.choices.as_slice())?;
        Ok(text.into_bytes())
    }
}

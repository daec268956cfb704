ghost use Rattle.std.specs.Prelude.{◌≡◌, get_or, []};
ghost use Rattle.pungi_names.specs.NamesView.{file_of};

use crate::UnitNames;
use indexmap::IndexSet;
use pungi_api::Row;
use pungi_base::{Name, Names};
use pungi_tree::Spec;
use pungi_types::{Lookup, Standing, ValueKind, Wants};

/// The text of a name; empty where there is none of that number.
fn text<'n>(texts: &'n Names, word: Name) -> &'n [u8]
    ensures { result.now ≡ get_or texts.now word.0 [] }
{
    if (word.0 as usize) < texts.len() {
        texts.text(word)
    } else {
        &[]
    }
}

/// The names in force in a function of a file, in front of its first parameter.
#[derive(Clone, Copy)]
pub struct FileNames<'n> {
    pub names: &'n UnitNames<'n>,
    /// The names of the refused functions.
    pub refused: &'n IndexSet<u32>,
    /// The name of the function.
    pub own: Name,
}

impl Lookup for FileNames<'_> {
    ghost use Rattle.pungi_types.specs.Functions.{file_env};

    ghost env = { λ n. file_env (file_of n.names.now) n.refused.now.keys n.own.0 };

    fn word_kind(&self, word: Name) -> Option<ValueKind> {
        self.names.meaning(word).kind()
    }

    fn is_slot(&self, word: Name) -> bool {
        self.names.meaning(word).is_slot()
    }

    fn is_function(&self, word: Name) -> bool {
        self.names.meaning(word).is_function()
    }

    fn is_unknown(&self, word: Name) -> bool {
        self.names.meaning(word).is_unknown()
    }

    fn is_type_object(&self, word: Name) -> bool {
        self.names.values.is_type_object(word)
    }

    fn is_module(&self, word: Name) -> bool {
        self.names.values.is_module(word)
    }

    fn type_kind(&self, spec: &Spec, stars: usize) -> Option<ValueKind> {
        self.names.values.kinds.type_kind(spec, stars)
    }

    fn field_kind(&self, base: Option<ValueKind>, word: Name) -> Option<ValueKind> {
        self.names.values.field_kind(base, word)
    }

    fn wants(&self, word: Name, arguments: usize) -> Wants<'_> {
        self.names.called(word).wants(arguments)
    }

    fn result_kind(&self, word: Name) -> Option<ValueKind> {
        self.names.called(word).result_kind(self.own, self.refused)
    }

    fn is_value_called(&self, word: Name) -> bool {
        self.names.called(word).is_value()
    }

    fn takes_arguments(&self, word: Name) -> bool {
        self.names.called(word).takes_arguments()
    }

    fn is_unknown_call(&self, word: Name) -> bool {
        self.names.called(word).is_unknown(self.own, self.refused)
    }

    fn is_taken(&self, word: Name) -> bool {
        self.names.is_function(word) || (self.names.is_row(word) || self.names.is_static(word))
    }

    fn standing(&self, word: Name) -> Standing {
        self.names.meaning(word).standing()
    }

    fn static_number(&self, word: Name) -> u32 {
        self.names.values.static_number(word)
    }

    fn row(&self, word: Name) -> Option<&Row> {
        self.names.called(word).row()
    }

    fn is_defined_call(&self, word: Name) -> bool {
        self.names.called(word).is_defined()
    }

    fn function_number(&self, word: Name) -> Option<usize> {
        self.names.function_number(word.0)
    }

    fn text(&self, word: Name) -> &[u8] {
        text(self.names.texts, word)
    }
}

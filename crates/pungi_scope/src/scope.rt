ghost use Rattle.pungi_scope.specs.ScopeEnv.{inner_env};

use crate::LocalNames;
use pungi_api::Row;
use pungi_base::Name;
use pungi_tree::Spec;
use pungi_types::{Lookup, Standing, ValueKind, Wants};

/// The names in force at a place of a function: its locals, and after them the names of the file.
#[derive(Clone, Copy)]
pub struct Scope<'a, N> {
    pub names: &'a N,
    pub locals: &'a LocalNames,
}

impl<N: Lookup> Lookup for Scope<'_, N> {
    ghost env = { λ s. inner_env (N.env s.names.now) s.locals.now };

    fn word_kind(&self, word: Name) -> Option<ValueKind> {
        match self.locals.get(word) {
            Some(local) => local.kind,
            None => self.names.word_kind(word),
        }
    }

    fn is_slot(&self, word: Name) -> bool {
        match self.locals.get(word) {
            Some(_) => true,
            None => self.names.is_slot(word),
        }
    }

    fn is_function(&self, word: Name) -> bool {
        match self.locals.get(word) {
            Some(_) => false,
            None => self.names.is_function(word),
        }
    }

    fn is_unknown(&self, word: Name) -> bool {
        match self.locals.get(word) {
            Some(_) => false,
            None => self.names.is_unknown(word),
        }
    }

    fn is_type_object(&self, word: Name) -> bool {
        match self.locals.get(word) {
            Some(_) => false,
            None => self.names.is_type_object(word),
        }
    }

    fn is_module(&self, word: Name) -> bool {
        match self.locals.get(word) {
            Some(_) => false,
            None => self.names.is_module(word),
        }
    }

    fn type_kind(&self, spec: &Spec, stars: usize) -> Option<ValueKind> {
        self.names.type_kind(spec, stars)
    }

    fn field_kind(&self, base: Option<ValueKind>, word: Name) -> Option<ValueKind> {
        self.names.field_kind(base, word)
    }

    fn wants(&self, word: Name, arguments: usize) -> Wants<'_> {
        match self.locals.get(word) {
            Some(_) => Wants::listed(&[]),
            None => self.names.wants(word, arguments),
        }
    }

    fn result_kind(&self, word: Name) -> Option<ValueKind> {
        match self.locals.get(word) {
            Some(_) => None,
            None => self.names.result_kind(word),
        }
    }

    fn is_value_called(&self, word: Name) -> bool {
        match self.locals.get(word) {
            Some(_) => true,
            None => self.names.is_value_called(word),
        }
    }

    fn takes_arguments(&self, word: Name) -> bool {
        match self.locals.get(word) {
            Some(_) => false,
            None => self.names.takes_arguments(word),
        }
    }

    fn is_unknown_call(&self, word: Name) -> bool {
        match self.locals.get(word) {
            Some(_) => false,
            None => self.names.is_unknown_call(word),
        }
    }

    fn is_taken(&self, word: Name) -> bool {
        self.names.is_taken(word)
    }

    fn standing(&self, word: Name) -> Standing {
        match self.locals.get(word) {
            Some(local) => Standing::Local(local.number),
            None => self.names.standing(word),
        }
    }

    fn static_number(&self, word: Name) -> u32 {
        self.names.static_number(word)
    }

    fn row(&self, word: Name) -> Option<&Row> {
        match self.locals.get(word) {
            Some(_) => None,
            None => self.names.row(word),
        }
    }

    fn is_defined_call(&self, word: Name) -> bool {
        match self.locals.get(word) {
            Some(_) => false,
            None => self.names.is_defined_call(word),
        }
    }

    fn function_number(&self, word: Name) -> Option<usize> {
        self.names.function_number(word)
    }

    fn text(&self, word: Name) -> &[u8] {
        self.names.text(word)
    }
}

ghost use Rattle.std.specs.Prelude.{◌≡◌, ◌&&◌, is_none, option_map, get_or, []};
ghost use Rattle.pungi_tree.specs.ExprView.{spec_view};

use crate::{Standing, ValueKind, Wants};
use pungi_api::Row;
use pungi_base::Name;
use pungi_tree::Spec;

/// The names in force where an expression stands.
pub trait Lookup {
    ghost use Rattle.pungi_types.specs.Names.{Env, meaning_of, local_in, is_type_object, is_module as is_module_of};
    ghost use Rattle.pungi_types.specs.Names.{static_number};
    ghost use Rattle.pungi_types.specs.Files.{definitions, number_in};
    ghost use Rattle.pungi_types.specs.Kinds.{type_kind, spec_base, field_kind};
    ghost use Rattle.pungi_types.specs.Calls.{meaning_kind, is_slot, callee_of, wants as wants_of};
    ghost use Rattle.pungi_types.specs.Calls.{result_kind as result_kind_of, takes_arguments};
    ghost use Rattle.pungi_types.specs.Exprs.{is_function_meaning, is_unknown, is_value_called, is_unknown_call};
    ghost use Rattle.pungi_types.specs.Stmts.{is_taken};
    ghost use Rattle.pungi_types.specs.WantsView.{wants_view};
    ghost use Rattle.pungi_types.specs.Standing.{standing_of, row_called, is_defined};

    ghost env: { Self → Env };

    fn word_kind(&self, word: Name) -> Option<ValueKind>
        ensures { result ≡ meaning_kind (meaning_of (env self.now) word.0) };

    fn is_slot(&self, word: Name) -> bool
        ensures { result ≡ is_slot (meaning_of (env self.now) word.0) };

    fn is_function(&self, word: Name) -> bool
        ensures { result ≡ is_function_meaning (meaning_of (env self.now) word.0) };

    fn is_unknown(&self, word: Name) -> bool
        ensures { result ≡ is_unknown (meaning_of (env self.now) word.0) };

    fn is_type_object(&self, word: Name) -> bool
        ensures { result ≡ (is_none (local_in (env self.now).locals word.0)
            && is_type_object (env self.now).file.items word.0) };

    fn is_module(&self, word: Name) -> bool
        ensures { result ≡ (is_none (local_in (env self.now).locals word.0)
            && is_module_of (env self.now).file.items word.0) };

    /// The kind of a type with so many stars.
    fn type_kind(&self, spec: &Spec, stars: usize) -> Option<ValueKind>
        ensures { result ≡ type_kind (env self.now).file.items (spec_base (spec_view spec.now)) stars };

    fn field_kind(&self, base: Option<ValueKind>, word: Name) -> Option<ValueKind>
        ensures { result ≡ field_kind (env self.now).file.items base word.0 };

    /// What the arguments of a call of this word are to be, where it has so many.
    fn wants(&self, word: Name, arguments: usize) -> Wants<'_>
        ensures { wants_view result ≡ wants_of (env self.now) (callee_of (env self.now) word.0) arguments };

    fn result_kind(&self, word: Name) -> Option<ValueKind>
        ensures { result ≡ result_kind_of (env self.now) (callee_of (env self.now) word.0) };

    fn is_value_called(&self, word: Name) -> bool
        ensures { result ≡ is_value_called (callee_of (env self.now) word.0) };

    fn takes_arguments(&self, word: Name) -> bool
        ensures { result ≡ takes_arguments (callee_of (env self.now) word.0) };

    fn is_unknown_call(&self, word: Name) -> bool
        ensures { result ≡ is_unknown_call (env self.now) (callee_of (env self.now) word.0) };

    /// Whether it is the name of a function, row or static.
    fn is_taken(&self, word: Name) -> bool
        ensures { result ≡ is_taken (env self.now) word.0 };

    /// What it is as a value.
    fn standing(&self, word: Name) -> Standing
        ensures { result ≡ standing_of (meaning_of (env self.now) word.0) };

    /// The number of a static's object.
    fn static_number(&self, word: Name) -> u32
        ensures { result ≡ static_number (env self.now).file.items word.0 };

    /// The row that is called by this word.
    fn row(&self, word: Name) -> Option<&Row>
        ensures { option_map (λ r. r.now) result ≡ row_called (callee_of (env self.now) word.0) };

    /// Whether a function of the file is called by this word.
    fn is_defined_call(&self, word: Name) -> bool
        ensures { result ≡ is_defined (callee_of (env self.now) word.0) };

    /// The number of the function of the file of this name, in the order of the definitions.
    fn function_number(&self, word: Name) -> Option<usize>
        ensures { result ≡ number_in 0 (definitions (env self.now).file.items) word.0 };

    /// The text of a name; empty where there is none of that number.
    fn text(&self, word: Name) -> &[u8]
        ensures { result.now ≡ get_or (env self.now).file.texts word.0 [] };
}

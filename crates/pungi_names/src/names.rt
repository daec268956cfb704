// The names of a file.
ghost use Rattle.std.specs.Prelude.{◌≡◌, ◌+◌, ◌≤◌, ℕ, nat_eq, option_map};
ghost use Rattle.indexmap.specs.IndexMap.{get};
ghost use Rattle.indexmap.specs.IndexSet.{contains};
ghost use Rattle.pungi_api.specs.Rows.{row_in};
ghost use Rattle.pungi_names.specs.CallsView.{signature_view, function_signature};
ghost use Rattle.pungi_names.specs.RowsView.{call_view, row_seen};
ghost use Rattle.pungi_tree.specs.UnitView.{unit_view};
ghost use Rattle.pungi_types.specs.Files.{definitions, definition_in, prototypes as prototypes_of, is_place_in, number_in};

use crate::called::Called;
use crate::meaning::Meaning;
use crate::rows::RowCall;
use crate::signature::Signature;
use crate::tables::is_table;
use crate::values::Values;
use indexmap::{IndexMap, IndexSet};
use pungi_api::{FileTerms, Table};
use pungi_base::{Name, Names};
use pungi_tree::{Declr, Spec};

/// The names that a file declares, and the rows of the API, each found at once.
pub struct UnitNames<'u> {
    pub(crate) values: Values<'u>,
    pub(crate) rows: &'u Table,
    pub(crate) terms: &'u FileTerms,
    pub(crate) texts: &'u Names,
    pub(crate) prototypes: IndexSet<u32>,
    pub(crate) numbers: IndexMap<u32, usize>,
    pub(crate) signatures: IndexMap<u32, Signature>,
    pub(crate) calls: IndexMap<u32, RowCall<'u>>,
    pub(crate) ghost prototypes_found: { (w : ℕ)
        → contains nat_eq prototypes w ≡ is_place_in (prototypes_of (unit_view values.kinds.cores.unit.now)) w },
    pub(crate) ghost numbers_found: { (w : ℕ) → get nat_eq numbers w
        ≡ number_in 0 (definitions (unit_view values.kinds.cores.unit.now)) w },
    pub(crate) ghost signatures_found: { (w : ℕ)
        → option_map signature_view (get nat_eq signatures w)
        ≡ option_map (function_signature (unit_view values.kinds.cores.unit.now))
        (definition_in (definitions (unit_view values.kinds.cores.unit.now)) w) },
    pub(crate) ghost calls_found: { (w : ℕ) → option_map call_view (get nat_eq calls w)
        ≡ option_map row_seen (row_in rows.now w) },
}

/// By hand, so that a function that owns the names lets them go by one call.
impl Drop for UnitNames<'_> {
    fn drop(self) {
        let UnitNames {
            values,
            rows: _,
            terms: _,
            texts: _,
            prototypes,
            numbers,
            signatures,
            calls,
        } = self;
        drop(values);
        drop(prototypes);
        drop(numbers);
        drop(signatures);
        drop(calls);
    }
}

impl<'u> UnitNames<'u> {
    ghost use Rattle.std.specs.Prelude.{is_some, length, None};
    ghost use Rattle.pungi_base.specs.Numbers.{static_count};
    ghost use Rattle.pungi_names.specs.CalledView.{called_view};
    ghost use Rattle.pungi_names.specs.MeaningView.{meaning_view};
    ghost use Rattle.pungi_names.specs.NamesView.{file_of, file_callee};
    ghost use Rattle.pungi_names.specs.SeenCalls.{seen};
    ghost use Rattle.pungi_tree.specs.ExprView.{spec_view, declr_view};
    ghost use Rattle.pungi_types.specs.Calls.{row_or, value_or_none};
    ghost use Rattle.pungi_types.specs.Limits.{most_statics};
    ghost use Rattle.pungi_types.specs.Names.{is_table, is_static, type_objects as type_objects_of, is_function};
    ghost use Rattle.pungi_types.specs.Names.{global_kind, global_or, local_or};

    /// Whether what is declared is a table.
    pub fn is_table(&self, spec: &Spec, declr: &Declr) -> bool
        ensures { result ≡ is_table (file_of self.now).items (record {
          spec = spec_view spec.now;
          declr = declr_view
              declr.now;
        }) }
    {
        is_table(&self.values.kinds.cores, spec, declr)
    }

    /// Whether a word names a static object.
    pub fn is_static(&self, word: Name) -> bool
        ensures { result ≡ is_static (file_of self.now).items word.0 }
    {
        self.values.is_static(word)
    }

    /// Whether a word names a row.
    pub fn is_row(&self, word: Name) -> bool
        ensures { result ≡ is_some (row_in (file_of self.now).rows word.0) }
    {
        self.calls.contains_key(&word.0)
    }

    /// The terms under which the functions of the file are judged.
    pub fn terms(&self) -> &FileTerms
        ensures { result.now ≡ (file_of self.now).terms }
    {
        self.terms
    }

    /// How many type objects the file has.
    pub fn type_objects(&self) -> u32
        ensures counted { result ≡ length (type_objects_of (file_of self.now).items) }
        ensures few { static_count + result ≤ most_statics }
    {
        self.values.type_object_count()
    }

    fn is_defined(&self, word: Name) -> bool
        ensures { result ≡ is_some (definition_in (definitions (file_of self.now).items) word.0) }
    {
        self.signatures.contains_key(&word.0)
    }

    /// Whether a word names a function of the file.
    pub(crate) fn is_function(&self, word: Name) -> bool
        ensures { result ≡ is_function (file_of self.now).items word.0 }
    {
        self.is_defined(word) || self.prototypes.contains(&word.0)
    }

    /// The number of the first function of a name, in the order of the definitions.
    pub fn function_number(&self, word: u32) -> Option<usize>
        ensures { result ≡ number_in 0 (definitions (file_of self.now).items) word }
    {
        self.numbers.get(&word).copied()
    }

    fn variable_meaning(&self, word: Name) -> Meaning
        ensures { meaning_view result ≡ global_or (file_of self.now).items word.0
            (global_kind (file_of self.now).items word.0) }
    {
        match self.values.global_kind(word) {
            Some(kind) => Meaning::Global(kind),
            None => self.values.static_meaning(word),
        }
    }

    /// What a word of the file is where it stands as a value.
    pub(crate) fn meaning(&self, word: Name) -> Meaning
        ensures { meaning_view result ≡ local_or (file_of self.now).items word.0 None }
    {
        if self.is_function(word) {
            Meaning::Function
        } else {
            self.variable_meaning(word)
        }
    }

    fn value_called(&self, word: Name) -> Called<'_>
        ensures { called_view result ≡ seen (file_of self.now).items (value_or_none (file_of self.now).items word.0) }
    {
        if self.values.global_kind(word).is_some() || self.values.is_own_static(word) {
            Called::Value
        } else {
            Called::Nothing
        }
    }

    fn row_called(&self, word: Name) -> Called<'_>
        ensures { called_view result ≡ seen (file_of self.now).items (row_or (file_of self.now).items word.0
            (row_in (file_of self.now).rows word.0)) }
    {
        match self.calls.get(&word.0) {
            Some(call) => Called::Row(call.row, call.wants.as_slice()),
            None => self.value_called(word),
        }
    }

    /// What a word of the file is where it is called.
    pub(crate) fn called(&self, word: Name) -> Called<'_>
        ensures { called_view result ≡ seen (file_of self.now).items (file_callee (file_of self.now) word.0) }
    {
        match self.signatures.get(&word.0) {
            Some(signature) => Called::Defined(signature),
            None => self.row_called(word),
        }
    }
}

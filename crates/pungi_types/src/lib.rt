//! Kinds of values, and the rules that a function must keep to be judged.
#![tactic(auto)]

mod argument;
mod call;
mod call_wants;
mod decl;
mod expr;
mod finding;
mod findings;
mod formats;
mod kind;
mod local;
mod lookup;
mod made;
mod met;
pub mod operator;
mod standing;
mod tail;
mod types;
pub mod wants;
mod words;

pub use argument::{
    argument_form, is_local_address, is_module_address, is_place, names_type_object, passed_address,
};
pub use call::{call_kind, callee_wants, special_called};
pub use call_wants::CallWants;
pub use decl::{
    check_switched, condition, declared_kind, initial, note_declared, param_kind, return_value,
};
pub use expr::check_expr;
pub use finding::Finding;
pub use findings::{note, note_used, operand};
pub use formats::{expr_pos, format_at};
pub use kind::ValueKind;
pub use local::Local;
pub use lookup::Lookup;
pub use made::{made_kind, struct_only};
pub use operator::{Prefix, is_object, is_void};
pub use standing::Standing;
pub use tail::{is_no_function, is_plain};
pub use types::{
    Core, Typedef, is_listed_type, listed_kind, not_void, words_kind, written_core, written_tag,
};
pub use wants::{ArgumentForm, Want, Wants};
pub use words::{is_built_in_static, is_kept, keep};

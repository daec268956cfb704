//! The rows of the Python/C API: what each call takes, which references it takes over, and what it returns; and the
//! terms under which functions are judged.
#![tactic(auto)]

mod answer;
mod boxed_signature;
mod call_answer;
mod file_terms;
pub mod manual;
mod own_effect;
mod param;
mod profile;
mod row;
pub mod row_words;
mod signature;
mod special;
mod table;
mod take;
mod terms;

pub use answer::Answer;
pub use boxed_signature::BoxedSignature;
pub use call_answer::CallAnswer;
pub use file_terms::FileTerms;
pub use own_effect::OwnEffect;
pub use param::Param;
pub use profile::Profile;
pub use row::{Form, Row};
pub use signature::{
    Signature, build_signature, made_signature, next_params, output_signature, parse_params,
    signature_of, signatures_are_well_formed, simple_signature, unit_param, unpack_params,
};
pub use special::Special;
pub use table::Table;
pub use take::Take;
pub use terms::{Convention, Terms};

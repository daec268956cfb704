use pungi_api::Signature;
use pungi_base::Value;

/// A call of the API: its signature, and the values of its arguments in order. Arguments of which the signature says
/// all have no values.
#[derive(Clone, Copy)]
pub struct ApiCall<'a> {
    pub signature: &'a Signature,
    pub args: &'a [Value],
}

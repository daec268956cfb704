ghost use Rattle.std.specs.Prelude.{◌≡◌, IfOk};

use crate::Signature;
use pungi_base::Memory;
use std::alloc::Global;
use std::marker::Model;

/// A signature in memory of its own, so that what holds it stays small. Contracts see the signature.
#[derive(Drop)]
pub struct BoxedSignature {
    signature: Box<Signature>,
}

impl Model for BoxedSignature {
    ghost use Rattle.pungi_api.specs.declared.signature.Signature.{Signature};

    ghost Value = { Signature };

    ghost view = { λ b. b.signature.value };
}

impl BoxedSignature {
    pub fn new(alloc: Global, signature: Signature) -> Result<BoxedSignature, Memory>
        ensures { IfOk result (λ b. b ≡ signature) }
    {
        let signature = Box::new(alloc, signature)?;
        Ok(BoxedSignature { signature })
    }

    /// The signature, lent.
    pub fn get(&self) -> &Signature
        ensures { result.now ≡ self.now }
    {
        &self.signature
    }

    /// The same signature, once more.
    pub fn copy(&self, alloc: Global) -> Result<BoxedSignature, Memory>
        ensures { IfOk result (λ b. b ≡ self.now) }
    {
        BoxedSignature::new(alloc, self.signature.copy(alloc)?)
    }
}

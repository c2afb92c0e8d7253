//! Valid paths.
ghost use Rattle.std.specs.Prelude.{◌≡◌};
ghost use Rattle.x509_path.specs.Obligations.{issuer_key};
ghost use Rattle.x509_path.specs.Paths.{IsLast, KeepsRules};

use crate::certificate::PathCertificate;
use crate::inputs::Inputs;
use crate::obligation::issuer_key;
use spki::SubjectPublicKeyInfoRef;

/// A valid path: it keeps all rules, and the caller has said of each signature that it verifies. Only
/// [`IfSigned::with_verdicts`](crate::IfSigned::with_verdicts) makes one. It has the outputs of
/// RFC 5280, 6.1.6, but for the policies.
#[derive(Clone, Copy, Drop)]
pub struct ValidPath<'r, 'a> {
    pub(crate) inputs: &'r Inputs<'a>,
    pub(crate) path: &'r [PathCertificate<'a>],
    ghost keeps: { KeepsRules inputs.now path.now },
}

impl<'r, 'a> ValidPath<'r, 'a> {
    /// The inputs with which the path is valid.
    pub fn inputs(&self) -> &'r Inputs<'a>
        ensures { result.now ≡ self.now.inputs.now }
    {
        self.inputs
    }

    /// The certificates, from the one that the trust anchor issued to the one to be validated.
    pub fn path(&self) -> &'r [PathCertificate<'a>]
        ensures { result.now ≡ self.now.path.now }
    {
        self.path
    }

    /// The certificate to be validated: the last one.
    pub fn certificate(&self) -> &'r PathCertificate<'a>
        ensures { IsLast result.now self.now.path.now }
    {
        &self.path[self.path.len() - 1]
    }

    /// The key of that certificate, with its algorithm and parameters: the working_public_key at the
    /// end. Parameters that it lacks are not inherited.
    pub fn key(&self) -> &'r SubjectPublicKeyInfoRef<'a>
        ensures { result.now ≡ issuer_key self.now.inputs.now self.now.path.now }
    {
        issuer_key(self.inputs, self.path)
    }
}

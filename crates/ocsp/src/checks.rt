//! Checks of a response that decoding does not make.
ghost use Rattle.std.specs.Prelude.{◌↔◌, IsTrue};
ghost use Rattle.ocsp.specs.Responses.{MatchesResponseStatus};

use crate::asn1::{OcspResponse, OcspResponseStatus};

impl OcspResponse<'_> {
    /// Whether the field `response_bytes` is present exactly when it should be. It should be
    /// present if the status is `successful`, and absent if the status is another one (RFC 6960,
    /// 4.2.1). Decoding does not check this.
    pub fn has_response_of_status(&self) -> bool
        ensures { IsTrue result ↔ MatchesResponseStatus self.now }
    {
        match self.response_status.item() {
            OcspResponseStatus::Successful => self.response_bytes.0.is_some(),
            OcspResponseStatus::MalformedRequest => self.response_bytes.0.is_none(),
            OcspResponseStatus::InternalError => self.response_bytes.0.is_none(),
            OcspResponseStatus::TryLater => self.response_bytes.0.is_none(),
            OcspResponseStatus::SigRequired => self.response_bytes.0.is_none(),
            OcspResponseStatus::Unauthorized => self.response_bytes.0.is_none(),
        }
    }
}

//! Whether extensions are critical (RFC 5280, 4.2).
ghost use Rattle.std.specs.Prelude.{◌↔◌, IsTrue};
ghost use Rattle.x509.specs.Criticality.{IsCritical};

use crate::asn1::Extension;
use der_asn1::DefaultValue;

impl Extension<'_> {
    /// Whether the extension is critical.
    pub fn is_critical(&self) -> bool
        ensures { IsTrue result ↔ IsCritical self.now }
    {
        !self.critical.0.has_default()
    }
}

//! Whether an extension is one of a group of types, by its identifier.
ghost use Rattle.std.specs.Prelude.{◌↔◌, IsTrue};
ghost use Rattle.x509_lint.specs.ExtensionKinds.{IsAltNames, IsPoints};

use crate::checks::identifiers::is;
use x509::values::{
    id_ce_c_rl_distribution_points, id_ce_freshest_crl, id_ce_issuer_alt_name,
    id_ce_subject_alt_name,
};

// Whether the identifier is that of a list of alternative names.
pub(crate) fn is_alt_names(id: &[u8]) -> bool
    ensures { IsTrue result ↔ IsAltNames id.now }
{
    is(id, &id_ce_subject_alt_name()) || is(id, &id_ce_issuer_alt_name())
}

// Whether the identifier is that of a list of distribution points.
pub(crate) fn is_points(id: &[u8]) -> bool
    ensures { IsTrue result ↔ IsPoints id.now }
{
    is(id, &id_ce_c_rl_distribution_points()) || is(id, &id_ce_freshest_crl())
}

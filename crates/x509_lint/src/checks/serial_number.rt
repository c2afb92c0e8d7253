//! The check of the serial number of a certificate (RFC 5280, 4.1.2.2).
ghost use Rattle.std.specs.Prelude.{◌↔◌, IsTrue};
ghost use Rattle.x509_lint.specs.SerialNumbers.{IsPositive, IsSerialNumber};

use crate::part_test::has_minus_sign;
use x509::TbsCertificate;

/// Whether the serial number is positive and has at most 20 octets (RFC 5280, 4.1.2.2).
/// Decoding does not check this.
pub fn has_valid_serial_number(signed: &TbsCertificate<'_>) -> bool
    ensures { IsTrue result ↔ IsSerialNumber signed.now.serial_number.octets.now }
{
    let octets = signed.serial_number.octets();
    is_positive(octets) && octets.len() <= 20
}

// Whether the contents of an INTEGER are those of a positive number.
fn is_positive(octets: &[u8]) -> bool
    ensures { IsTrue result ↔ IsPositive octets.now }
{
    !has_minus_sign(octets) && octets != [0].as_slice()
}

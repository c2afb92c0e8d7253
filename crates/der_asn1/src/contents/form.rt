//! The form of a header: primitive or constructed.
ghost use Rattle.std.specs.Prelude.{IfErr, IfOk};
ghost use Rattle.der.specs.Prelude.{head_of};
ghost use Rattle.der_asn1.specs.HeaderForm.{HasForm, RefusesForm};

use der::{Error, Header, Length, Reader, Tag};

/// Checks that the header before the reader's position has the form of `tag`: constructed if the
/// tag is, and otherwise primitive (X.690 8.1.2.5). Under the Basic Encoding Rules an OCTET STRING
/// in segments has a constructed header (X.690 8.7.3).
///
/// # Errors
///
/// `Noncanonical` with the header's tag, at the last octet of the header, if the header has the
/// other form.
#[inline(always)]
pub(crate) fn check_form<R: Reader>(reader: &R, header: &Header, tag: Tag) -> Result<(), Error>
    ensures formed { IfOk result (λ _. HasForm tag (head_of header.now)) }
    ensures refused { IfErr result (λ e. RefusesForm tag (head_of header.now)
        (R.state reader.now) e (R.state reader.now)) }
{
    if header.is_constructed() == tag.is_constructed() {
        return Ok(());
    }
    let at = reader.position().saturating_sub(Length::ONE);
    Err(header.tag().non_canonical_error().at(at))
}

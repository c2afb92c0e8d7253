//! Owned byte strings from the contents of an element. If the element is constructed, its contents
//! are segments (X.690 8.7.3), which are joined.
ghost use Rattle.std.specs.Prelude.{◌≡◌, ◌⊎◌, ℕ, List, true, false, IfOk, IfErr, IsOk, IsErrAnd};
ghost use Rattle.der_base.specs.Error.{error_of_kind};
ghost use Rattle.der_base.specs.declared.error.ErrorKind.TheVariants.{OutOfMemory as NoMemory};
ghost use Rattle.der_core.specs.Header.{head_of};
ghost use Rattle.der_core.specs.ReaderState.{rest_of, Same};
ghost use Rattle.der.specs.BytesOwned.{owned_octets};
ghost use Rattle.der.specs.Joined.{Joined};
ghost use Rattle.der.specs.Joining.{levels_left};
ghost use Rattle.der.specs.Parts.{HasSegments, ReadsParts, RefusesParts};

use super::der::read_owned;
use crate::bytes::BytesOwned;
use crate::length::indefinite::read_constructed_vec;
use der_base::{Error, Length, Tag};
use der_core::{Header, Reader};
use std::alloc::Global;

impl BytesOwned {
    /// Decodes the contents after `header` into an owned byte string. If `header` is primitive,
    /// copies the contents. If `header` is constructed and the reader's rules are the Basic
    /// Encoding Rules, all octets up to the reader's end must be segments: elements with the tag
    /// `inner_tag` (X.690 8.7.3). The contents of the segments are joined. A segment may itself
    /// consist of segments.
    ///
    /// # Errors
    ///
    /// - After a primitive header, the errors of [`Reader::read_vec`].
    /// - After a constructed header, under the Basic Encoding Rules, the errors of
    ///   [`read_constructed_vec`].
    /// - After a constructed header, under the Distinguished Encoding Rules, `Noncanonical` with
    ///   the header's tag, at the last octet of the header; the reader is unchanged.
    pub fn decode_value_parts<R: Reader>(
        alloc: Global,
        reader: &mut R,
        header: Header,
        inner_tag: Tag,
    ) -> Result<Self, Error>
        ensures same { Same (R.state reader.old) (R.state reader.new) }
        ensures ok { IfOk result (λ b. ReadsParts inner_tag (head_of header) (R.state reader.old)
            (owned_octets b) (R.state reader.new)) }
        ensures complete { (out : List ℕ) → R.reliable ≡ true
            → (R.state reader.old).failed ≡ false
            → HasSegments (head_of header) (R.state reader.old).rules
            → Joined inner_tag (levels_left (R.state reader.old)) (rest_of (R.state reader.old)) out
            → IsOk result ⊎ IsErrAnd result (λ e. e ≡ error_of_kind NoMemory) }
        ensures exact { R.reliable ≡ true
            → IfErr result (λ e. RefusesParts inner_tag (head_of header) (R.state reader.old) e
            (R.state reader.new)) }
    {
        if !header.is_constructed() {
            return read_owned(alloc, reader, header.length());
        }
        if reader.encoding_rules().is_ber() {
            let octets = read_constructed_vec(alloc, reader, header.length(), inner_tag)?;
            return BytesOwned::from_vec(octets);
        }
        let at = reader.position().saturating_sub(Length::ONE);
        Err(header.tag().non_canonical_error().at(at))
    }
}

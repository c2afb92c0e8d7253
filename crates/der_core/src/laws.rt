//! Laws that follow from the contracts. Each function does nothing; its contract is the law, and
//! nothing else uses these functions.
ghost use Rattle.std.specs.Prelude.{◌^◌, ◌<◌, ◌≡◌, ℕ, List, [], ◌++◌, length};
ghost use Rattle.der_base.specs.ScanGrammar.{BodyFault};
ghost use Rattle.der_base.specs.HeaderGrammar.{header_octets, IdentifierNext, TagNext, LengthNext, LengthFault, HeaderFault};
ghost use Rattle.der_base.specs.Length.{length_octets, number};
ghost use Rattle.der_base.specs.Tag.{label, tag_octets, IdentifierFault};
ghost use Rattle.der_base.specs.declared.error.ErrorKind.{ErrorKind};
ghost use Rattle.der_base.specs.declared.encoding_rules.EncodingRules.TheVariants.{Der};
ghost use Rattle.der_core.specs.Decode.{Accepts};
ghost use Rattle.der_core.specs.Element.{ElementNext};
ghost use Rattle.der_core.specs.DerOrd.{NoElementBeginsAnother, PaddingNeverDecides};
ghost use Rattle.der_core.specs.Encode.{element_octets};
ghost use Rattle.der_core.specs.Header.{head_of, HeaderNext};
ghost use Rattle.der_core.specs.Lawful.{IsDefinite, IsDefiniteHeader, PassesEncodings, ReadsEncodings, ReadsExactly, ReadsWholeEncodings, ReadsWritten};

use crate::decode::Lawful;
use std::marker::PhantomData;

/// Does nothing; the contract states that if the next octets of a reader are an identifier, a tag,
/// a length or a header, decoding that value succeeds and returns it. The reader must be reliable
/// (see [`Reader`](crate::Reader)) and must not have failed.
fn next_values_are_decoded()
    ensures identifiers { Accepts IdentifierNext IdentifierFault }
    ensures tags { Accepts TagNext IdentifierFault }
    ensures lengths { (wrong : ErrorKind) → Accepts LengthNext (LengthFault BodyFault wrong) }
    ensures headers { Accepts HeaderNext (HeaderFault BodyFault) }
{}

/// Does nothing; the contract states that, under DER, tags, lengths, headers and `PhantomData`
/// (whose encoding is empty) are read from exactly their encodings. The values meant here are tags
/// with numbers below 2^32, definite lengths, and headers with definite lengths. For every list of
/// at most 4294967295 octets:
///
/// - The octets begin with a value exactly if they begin with the encoding of that value.
/// - The octets are entirely one value exactly if they are the encoding of that value.
///
/// A reader that has decoded a value has consumed the encoding of that value. An encoding is read
/// back as the same value, whatever follows it.
fn grammars_read_encodings<T>()
    ensures tags { ReadsExactly TagNext (λ t. (label t).number < 2 ^ 32) tag_octets }
    ensures lengths { ReadsExactly LengthNext IsDefinite (λ l. length_octets (number l)) }
    ensures headers { ReadsExactly HeaderNext IsDefiniteHeader
        (λ h. header_octets (head_of h).tag (number (head_of h).length)) }
    ensures nothing { ReadsExactly (λ (v : PhantomData T) _ _ m. m ≡ 0) (λ _. Unit {0})
        (λ _. []) }
{}

/// Does nothing; the contract states that, under DER, elements of a [`Lawful`] type are read from
/// exactly the encodings of valid values. For every list of at most 4294967295 octets:
///
/// - The octets begin with an element of the type exactly if they begin with the encoding of a
///   valid value.
/// - The octets are entirely one element of the type exactly if they are the encoding of a valid
///   value.
///
/// A reader that has decoded an element of the type has consumed the encoding of the value that it
/// returned. The encoding of a valid value is read back as a value with the same contents, whatever
/// octets follow it.
fn lawful_types_read_encodings<T: Lawful>()
    ensures front { ReadsEncodings (ElementNext T.tag_is T.takes) T.valid
        (λ v. element_octets T.tag_is (T.contents v)) }
    ensures whole { ReadsWholeEncodings (ElementNext T.tag_is T.takes) T.valid
        (λ v. element_octets T.tag_is (T.contents v)) }
    ensures passed { PassesEncodings (ElementNext T.tag_is T.takes) T.valid
        (λ v. element_octets T.tag_is (T.contents v)) }
    ensures written { ReadsWritten T.tag_is T.takes T.valid T.contents }
{}

/// Does nothing; the contract states that a value of a [`Lawful`] type is valid, and that, under
/// DER, octets that begin with its encoding begin with this value, if there are at most 4294967295
/// of them.
fn lawful_values_are_read_back<T: Lawful>(value: &T)
    ensures valid { T.valid value.now }
    ensures read { (more : List ℕ)
        → length (element_octets T.tag_is (T.contents value.now) ++ more) < 2 ^ 32
        → ElementNext T.tag_is T.takes value.now Der
        (element_octets T.tag_is (T.contents value.now) ++ more)
        (length (element_octets T.tag_is (T.contents value.now))) }
{
    value.is_value()
}

/// Does nothing; the contract states that no encoded element is a proper prefix of another: two
/// different encodings differ at a position where both have an octet. To compare two encodings,
/// X.690 11.6 pads the shorter with zero octets. The padding never decides the comparison.
fn padding_never_decides()
    ensures apart { NoElementBeginsAnother }
    ensures padded { PaddingNeverDecides }
{}

//! The names that the Rust files import from other crates.

use asn1_syntax::is_line_of;

/// The names that the written files may import from the crate `der`, one on each line.
pub const DER: &str = "Decode
DecodeValue
Encode
EncodeValue
Error
FieldsCall
FixedTag
FromFields
HasFields
Header
IsValue
Lawful
Length
Lends
ReadValue
Reader
Sequence
SliceReader
Tag
Writer
WrittenValue
decode_fields
decode_sequence
decode_wrapped
field_refs";

/// The names that the written files may import from the crate `der_asn1`, one on each line.
pub const DER_ASN1: &str = "Additions
AnyRef
Application
AsSet
BitStringOf
BitStringRef
BmpStringRef
BooleanRef
BorrowedItem
Choice
DecodeChoice
DecodeItem
DefaultEmpty
DefaultOf
DefaultTrue
DefaultU64
DefaultValue
Defaulted
DefaultedTo
Described
DescribedChoice
DescribedField
Either
Enumerated
EnumeratedOf
EnumeratedRef
Enumeration
Explicit
ExplicitAny
GeneralStringRef
GeneralizedTime
Ia5StringRef
Implicit
IntRef
IntegerIn
IntegerOf
Item
KnownTags
LawfulItem
NamedBitsRef
NamedInteger
Null
NumericStringRef
ObjectIdentifierRef
OctetStringOf
OctetStringRef
Optional
PrintableStringRef
Private
RealRef
RelativeOidRef
SequenceOf
SequenceRef
SetOf
TeletexStringRef
UnknownElement
UtcTime
Utf8StringRef
VideotexStringRef
VisibleStringRef
WithDefault
WrittenItem
decode_choice
is_among";

// Names that need no import, or that clauses import.
const OTHERS: &str = "Bool
Clone
Copy
Debug
Drop
Eq
Err
First
Global
Items
List
None
Ok
Option
PartialEq
Result
Second
Self
Set
Some
String
Vec";

/// Whether the written files may use this name for something that is not a type of the module. No
/// type of the module can then have the name.
pub fn is_used(name: &str) -> bool {
    is_line_of(DER, name) || is_line_of(DER_ASN1, name) || is_line_of(OTHERS, name)
}

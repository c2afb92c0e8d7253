//! Reserved words.

use crate::lines::is_line_of;
use crate::octet_class::is_lower;

const RESERVED: &str = "ABSENT
ALL
APPLICATION
AUTOMATIC
BEGIN
BIT
BY
CHARACTER
CHOICE
CLASS
COMPONENT
COMPONENTS
CONSTRAINED
CONTAINING
DEFAULT
DEFINITIONS
EMBEDDED
ENCODED
END
ENUMERATED
EXCEPT
EXPLICIT
EXPORTS
EXTENSIBILITY
FALSE
FROM
IDENTIFIER
IMPLICIT
IMPLIED
IMPORTS
INCLUDES
INSTANCE
INTEGER
INTERSECTION
MAX
MIN
OBJECT
OCTET
OF
OPTIONAL
PATTERN
PDV
PRESENT
PRIVATE
SEQUENCE
SET
SIZE
STRING
SYNTAX
TAGS
TRUE
UNION
UNIQUE
UNIVERSAL
WITH
ANY
DEFINED";

/// Whether the notation reserves a word (X.680, 12.38). The result is false for the built-in types
/// that [`SimpleType::of`](crate::SimpleType::of) knows, such as `BOOLEAN`.
pub fn is_reserved(word: &str) -> bool {
    match word.as_bytes() {
        [_, second, ..] if is_lower(*second) => false,
        _ => is_line_of(RESERVED, word),
    }
}

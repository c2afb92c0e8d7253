//! Tells whether octets may be a private key, also if they are damaged.

use crate::kind::Kind;
use ber::read_element;

/// The least number of contents octets of an element that may be the secret of a private key.
const SECRET: usize = 14;

/// The names of the types of private keys, and of files that may hold one.
const PRIVATE_TYPES: [&str; 7] = [
    "PrivateKeyInfo",
    "EncryptedPrivateKeyInfo",
    "OneAsymmetricKey",
    "RSAPrivateKey",
    "ECPrivateKey",
    "DSAPrivateKey",
    "PFX",
];

/// How many octets the header of a private key may have.
const HEADERS: [usize; 4] = [2, 3, 4, 5];

/// The contents octets of the OBJECT IDENTIFIERs of algorithms of keys, or the first octets if
/// several begin with these: RSA, DSA, Diffie-Hellman and elliptic curves (RFC 3279, RFC 8017), and
/// the algorithms of FIPS 203, 204 and 205. Those of RFC 8410 have octets of one length.
static KEYS: [&[u8]; 9] = [
    &[0x2a, 0x86, 0x48, 0x86, 0xf7, 0x0d, 0x01, 0x01, 0x01],
    &[0x2a, 0x86, 0x48, 0x86, 0xf7, 0x0d, 0x01, 0x01, 0x07],
    &[0x2a, 0x86, 0x48, 0x86, 0xf7, 0x0d, 0x01, 0x01, 0x0a],
    &[0x2a, 0x86, 0x48, 0x86, 0xf7, 0x0d, 0x01, 0x03, 0x01],
    &[0x2a, 0x86, 0x48, 0xce, 0x38, 0x04, 0x01],
    &[0x2a, 0x86, 0x48, 0xce, 0x3d, 0x02, 0x01],
    &[0x2a, 0x86, 0x48, 0xce, 0x3e, 0x02, 0x01],
    &[0x60, 0x86, 0x48, 0x01, 0x65, 0x03, 0x04, 0x03],
    &[0x60, 0x86, 0x48, 0x01, 0x65, 0x03, 0x04, 0x04],
];

impl Kind {
    /// Whether a value of this kind is a private key, or may hold one.
    pub fn is_private(self) -> bool {
        self == Kind::Pfx || is_private_label(self.label())
    }
}

/// Whether a type of this name is that of a private key, or of a file that may hold one.
pub fn is_private_type(name: &str) -> bool {
    for private in PRIVATE_TYPES {
        if name == private {
            return true;
        }
    }
    false
}

/// Whether the label of a PEM block is that of a private key, in ASN.1 or not.
pub fn is_private_label(label: &str) -> bool {
    label.ends_with("PRIVATE KEY") || label.ends_with("PRIVATE KEY BLOCK")
}

/// Whether octets may be private keys (RFC 5958, RFC 8017, RFC 5915, or those of DSA which OpenSSL
/// writes) or PKCS #12 files, or other values and one of these. Octets that differ from a private
/// key in one octet may be one, too: if an octet has another value, if it is missing, and if there
/// is one more. Values of other types that begin with a small number may also be one.
pub fn may_be_private_key(octets: &[u8]) -> bool {
    let contents = longest_contents(octets);
    if matches!(contents, Some(count) if count < SECRET) {
        return false;
    }
    let mut rest = octets;
    for _ in 0..octets.len() {
        if begins_as_key(rest, contents.is_some()) {
            return true;
        }
        let Ok(element) = read_element(rest) else {
            return false;
        };
        rest = element.rest;
    }
    false
}

// The greatest number of contents octets of a primitive element; `None` if the octets are no elements.
fn longest_contents(octets: &[u8]) -> Option<usize> {
    let mut rest = octets;
    let mut longest = 0usize;
    for _ in 0..octets.len() {
        if rest.is_empty() {
            break;
        }
        let Ok(element) = read_element(rest) else {
            return None;
        };
        if element.header.constructed {
            rest = rest.get(element.header.header_len..).unwrap_or(&[]);
        } else {
            longest = longest.max(element.contents.len());
            rest = element.rest;
        }
    }
    if rest.is_empty() { Some(longest) } else { None }
}

// Whether the octets begin as a private key does, but for one octet. `are_elements` says whether they are elements.
fn begins_as_key(octets: &[u8], are_elements: bool) -> bool {
    let header_len = match octets.get(1).copied().unwrap_or(0) {
        0x81 => 3,
        0x82 => 4,
        0x83 => 5,
        _ => 2,
    };
    let inside = octets.get(header_len..).unwrap_or(&[]);
    has_version(inside)
        || has_version_alone(inside, are_elements)
        || has_long_number(inside)
        || has_key_identifier(inside)
        || has_version_elsewhere(octets)
}

// Whether the octets begin with an INTEGER 0, 1 or 3 and the tag of an INTEGER, an OCTET STRING or a SEQUENCE,
// where one of the first three octets has another value, is missing, or is one more.
fn has_version(octets: &[u8]) -> bool {
    match octets {
        [_, 1, 0 | 1 | 3, 2 | 4 | 0x30, ..] => true,
        [2, _, 0 | 1 | 3, 2 | 4 | 0x30, ..] => true,
        [2, 1, _, 2 | 4 | 0x30, ..] => true,
        [1, 0 | 1 | 3, 2 | 4 | 0x30, ..] => true,
        [2, 0 | 1 | 3, 2 | 4 | 0x30, ..] => true,
        [_, 2, 1, 0 | 1 | 3, 2 | 4 | 0x30, ..] => true,
        [2, _, 1, 0 | 1 | 3, 2 | 4 | 0x30, ..] => true,
        [2, 1, _, 0 | 1 | 3, 2 | 4 | 0x30, ..] => true,
        _ => false,
    }
}

// Whether the octets begin with an INTEGER 0, 1 or 3. In a message of LDAP, an element of the class APPLICATION is next.
fn has_version_alone(octets: &[u8], are_elements: bool) -> bool {
    match octets {
        [2, 1, 0 | 1 | 3, 0x40..=0x7f, ..] => !are_elements,
        [2, 1, 0 | 1 | 3, ..] => true,
        _ => false,
    }
}

// Whether an INTEGER with a length in more than one octet begins near the front.
fn has_long_number(octets: &[u8]) -> bool {
    for at in 0..6usize {
        if let [2, 0x81 | 0x82, ..] = octets.get(at..).unwrap_or(&[]) {
            return true;
        }
    }
    false
}

// The version after a header that the first octets do not tell. If a SEQUENCE is directly inside, it is not.
fn has_version_elsewhere(octets: &[u8]) -> bool {
    if matches!(octets, [_, _, 0x30, ..]) {
        return false;
    }
    for header_len in HEADERS {
        let inside = octets.get(header_len..).unwrap_or(&[]);
        if matches!(inside, [2, 1, 0 | 1 | 3, 2 | 4 | 0x30, ..]) {
            return true;
        }
    }
    false
}

// Whether an OBJECT IDENTIFIER of a private key begins where the algorithm of one does.
fn has_key_identifier(octets: &[u8]) -> bool {
    for at in 6..12usize {
        if is_key_identifier(octets.get(at..).unwrap_or(&[])) {
            return true;
        }
    }
    false
}

fn is_key_identifier(octets: &[u8]) -> bool {
    if matches!(octets, [0x2b, 0x65, 0x6e..=0x71, ..]) {
        return true;
    }
    for identifier in KEYS {
        if octets.starts_with(identifier) {
            return true;
        }
    }
    false
}

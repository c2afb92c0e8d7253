//! Reading of the arcs of an OBJECT IDENTIFIER in dotted notation.
ghost use Rattle.std.specs.Prelude.{◌≡◌, ◌+◌, ◌*◌, ◌<◌, ◌≤◌, ◌↔◌, ◌∷◌, [], ◌++◌, ℕ, length, slice_index, IsTrue};
ghost use Rattle.der_asn1.specs.Arcs.{subidentifier_value};

/// An arc of an OBJECT IDENTIFIER that was read from a text. It has the number of the arc, which is
/// `None` for 2^128 or more, and the position in the text just after the digits of the arc.
#[derive(Clone, Copy)]
pub(crate) struct DottedArc {
    pub(crate) number: Option<u128>,
    pub(crate) end: usize,
}

impl DottedArc {
    ghost use Rattle.der_c_values.specs.OidContents.{ReadsArc};

    /// Reads the arc whose digits begin at the index `at` of `text`. Returns `None`:
    ///
    /// - if there are no decimal digits at this index;
    /// - if the digits have a leading zero;
    /// - if the digits are followed neither by a dot nor by the end of `text`.
    pub(crate) fn read(text: &[u8], at: usize) -> Option<Self>
        requires { at ≤ length text.now }
        ensures { ReadsArc text.now at result }
    {
        let mut number = Some(0);
        let mut end = at;
        'digits: while end < text.len() && text[end].is_ascii_digit() {
            number = with_digit(number, text[end] - b'0');
            end += 1;
        }
        if is_dot(text, end) && is_number(text, at, end) {
            Some(DottedArc { number, end })
        } else {
            None
        }
    }
}

// Appends a decimal digit; `None` from 2^128 on.
fn with_digit(number: Option<u128>, digit: u8) -> Option<u128>
    requires { digit < 10 }
    ensures { (n : ℕ) → number ≡ subidentifier_value n
        → result ≡ subidentifier_value (n * 10 + digit) }
{
    number?.checked_mul(10)?.checked_add(digit as u128)
}

// Whether a dot is at a position; the end of the text counts as a dot.
fn is_dot(text: &[u8], at: usize) -> bool
    requires { at ≤ length text.now }
    ensures { IsTrue result ↔ (slice_index (text.now ++ 46 ∷ []) at ≡ 46) }
{
    at == text.len() || text[at] == b'.'
}

// Whether digits between two positions are a number without leading zeros.
fn is_number(text: &[u8], at: usize, end: usize) -> bool
    requires ordered { at ≤ end }
    requires inside { end ≤ length text.now }
    ensures { IsTrue result ↔ ((at < end) × (slice_index text.now at ≡ 48 → end ≤ at + 1)) }
{
    at < end && (text[at] != b'0' || end == at + 1)
}

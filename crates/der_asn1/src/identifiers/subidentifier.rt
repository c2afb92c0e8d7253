//! Subidentifiers of an OBJECT IDENTIFIER, and the arcs that they encode.
ghost use Rattle.std.specs.Prelude.{◌≡◌, ◌<◌, ◌+◌, ◌-◌, ◌*◌, ℕ, true, length};
ghost use Rattle.der_asn1.specs.Forms.{ends_subidentifiers};
ghost use Rattle.der_asn1.specs.Arcs.{subidentifiers, first_arc, second_item, subidentifier_value};
ghost use Rattle.der_asn1.specs.Arcs.{IsFirstNumber};

// The value of the first subidentifier (`None` from 2^128 on), and the octets after it.
pub(crate) fn first_subidentifier(octets: &[u8]) -> (Option<u128>, &[u8])
    requires some { 0 < length octets.now }
    requires grammar { ends_subidentifiers true octets.now ≡ true }
    ensures number { IsFirstNumber (subidentifiers 0 octets.now) result.0
        (subidentifiers 0 result.1.now) }
    ensures grammar { ends_subidentifiers true result.1.now ≡ true }
{
    let mut number = Some(0);
    let mut at = 0;
    'octets: while at < octets.len() {
        let octet = octets[at];
        at += 1;
        number = with_digit(number, octet % 128);
        if octet < 0x80 {
            return (number, &octets[at..]);
        }
    }
    unreachable!()
}

// Appends a digit in base 128; `None` from 2^128 on.
fn with_digit(number: Option<u128>, digit: u8) -> Option<u128>
    requires { digit < 128 }
    ensures { (n : ℕ) → number ≡ subidentifier_value n
        → result ≡ subidentifier_value (n * 128 + digit) }
{
    match number {
        Some(number) if number < 0x200_0000_0000_0000_0000_0000_0000_0000 => {
            Some(number * 128 + digit as u128)
        }
        _ => None,
    }
}

// The first arc, from the value of the first subidentifier.
pub(crate) fn first_arc_of(number: Option<u128>) -> u128
    ensures { (n : ℕ) → number ≡ subidentifier_value n → result ≡ first_arc n }
{
    match number {
        Some(number) if number < 40 => 0,
        Some(number) if number < 80 => 1,
        _ => 2,
    }
}

// The second arc, from the value of the first subidentifier.
pub(crate) fn second_arc_of(number: Option<u128>) -> Option<u128>
    ensures { (n : ℕ) → number ≡ subidentifier_value n → result ≡ second_item n }
{
    match number {
        Some(number) if number < 40 => Some(number),
        Some(number) if number < 80 => Some(number - 40),
        Some(number) => Some(number - 80),
        None => None,
    }
}

//! Making the contents octets of an OBJECT IDENTIFIER from its arcs.
ghost use Rattle.std.specs.Prelude.{◌≡◌, ◌↔◌, ◌+◌, ◌*◌, ◌<◌, ◌≤◌, ℕ, List, [], ◌∷◌, ◌++◌, true, false, take, length, IsTrue};
ghost use Rattle.der_core.specs.Encode.{high_digits};
ghost use Rattle.der_asn1.specs.Arcs.{subidentifier_octets, subidentifier_value};

// how many octets these contents have at most
const MOST: usize = 256;

/// The arc that is added next: the first, the second, or a later one. The field of `Second` is the
/// number of the first arc.
#[derive(Clone, Copy)]
pub(crate) enum NextArc {
    First,
    Second(u8),
    Other,
}

/// The contents octets of an OBJECT IDENTIFIER, to which arcs are added one by one. There is room
/// for 256 octets.
#[derive(Drop)]
pub(crate) struct OidContents {
    octets: [u8; 256],
    count: usize,
    // whether the subidentifiers of all arcs are there
    fits: bool,
    next: NextArc,
    ghost inside: { count ≤ 256 },
}

impl OidContents {
    ghost use Rattle.der_c_values.specs.OidContents.{held_octets, Holds, Pushes, AppendsNumber};
    ghost use Rattle.der_c_values.specs.OidFromText.{AreOidArcs};

    /// The contents octets before the first arc is added.
    pub(crate) fn new() -> Self
        ensures { Holds result [] }
    {
        OidContents {
            octets: [0; 256],
            count: 0,
            fits: true,
            next: NextArc::First,
        }
    }

    /// The contents octets, as a slice.
    pub(crate) fn as_slice(&self) -> &[u8]
        ensures { result.now ≡ held_octets self.now }
    {
        &self.octets[..self.count]
    }

    /// Whether enough arcs were added: an OBJECT IDENTIFIER has two or more.
    pub(crate) fn is_whole(&self) -> bool
        ensures { (arcs : List ℕ) → Holds self.now arcs → IsTrue result ↔ AreOidArcs arcs }
    {
        matches!(self.next, NextArc::Other)
    }

    /// Whether all added arcs have room. Each subidentifier must fit in 128 bits, and all together
    /// must need at most 256 octets.
    pub(crate) fn fits(&self) -> bool
        ensures { result ≡ self.now.fits }
    {
        self.fits
    }

    /// Adds the arc with the number `arc`. `None` stands for a number of 2^128 or more. Returns
    /// false if no OBJECT IDENTIFIER begins with the arcs so far and this arc (X.690 8.19.4).
    pub(crate) fn push(&mut self, arc: Option<u128>) -> bool
        ensures { (arcs : List ℕ) (n : ℕ) → Holds self.old arcs → arc ≡ subidentifier_value n
            → Pushes arcs n result self.new }
    {
        match self.next {
            NextArc::First => match arc {
                Some(first) if first <= 2 => {
                    self.next = NextArc::Second(first as u8);
                    true
                }
                _ => false,
            },
            NextArc::Second(first) => {
                if !may_follow(first, arc) {
                    return false;
                }
                self.next = NextArc::Other;
                self.append(first_subidentifier(first, arc));
                true
            }
            NextArc::Other => {
                self.append(arc);
                true
            }
        }
    }

    // Appends a subidentifier (X.690 8.19.2), if it fits.
    fn append(&mut self, number: Option<u128>)
        ensures { (n : ℕ) → number ≡ subidentifier_value n → AppendsNumber n self.old self.new }
    {
        match number {
            Some(number) => self.append_small(number),
            None => self.fits = false,
        }
    }

    // Appends a subidentifier below 2^128, if it fits.
    fn append_small(&mut self, number: u128)
        ensures { AppendsNumber number self.old self.new }
    {
        if self.fits {
            let is_there = self.append_digits(number);
            self.fits = is_there;
        }
    }

    // Appends a subidentifier below 2^128, if there is space.
    fn append_digits(&mut self, number: u128) -> bool
        ensures same { (self.new.fits ≡ self.old.fits) × (self.new.next ≡ self.old.next) }
        ensures there { result ≡ true
            → held_octets self.new ≡ held_octets self.old ++ subidentifier_octets number }
        ensures full { result ≡ false
            → 256 < length (held_octets self.old) + length (subidentifier_octets number) }
    {
        self.append_high(number / 128) && self.append_octet((number % 128) as u8)
    }

    // Appends the digits of a number in base 128, with bit 8 set on each, if there is space.
    fn append_high(&mut self, number: u128) -> bool
        ensures same { (self.new.fits ≡ self.old.fits) × (self.new.next ≡ self.old.next) }
        ensures there { result ≡ true
            → held_octets self.new ≡ held_octets self.old ++ high_digits number }
        ensures full { result ≡ false
            → 256 < length (held_octets self.old) + length (high_digits number) }
    {
        if number == 0 {
            return true;
        }
        self.append_high(number / 128) && self.append_octet(128 + (number % 128) as u8)
    }

    // Appends an octet, if there is space.
    fn append_octet(&mut self, octet: u8) -> bool
        ensures same { (self.new.fits ≡ self.old.fits) × (self.new.next ≡ self.old.next) }
        ensures there { result ≡ true
            → held_octets self.new ≡ held_octets self.old ++ octet ∷ [] }
        ensures full { result ≡ false → 256 ≤ length (held_octets self.old) }
    {
        if self.count >= MOST {
            return false;
        }
        self.octets[self.count] = octet;
        self.count += 1;
        true
    }
}

// Whether this arc may follow the first one (X.690 8.19.4).
fn may_follow(first: u8, second: Option<u128>) -> bool
    ensures { (n : ℕ) → second ≡ subidentifier_value n → IsTrue result ↔ (first < 2 → n < 40) }
{
    first >= 2 || matches!(second, Some(number) if number < 40)
}

// The subidentifier of the first two arcs (X.690 8.19.4); `None` from 2^128 on.
fn first_subidentifier(first: u8, second: Option<u128>) -> Option<u128>
    ensures { (n : ℕ) → second ≡ subidentifier_value n
        → result ≡ subidentifier_value (40 * first + n) }
{
    second?.checked_add(40 * first as u128)
}

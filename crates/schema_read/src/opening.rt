//! Where contents of elements begin and end.
ghost use Rattle.std.specs.Prelude.{◌≡◌, ◌-◌, false, ◌+◌, ◌↔◌, ◌<◌, ◌≤◌, ℕ, IsTrue, length, IfSome, IfNone};
ghost use Rattle.ber.specs.Header.{IsNext};
ghost use Rattle.ber.specs.declared.length.Length.TheVariants.{Definite};
ghost use Rattle.schema_read.specs.Opened.{IsOpened, IsEnded};

use crate::opened::Opened;
use crate::place::Place;
use ber::{Header, Length, is_end_of_contents};

impl<'a> Opened<'a> {
    /// These contents after a part of them was read. `rest` is the part that is still to be read.
    #[inline(always)]
    pub fn at(self, rest: &'a [u8]) -> Self
        requires { length rest.now ≤ length self.inside.octets.now }
        ensures octets { result.inside.octets.now ≡ rest.now }
        ensures end { result.inside.end ≡ self.entry.inside.end }
        ensures marked { result.marked ≡ self.entry.marked }
        ensures beyond { result.beyond.now ≡ self.entry.beyond.now }
    {
        Opened {
            inside: self.inside.at(rest),
            start: self.start,
            marked: self.marked,
            beyond: self.beyond,
        }
    }

    /// Whether the contents are read to their end: no octets are left, or end-of-contents octets
    /// come next.
    #[inline(always)]
    pub fn is_ended(self) -> bool
        ensures { IsTrue result ↔ IsEnded self.entry.marked self.entry.inside.octets.now }
    {
        self.inside.octets.is_empty() || self.marked && is_end_of_contents(self.inside.octets)
    }
}

/// The contents that follow `header`, which is at the front of `place`. `None` if the octets of
/// `place` end before the end of the contents.
pub(crate) fn after_header<'a>(header: Header, place: Place<'a>) -> Option<Opened<'a>>
    requires { IsNext header place.octets.now }
    ensures some { IfSome result (λ o. IsOpened header place.entry.octets.now o) }
    ensures shorter { IfSome result
        (λ o. length o.inside.octets.now + length o.beyond.now + 2 ≤ length place.entry.octets.now) }
    ensures form { IfSome result (λ o. header.constructed ≡ false → o.marked ≡ false) }
    ensures end { IfSome result (λ o. o.inside.end ≤ place.entry.end) }
    ensures place { IfSome result (λ o. (place.entry.end - length place.entry.octets.now) + header.header_len
        + length o.inside.octets.now ≤ o.inside.end) }
    ensures none { IfNone result ((n : ℕ) × (header.length ≡ Definite n)
        × (length place.entry.octets.now < header.header_len + n)) }
{
    let after = &place.octets[header.header_len..];
    match header.length {
        Length::Definite(length) => {
            let length = length as usize;
            if after.len() < length {
                return None;
            }
            let beyond = &after[length..];
            Some(Opened {
                inside: Place {
                    octets: &after[..length],
                    end: place.end - beyond.len(),
                },
                start: place.offset(),
                marked: false,
                beyond,
            })
        }
        Length::Indefinite => Some(Opened {
            inside: place.at(after),
            start: place.offset(),
            marked: true,
            beyond: &[],
        }),
    }
}

/// The octets after an element. Its `header` is at the front of `place`. Empty if the octets of
/// `place` end within the element, or if the length of the element is indefinite.
pub(crate) fn skipped<'a>(header: Header, place: Place<'a>) -> &'a [u8]
    requires { IsNext header place.octets.now }
    ensures { length result.now < length place.entry.octets.now }
{
    match after_header(header, place) {
        Some(opened) => opened.beyond,
        None => &[],
    }
}

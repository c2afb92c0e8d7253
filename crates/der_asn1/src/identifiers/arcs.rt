//! The arcs of an OBJECT IDENTIFIER.
ghost use Rattle.std.specs.Prelude.{◌≡◌, true};
ghost use Rattle.der_asn1.specs.Forms.{ends_subidentifiers};

use crate::contents::checked::Checked;
use crate::identifiers::object_identifier::ObjectIdentifierGrammar;
use crate::identifiers::subidentifier::{first_arc_of, first_subidentifier, second_arc_of};
use std::alloc::AllocError;

// Which arc is next.
#[derive(Clone, Copy, Debug)]
enum Stage {
    First,
    Second,
    Other,
}

/// An iterator over the arcs of an OBJECT IDENTIFIER. The arcs are the numbers that make up the
/// OBJECT IDENTIFIER, such as 1, 2 and 840 of `1.2.840`.
#[derive(Debug, Drop)]
pub struct Arcs<'a> {
    octets: &'a [u8],
    stage: Stage,
    ghost grammar: { ends_subidentifiers true octets.now ≡ true },
}

/// A clone has the same arcs left; cloning does not allocate.
impl<'a> Clone for Arcs<'a> {
    ghost use Rattle.std.specs.Prelude.{⊤};

    ghost is_clone = { λ p q. (q.octets.now ≡ p.octets.now) × (q.stage ≡ p.stage) };

    ghost is_infallible = { λ _. ⊤ };

    fn clone(&self) -> Result<Self, AllocError> {
        Ok(Arcs {
            octets: self.octets,
            stage: self.stage,
        })
    }
}

impl<'a> Checked<'a, ObjectIdentifierGrammar> {
    ghost use Rattle.der_asn1.specs.Arcs.{arcs_left, oid_arcs, oid_octets};

    /// An iterator over all arcs of the OBJECT IDENTIFIER, from the first.
    pub fn arcs(&self) -> Arcs<'a>
        ensures arcs { arcs_left result ≡ oid_arcs self.now.octets.now }
        ensures octets { oid_octets (arcs_left result) ≡ self.now.octets.now }
    {
        Arcs::new(self.octets())
    }
}

impl<'a> Arcs<'a> {
    ghost use Rattle.der_asn1.specs.Forms.{oid_form};
    ghost use Rattle.der_asn1.specs.Arcs.{arcs_left, oid_arcs, oid_octets};

    // An iterator over the arcs of these contents.
    fn new(octets: &'a [u8]) -> Self
        requires { oid_form octets.now ≡ true }
        ensures arcs { arcs_left result ≡ oid_arcs octets.now }
        ensures octets { oid_octets (arcs_left result) ≡ octets.now }
    {
        Arcs {
            octets,
            stage: Stage::First,
        }
    }
}

/// `next` returns one arc after the other: `Some(Some(arc))`, or `Some(None)` if the subidentifier
/// of the arc (X.690 8.19.2) needs more than 128 bits. The iteration continues after `Some(None)`.
///
/// The first two arcs have one subidentifier in common: 40 times the first arc, plus the second
/// arc. The subidentifier of each other arc is the arc itself.
impl<'a> Iterator for Arcs<'a> {
    ghost use Rattle.std.specs.Iterator.{YieldsFirst, item_count};
    ghost use Rattle.der_asn1.specs.Arcs.{arc_items};

    type Item = Option<u128>;

    ghost next_gives = { YieldsFirst arc_items };

    ghost remaining = { item_count arc_items };

    fn next(&mut self) -> Option<Option<u128>> {
        if self.octets.is_empty() {
            return None;
        }
        let (number, following) = first_subidentifier(self.octets);
        match self.stage {
            Stage::First => {
                self.stage = Stage::Second;
                Some(Some(first_arc_of(number)))
            }
            Stage::Second => {
                self.octets = following;
                self.stage = Stage::Other;
                Some(second_arc_of(number))
            }
            Stage::Other => {
                self.octets = following;
                Some(number)
            }
        }
    }
}

//! The policies that the certificates of a path have, read into rooms of the caller.
ghost use Rattle.std.specs.Prelude.{◌≡◌, ◌≤◌, ◌<◌, ◌+◌, ◌∷◌, ◌++◌, [], length, take};
ghost use Rattle.x509_path.specs.CertificateFacts.{part};
ghost use Rattle.x509_path.specs.PolicyNotes.{IsNoted, IsRead};

use crate::certificate::PathCertificate;
use crate::filled::Filled;
use crate::policy_lists::{put_mappings, put_policies};
use crate::policy_note::{Noted, PolicyNote};
use crate::policy_numbers::{any_skip_of, skips_of};
use path_rules::Mapping;
use std::alloc::Global;
use x509_names::names_match;

/// Whether the policies of the certificates of a path could be read.
#[derive(Clone, Copy, Debug, Drop, PartialEq, Eq)]
pub enum PolicyReading {
    /// They are in the rooms.
    Read,
    /// There is too little room.
    NoRoom,
    /// An extension for policies of the certificate at this index, counted from 0, occurs twice, is
    /// malformed under DER, or has a negative number, or none.
    Unreadable(usize),
}

/// Reads what the certificates of a path say of policies (RFC 5280, 4.2.1.4, 4.2.1.5, 4.2.1.11,
/// 4.2.1.14), for `judge_policies`. `policies` and `mappings` need a place for each policy and for
/// each mapping of the path, and `notes` one for each certificate. What the rooms hold before does
/// not matter. The function does not use `alloc`.
pub fn read_policies<'a>(
    alloc: Global,
    path: &[PathCertificate<'a>],
    policies: &mut [&'a [u8]],
    mappings: &mut [Mapping<'a>],
    notes: &mut [PolicyNote],
) -> PolicyReading
    ensures { IsRead policies.new mappings.new notes.new path.now result }
{
    if notes.len() < path.len() {
        return PolicyReading::NoRoom;
    }
    let mut last = PolicyNote::EMPTY;
    for at in 0..path.len() {
        match note_of(alloc, &path[at], policies, mappings, last) {
            Noted::Read(note) => {
                put_note(notes, at, note);
                last = note;
            }
            Noted::NoRoom => return PolicyReading::NoRoom,
            Noted::Unreadable => return PolicyReading::Unreadable(at),
        }
    }
    PolicyReading::Read
}

fn put_note(notes: &mut [PolicyNote], at: usize, note: PolicyNote)
    requires { at < length notes.old }
    ensures more { take (at + 1) notes.new ≡ take at notes.old ++ note ∷ [] }
    ensures whole { length notes.new ≡ length notes.old }
{
    notes[at] = note;
}

// Puts the policies and mappings of a certificate into the rooms, after those of the last note.
fn note_of<'a>(
    alloc: Global,
    certificate: &PathCertificate<'a>,
    policies: &mut [&'a [u8]],
    mappings: &mut [Mapping<'a>],
    last: PolicyNote,
) -> Noted
    requires policies { last.policies_to ≤ length policies.old }
    requires mappings { last.mappings_to ≤ length mappings.old }
    ensures { IsNoted policies.old policies.new mappings.old mappings.new last.policies_to
        last.mappings_to (part certificate.now) result }
{
    let signed = &certificate.certificate.tbs_certificate;
    let Some(skips) = skips_of(alloc, signed) else {
        return Noted::Unreadable;
    };
    let Some(inhibit_any) = any_skip_of(alloc, signed) else {
        return Noted::Unreadable;
    };
    let policies_to = match put_policies(alloc, signed, policies, last.policies_to) {
        Filled::To(place) => place,
        Filled::NoRoom => return Noted::NoRoom,
        Filled::Unreadable => return Noted::Unreadable,
    };
    let mappings_to = match put_mappings(alloc, signed, mappings, last.mappings_to) {
        Filled::To(place) => place,
        Filled::NoRoom => return Noted::NoRoom,
        Filled::Unreadable => return Noted::Unreadable,
    };
    Noted::Read(PolicyNote {
        policies_from: last.policies_to,
        policies_to,
        mappings_from: last.mappings_to,
        mappings_to,
        require_explicit: skips.explicit,
        inhibit_mapping: skips.inhibit,
        inhibit_any,
        is_self_issued: names_match(alloc, &signed.issuer, &signed.subject),
    })
}

//! The judgement on the policies of a path of certificates.
ghost use Rattle.std.specs.Prelude.{◌≡◌, ◌↔◌, ◌≤◌, ◌<◌, ◌+◌, ◌∷◌, ◌++◌, [], List, length, take, IsTrue, MatchOption};
ghost use Rattle.x509_path.specs.PolicyNotes.{AreAllPolicyFacts, AreFactsFromNote, AreNotes, IsJudged};
ghost use Rattle.x509_path.specs.declared.certificate.PathCertificate.{PathCertificate as ACertificate};

use crate::policy_note::PolicyNote;
use path_rules::{Mapping, Node, PolicyAnswer, PolicyFacts, PolicyInputs, policies_answer};

/// Whether the policies of a path keep all rules, or the first fault. `policies`, `mappings` and
/// `notes` are what `read_policies` read of the path, `notes` with one for each certificate.
/// `facts` needs a place for each certificate. `nodes` needs room for twice as many as the path has
/// policies and mappings; with less, the answer may be `NoRoom`. `None` if `facts` has too little
/// room, or the notes are of other rooms.
pub fn judge_policies<'b>(
    inputs: &PolicyInputs<'_>,
    policies: &'b [&'b [u8]],
    mappings: &'b [Mapping<'b>],
    notes: &[PolicyNote],
    facts: &mut [PolicyFacts<'b>],
    nodes: &mut [Node<'b>],
) -> Option<PolicyAnswer>
    ensures { (path : List ACertificate) → AreNotes policies.now mappings.now path notes.now
        → MatchOption result (length facts.old < length path)
        (λ a. IsJudged a inputs.now path (length nodes.old)) }
{
    if facts.len() < notes.len() {
        return None;
    }
    if !fill_facts(policies, mappings, notes, facts) {
        return None;
    }
    Some(policies_answer(&facts[..notes.len()], inputs, nodes))
}

// Makes the facts of each note. False if a note is of other rooms.
fn fill_facts<'b>(
    policies: &'b [&'b [u8]],
    mappings: &'b [Mapping<'b>],
    notes: &[PolicyNote],
    facts: &mut [PolicyFacts<'b>],
) -> bool
    requires { length notes.now ≤ length facts.old }
    ensures { (path : List ACertificate) → AreNotes policies.now mappings.now path notes.now
        → IsTrue result × AreAllPolicyFacts path (take (length notes.now) facts.new) }
{
    for at in 0..notes.len() {
        let note = &notes[at];
        if !is_within(note, policies.len(), mappings.len()) {
            return false;
        }
        put_facts(facts, at, facts_from(policies, mappings, note));
    }
    true
}

fn put_facts<'b>(facts: &mut [PolicyFacts<'b>], at: usize, one: PolicyFacts<'b>)
    requires { at < length facts.old }
    ensures { take (at + 1) facts.new ≡ take at facts.old ++ one.entry ∷ [] }
{
    facts[at] = one;
}

// Whether the parts of a note are within rooms of these lengths.
fn is_within(note: &PolicyNote, policies: usize, mappings: usize) -> bool
    ensures { IsTrue result ↔ ((note.now.policies_from ≤ note.now.policies_to)
        × (note.now.policies_to ≤ policies) × (note.now.mappings_from ≤ note.now.mappings_to)
        × (note.now.mappings_to ≤ mappings)) }
{
    note.policies_from <= note.policies_to
        && note.policies_to <= policies
        && note.mappings_from <= note.mappings_to
        && note.mappings_to <= mappings
}

fn facts_from<'b>(
    policies: &'b [&'b [u8]],
    mappings: &'b [Mapping<'b>],
    note: &PolicyNote,
) -> PolicyFacts<'b>
    requires policies_order { note.now.policies_from ≤ note.now.policies_to }
    requires policies_end { note.now.policies_to ≤ length policies.now }
    requires mappings_order { note.now.mappings_from ≤ note.now.mappings_to }
    requires mappings_end { note.now.mappings_to ≤ length mappings.now }
    ensures { AreFactsFromNote policies.now mappings.now note.now result }
{
    PolicyFacts {
        policies: &policies[note.policies_from..note.policies_to],
        mappings: &mappings[note.mappings_from..note.mappings_to],
        require_explicit: note.require_explicit,
        inhibit_mapping: note.inhibit_mapping,
        inhibit_any: note.inhibit_any,
        is_self_issued: note.is_self_issued,
    }
}

/// Facts to fill a room with.
pub fn no_policy_facts() -> PolicyFacts<'static> {
    PolicyFacts {
        policies: &[],
        mappings: &[],
        require_explicit: None,
        inhibit_mapping: None,
        inhibit_any: None,
        is_self_issued: false,
    }
}

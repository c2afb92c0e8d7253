//! The judgement on a path of certificates.
ghost use Rattle.std.specs.Prelude.{◌≡◌, ◌<◌, ◌≤◌, ◌+◌, ◌∷◌, ◌++◌, [], length, take, MatchOption};
ghost use Rattle.path_rules.specs.declared.facts.Facts.{Facts as AFacts};
ghost use Rattle.x509_path.specs.Judgements.{IsFound, IsJudged};
ghost use Rattle.x509_path.specs.Paths.{AreFactsFrom, IsAnswered};

use crate::certificate::PathCertificate;
use crate::facts::facts_of;
use crate::if_signed::IfSigned;
use crate::inputs::Inputs;
use crate::judgement::Judgement;
use crate::refusal::Refusal;
use path_rules::{Answer, Facts, path_answer};
use std::alloc::Global;

/// The judgement on a path: a path that is valid if its signatures verify, or the first fault. Its
/// first certificate is the one that the trust anchor issued, and the last the one to be validated.
/// `room` needs a place for each certificate; what it holds before does not matter. The function does
/// not use `alloc`.
pub fn judge_path<'r, 'a>(
    alloc: Global,
    inputs: &'r Inputs<'a>,
    path: &'r [PathCertificate<'a>],
    room: &mut [Facts],
) -> Judgement<'r, 'a>
    ensures { IsJudged result inputs.now path.now (length room.old) }
{
    match judge(alloc, inputs, path, room) {
        Some(answer) => judgement_of(inputs, path, answer),
        None => Judgement::NoRoom,
    }
}

// The judgement on a path of which the rules have this answer.
fn judgement_of<'r, 'a>(
    inputs: &'r Inputs<'a>,
    path: &'r [PathCertificate<'a>],
    answer: Answer,
) -> Judgement<'r, 'a>
    requires { IsAnswered answer inputs.now path.now }
    ensures { IsFound result inputs.now path.now }
{
    match answer {
        Answer::Valid => Judgement::IfSigned(IfSigned { inputs, path }),
        Answer::Empty => Judgement::Refused(Refusal::Empty),
        Answer::Broken(fault) => Judgement::Refused(Refusal::Broken(fault)),
    }
}

/// Whether a path keeps all rules that are not about signatures, or the first fault, as
/// [`judge_path`] says it. If the room has fewer places than the path has certificates, the answer is
/// `None`. A path that keeps the rules is valid if each signature verifies too.
pub fn judge<'r, 'a>(
    alloc: Global,
    inputs: &'r Inputs<'a>,
    path: &'r [PathCertificate<'a>],
    room: &mut [Facts],
) -> Option<Answer>
    ensures { MatchOption result (length room.old < length path.now)
        (λ a. (length path.now ≤ length room.old) × IsAnswered a inputs.now path.now) }
{
    if room.len() < path.len() {
        return None;
    }
    fill(alloc, inputs, path, room);
    Some(path_answer(&room[..path.len()]))
}

// Puts the facts of each certificate into the room.
fn fill<'r, 'a>(
    alloc: Global,
    inputs: &'r Inputs<'a>,
    path: &'r [PathCertificate<'a>],
    room: &mut [Facts],
)
    requires { length path.now ≤ length room.old }
    ensures facts { AreFactsFrom inputs.now [] path.now (take (length path.now) room.new) }
    ensures whole { length room.new ≡ length room.old }
{
    for at in 0..path.len() {
        put(room, at, facts_of(alloc, inputs, &path[..at], &path[at]));
    }
}

fn put(room: &mut [Facts], at: usize, facts: Facts)
    requires { at < length room.old }
    ensures more { take (at + 1) room.new ≡ take at room.old ++ facts ∷ [] }
    ensures whole { length room.new ≡ length room.old }
{
    room[at] = facts;
}

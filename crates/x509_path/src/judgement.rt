//! The judgement on a path, before its signatures are verified.

use crate::if_signed::IfSigned;
use crate::refusal::Refusal;

/// What [`judge_path`](crate::judge_path) says of a path.
#[derive(Clone, Copy, Drop)]
pub enum Judgement<'r, 'a> {
    /// The path keeps all rules. It is valid if its signatures verify.
    IfSigned(IfSigned<'r, 'a>),
    /// The path is not valid, whatever its signatures are.
    Refused(Refusal),
    /// The room has fewer places than the path has certificates. Nothing is known of the path.
    NoRoom,
}

//! The judgement on a certificate.

use crate::asked::{Asked, put_host, put_purpose};
use crate::paths::{Paths, put_paths};
use std::alloc::AllocError;
use std::fmt::Write;
use x509_build::Pool;

/// What is said of a certificate.
#[derive(Clone, Copy, Debug, PartialEq, Eq)]
pub enum Judgement {
    /// It is valid if the signatures of one of the printed paths verify.
    ValidIfSigned,
    /// It is refused: it lacks what is asked, or each path to it breaks a rule.
    Refused,
    /// No path keeps all rules so far, and the search ended early.
    Unknown,
}

/// Prints how a certificate is judged: whether it has what is asked, and each path to it, with the
/// rule that it breaks, or with the signatures that have to verify. A path has at most `depth`
/// certificates. The search takes at most `steps` steps.
pub fn put_judgement<W: Write>(
    out: &mut W,
    asked: &Asked<'_>,
    pool: &Pool<'_, '_>,
    depth: usize,
    steps: u64,
) -> Result<Judgement, AllocError> {
    let has_host = put_host(out, asked, pool);
    let has_purpose = put_purpose(out, asked, pool);
    let paths = put_paths(out, pool, depth, steps)?;
    if !paths.is_whole {
        let _ = out.write_str("There may be more paths: the search ended early.\n");
    }
    let judgement = match paths {
        _ if !has_host || !has_purpose => Judgement::Refused,
        Paths {
            kept: 0,
            is_whole: true,
        } => Judgement::Refused,
        Paths {
            kept: 0,
            is_whole: false,
        } => Judgement::Unknown,
        _ => Judgement::ValidIfSigned,
    };
    let _ = match judgement {
        Judgement::Refused => out.write_str("Refused.\n"),
        Judgement::Unknown => out.write_str("Not decided.\n"),
        Judgement::ValidIfSigned if paths.kept == 1 => {
            out.write_str("Valid if the signatures of this path verify.\n")
        }
        Judgement::ValidIfSigned => {
            write!(
                out,
                "Valid if the signatures of one of these {} paths verify.\n",
                paths.kept
            )
        }
    };
    let _ = out.write_str("Not judged: signatures, revocation, policies, the strength of keys.\n");
    Ok(judgement)
}

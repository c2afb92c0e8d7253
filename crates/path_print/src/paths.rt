//! The paths to a certificate.

use crate::signatures::put_signatures;
use path_rules::Answer;
use path_search::{Search, Step};
use std::alloc::AllocError;
use std::fmt::Write;
use x509_build::{Pool, judge_chain};
use x509_names::NameText;
use x509_path::{PathCertificate, no_facts};

/// How many paths are printed.
const MOST: usize = 50;

// What was found.
#[derive(Clone, Copy)]
pub(crate) struct Paths {
    // How many of the paths keep all rules.
    pub(crate) kept: usize,
    // Whether there are no other paths.
    pub(crate) is_whole: bool,
}

// Prints the paths, each with the rule that it breaks, or with its signatures.
pub(crate) fn put_paths<W: Write>(
    out: &mut W,
    pool: &Pool<'_, '_>,
    depth: usize,
    steps: u64,
) -> Result<Paths, AllocError> {
    let mut chain = Vec::new(pool.alloc);
    let mut path = Vec::new(pool.alloc);
    let mut facts = Vec::new(pool.alloc);
    for _ in 0..depth {
        chain.push(0usize)?;
        facts.push(no_facts())?;
        if let Ok(certificate) = PathCertificate::from_der(pool.alloc, pool.target.octets()) {
            path.push(certificate)?;
        }
    }
    let mut search = Search::new(pool.count(), depth, steps);
    let mut kept = 0usize;
    for number in 1..=MOST {
        let length = match search.next(pool, &mut chain) {
            Step::Path(length) => length,
            Step::Ended => {
                if number == 1 {
                    put_none(out, pool);
                }
                return Ok(Paths {
                    kept,
                    is_whole: true,
                });
            }
            Step::StepsUsed => break,
            Step::NoRoom => break,
        };
        let _ = write!(out, "Path {number}:\n");
        let found = chain.get(..length).unwrap_or(&[]);
        let answer = judge_chain(pool, found, &mut path, &mut facts);
        let judged = path.get(..length).unwrap_or(&[]);
        put_certificates(out, pool, judged, answer);
        if answer == Some(Answer::Valid) {
            put_signatures(out, pool, judged);
            kept = kept.saturating_add(1);
        }
    }
    Ok(Paths {
        kept,
        is_whole: false,
    })
}

// Prints that no path leads to the certificate.
fn put_none<W: Write>(out: &mut W, pool: &Pool<'_, '_>) {
    let issuer = &pool.target.certificate().tbs_certificate.issuer;
    let _ = write!(
        out,
        "No path: no trust anchor is reached from {}\n",
        NameText::new(pool.alloc, issuer)
    );
}

// Prints the certificates of a path, from the trust anchor on, and what the first that breaks a rule breaks.
fn put_certificates<W: Write>(
    out: &mut W,
    pool: &Pool<'_, '_>,
    path: &[PathCertificate<'_>],
    answer: Option<Answer>,
) {
    let mut at = 0usize;
    for certificate in path.iter() {
        let signed = &certificate.certificate().tbs_certificate;
        if at == 0 {
            let anchor = NameText::new(pool.alloc, &signed.issuer);
            let _ = write!(out, "    trust anchor {anchor}\n");
        }
        let _ = write!(out, "    {}", NameText::new(pool.alloc, &signed.subject));
        match answer {
            Some(Answer::Broken(fault)) if fault.at == at => {
                let _ = write!(out, ": refused: {}", fault.rule);
            }
            _ => {}
        }
        let _ = out.write_str("\n");
        at = at.saturating_add(1);
    }
}

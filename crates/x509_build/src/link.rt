//! Links of chains.
ghost use Rattle.std.specs.Prelude.{◌≡◌, ◌↔◌, ◌≤◌, IsTrue, MatchOption, length};
ghost use Rattle.x509_build.specs.Links.{HasFailed, IsLinkOf, last_of};

/// A link of a chain: a candidate, and the certificate that it issues.
#[derive(Clone, Copy, Debug, Drop, PartialEq, Eq)]
pub struct Link {
    /// The candidate that issues.
    pub issuer: usize,
    /// The candidate that is issued, or `None`, which is the certificate to be validated.
    pub subject: Option<usize>,
}

/// The link that the certificate at this place of the path of a chain is the subject of: the one to
/// report, if its signature fails. `None` if the path has no such place.
pub fn link_at(chain: &[usize], at: usize) -> Option<Link>
    ensures { MatchOption result (length chain.now ≤ at) (IsLinkOf chain.now at) }
{
    if at >= chain.len() {
        return None;
    }
    let place = chain.len() - 1 - at;
    Some(Link {
        issuer: chain[place],
        subject: last_of(&chain[..place]),
    })
}

// The last candidate of a chain, or `None` if it has none.
pub(crate) fn last_of(chain: &[usize]) -> Option<usize>
    ensures { result ≡ last_of chain.now }
{
    chain.last().copied()
}

// Whether a link has failed.
pub(crate) fn has_failed(failed: &[Link], issuer: usize, subject: Option<usize>) -> bool
    ensures { IsTrue result ↔ HasFailed failed.now issuer subject }
{
    failed.iter().any(|link| link.issuer == issuer && is_same(link.subject, subject))
}

fn is_same(first: Option<usize>, second: Option<usize>) -> bool
    ensures { IsTrue result ↔ (first ≡ second) }
{
    match (first, second) {
        (Some(first), Some(second)) => first == second,
        (None, None) => true,
        (Some(_), None) => false,
        (None, Some(_)) => false,
    }
}

//! The certificates among which paths are searched.
ghost use Rattle.std.specs.Prelude.{◌≡◌, ◌+◌, ◌-◌, ◌^◌, length, min};
ghost use Rattle.std.specs.Option.{option_map};
ghost use Rattle.x509_build.specs.Pools.{Follows, IsWhole, inputs_of};

use crate::issuing::{inputs_at, is_used, issues_last};
use crate::link::{Link, has_failed, last_of};
use path_search::Candidates;
use std::alloc::Global;
use x509_path::{Inputs, PathCertificate};

/// The certificates among which paths are searched. The candidates of the search are numbers: those
/// below the number of certificates are these, and the others are the trust anchors.
#[derive(Clone, Copy, Drop)]
pub struct Pool<'r, 'a> {
    /// An allocator, which is not used.
    pub alloc: Global,
    /// The certificate to be validated.
    pub target: &'r PathCertificate<'a>,
    /// Certificates that may be in a path, in any order.
    pub certificates: &'r [PathCertificate<'a>],
    /// The trust anchors, each with what a validation with it needs.
    pub anchors: &'r [Inputs<'a>],
    /// The links whose signature the caller has seen fail.
    pub failed: &'r [Link],
}

impl<'r, 'a> Pool<'r, 'a> {
    /// The number of candidates.
    pub fn count(&self) -> usize
        ensures { result ≡ min (length self.now.certificates.now + length self.now.anchors.now)
            (2 ^ 64 - 1) }
    {
        self.certificates.len().saturating_add(self.anchors.len())
    }

    /// What the validation of the path of a chain needs: the trust anchor with which the chain ends, if
    /// it ends with one.
    pub fn inputs(&self, chain: &[usize]) -> Option<&'r Inputs<'a>>
        ensures { option_map (λ i. i.now) result ≡ inputs_of self.now chain.now }
    {
        inputs_at(self, last_of(chain)?)
    }
}

impl Candidates for Pool<'_, '_> {
    ghost follows = { Follows };

    ghost is_whole = { IsWhole };

    fn may_follow(&self, chain: &[usize], candidate: usize) -> bool {
        if self.is_whole(chain) {
            return false;
        }
        let last = last_of(chain);
        if !issues_last(self, last, candidate) {
            return false;
        }
        if is_used(self, chain, candidate) {
            return false;
        }
        !has_failed(self.failed, candidate, last)
    }

    fn is_whole(&self, chain: &[usize]) -> bool {
        self.inputs(chain).is_some()
    }
}

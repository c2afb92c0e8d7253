//! The judgement on the path of a chain.
ghost use Rattle.std.specs.Prelude.{◌≡◌, length, take, MatchOption};
ghost use Rattle.x509_build.specs.Builds.{HasNoPath, IsJudged};
ghost use Rattle.x509_build.specs.Pools.{path_of};

use crate::pool::Pool;
use crate::room::put_path;
use path_rules::{Answer, Facts};
use x509_path::{PathCertificate, judge};

/// Whether the path of a chain keeps all rules of `x509_path`, or the first fault. The path is then
/// at the front of `path`; it has as many certificates as the chain has candidates, which are one
/// trust anchor and no certificate to be validated. What the rooms hold before does not matter.
///
/// The answer is `None` if the chain does not end with a trust anchor, or if one of the rooms has
/// fewer places than the chain has candidates.
#[tactic(auto, unfolding(crate::specs::Builds::IsJudged))]
pub fn judge_chain<'a>(
    pool: &Pool<'_, 'a>,
    chain: &[usize],
    path: &mut [PathCertificate<'a>],
    facts: &mut [Facts],
) -> Option<Answer>
    ensures { MatchOption result
        (HasNoPath pool.now chain.now (length path.old) (length facts.old))
        (λ a. (take (length chain.now) path.new ≡ path_of pool.now chain.now)
        × IsJudged pool.now chain.now a) }
{
    if path.len() < chain.len() {
        return None;
    }
    if facts.len() < chain.len() {
        return None;
    }
    let inputs = pool.inputs(chain)?;
    put_path(pool, chain, path);
    judge(pool.alloc, inputs, &path[..chain.len()], facts)
}

//! The search for a path that keeps all rules.
ghost use Rattle.std.specs.Prelude.{◌≡◌, length, take};
ghost use Rattle.x509_build.specs.Builds.{HasPath, IsBuilt};

use crate::built::Built;
use crate::judged::judge_chain;
use crate::pool::Pool;
use path_rules::{Answer, Facts};
use path_search::{Search, Step};
use x509_path::PathCertificate;

/// Searches the next path that keeps all rules of `x509_path`. It is then at the front of `path`, in
/// its order, and the numbers of its candidates are at the front of `chain`: the first issues the
/// certificate to be validated, and the last is the trust anchor.
///
/// `search` is one over [`count`](Pool::count) candidates. Its depth is one more than the number of
/// certificates that may be between the trust anchor and the certificate to be validated. `chain`
/// needs as many places as the depth, and must have what the call before left in it. `path` and
/// `facts` need as many places as `chain` has; what they hold does not matter. Between two calls
/// failed links may be added to the pool.
pub fn next_path<'a>(
    search: &mut Search,
    pool: &Pool<'_, 'a>,
    chain: &mut [usize],
    path: &mut [PathCertificate<'a>],
    facts: &mut [Facts],
) -> Built
    ensures built { IsBuilt result pool.now search.old chain.old search.new chain.new
        (length path.old) (length facts.old) }
    ensures path { HasPath result pool.now chain.new path.new }
{
    if path.len() < chain.len() {
        return Built::NoRoom;
    }
    if facts.len() < chain.len() {
        return Built::NoRoom;
    }
    loop {
        let length = match search.next(pool, chain) {
            Step::Path(length) => length,
            Step::Ended => return Built::Ended,
            Step::StepsUsed => return Built::StepsUsed,
            Step::NoRoom => return Built::NoRoom,
        };
        match judge_chain(pool, &chain[..length], path, facts) {
            Some(Answer::Valid) => return Built::Path(length),
            Some(Answer::Broken(_)) => (),
            Some(Answer::Empty) => return Built::NoRoom,
            None => return Built::NoRoom,
        }
    }
}

//! Tests of the entries of revocation lists.
ghost use Rattle.std.specs.Prelude.{◌↔◌, IsTrue};
ghost use Rattle.x509_lint.specs.Elements.{EachElement};
ghost use Rattle.x509_lint.specs.EntryTests.{EntryKeeps};

use crate::elements::each_element;
use crate::identifier::Identifier;
use crate::inside_test::{EachTest, GuardTest, InsideTest, LackTest};
use crate::part_test::PartTest;
use der::Tag;
use std::alloc::Global;

/// A test of an entry of a revocation list (RFC 5280, 5.1.2.6 and 5.3).
#[derive(Clone, Copy, Debug, PartialEq, Eq)]
pub enum EntryTest {
    /// An entry passes if its revocation date has the form that the year requires: a
    /// GeneralizedTime must have the year 2050 or a later year.
    Times,
    /// An entry passes if it has no extensions.
    NoExtensions,
    /// An entry passes if it has no critical extension with this identifier.
    NotCritical(Identifier),
    /// An entry passes if its certificateIssuer is critical, or if it has no certificateIssuer.
    IssuerCritical,
    /// An entry passes if it has no reasonCode with the reason removeFromCRL.
    NotRemoved,
    /// An entry passes if it has no certificateIssuer.
    NoIssuer,
}

/// Whether each entry of a revocation list passes the test. `entries` are the encodings of the
/// entries, one after the other. The function does not use `alloc`.
pub fn entries_keep(alloc: Global, entries: &[u8], test: EntryTest) -> bool
    ensures { IsTrue result ↔ EachElement (EntryKeeps test) entries.now }
{
    match test {
        EntryTest::Times => have_times(alloc, entries),
        EntryTest::NoExtensions => have_no_extensions(alloc, entries),
        EntryTest::NotCritical(identifier) => are_not_critical(alloc, entries, identifier),
        EntryTest::IssuerCritical => have_critical_issuers(alloc, entries),
        EntryTest::NotRemoved => are_not_removed(alloc, entries),
        EntryTest::NoIssuer => have_no_issuers(alloc, entries),
    }
}

fn have_times(alloc: Global, entries: &[u8]) -> bool
    ensures { IsTrue result ↔ EachElement (EntryKeeps EntryTest.Times) entries.now }
{
    each_element(
        alloc,
        entries,
        &EachTest {
            test: PartTest::LateTime,
        },
    )
}

fn have_no_extensions(alloc: Global, entries: &[u8]) -> bool
    ensures { IsTrue result ↔ EachElement (EntryKeeps EntryTest.NoExtensions) entries.now }
{
    each_element(
        alloc,
        entries,
        &EachTest {
            test: PartTest::NotTagged(Tag::Sequence),
        },
    )
}

fn are_not_critical(alloc: Global, entries: &[u8], identifier: Identifier) -> bool
    ensures { IsTrue result
        ↔ EachElement (EntryKeeps (EntryTest.NotCritical identifier)) entries.now }
{
    let extension = GuardTest {
        guard: PartTest::Other(identifier),
        test: PartTest::NotTagged(Tag::Boolean),
    };
    let entry = InsideTest {
        tag: Tag::Sequence,
        test: InsideTest {
            tag: Tag::Sequence,
            test: extension,
        },
    };
    each_element(alloc, entries, &entry)
}

fn have_critical_issuers(alloc: Global, entries: &[u8]) -> bool
    ensures { IsTrue result ↔ EachElement (EntryKeeps EntryTest.IssuerCritical) entries.now }
{
    let extension = LackTest {
        guard: PartTest::Other(Identifier::CertificateIssuer),
        test: PartTest::NotTagged(Tag::Boolean),
    };
    let entry = InsideTest {
        tag: Tag::Sequence,
        test: InsideTest {
            tag: Tag::Sequence,
            test: extension,
        },
    };
    each_element(alloc, entries, &entry)
}

fn are_not_removed(alloc: Global, entries: &[u8]) -> bool
    ensures { IsTrue result ↔ EachElement (EntryKeeps EntryTest.NotRemoved) entries.now }
{
    let extension = GuardTest {
        guard: PartTest::Other(Identifier::Reason),
        test: PartTest::NotRemoved,
    };
    let entry = InsideTest {
        tag: Tag::Sequence,
        test: InsideTest {
            tag: Tag::Sequence,
            test: extension,
        },
    };
    each_element(alloc, entries, &entry)
}

fn have_no_issuers(alloc: Global, entries: &[u8]) -> bool
    ensures { IsTrue result ↔ EachElement (EntryKeeps EntryTest.NoIssuer) entries.now }
{
    let extension = InsideTest {
        tag: Tag::Sequence,
        test: PartTest::Other(Identifier::CertificateIssuer),
    };
    let entry = InsideTest {
        tag: Tag::Sequence,
        test: InsideTest {
            tag: Tag::Sequence,
            test: extension,
        },
    };
    each_element(alloc, entries, &entry)
}

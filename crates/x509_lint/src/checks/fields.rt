//! Checks of components inside the values of extensions.
ghost use Rattle.std.specs.Prelude.{◌↔◌, IsTrue};
ghost use Rattle.der.specs.Prelude.{Tag as ATag};
ghost use Rattle.x509_lint.specs.Elements.{EachOfSequence};
ghost use Rattle.x509_lint.specs.FieldRules.{BasesKeep, InnerKeeps, NoticeKeeps, PointKeeps, PolicyKeeps};
ghost use Rattle.x509_lint.specs.Parts.{PartKeeps};

use crate::base_rule::BaseRule;
use crate::elements::each_of_sequence;
use crate::form_rule::FormRule;
use crate::forms::context;
use crate::identifier::Identifier;
use crate::inside_test::{EachTest, GuardTest, InsideTest};
use crate::part_test::PartTest;
use crate::point_rule::PointRule;
use crate::policy_rule::PolicyRule;
use der::Tag;
use std::alloc::Global;

/// Whether the qualifiers in the value of a certificatePolicies keep the rule (RFC 5280, 4.2.1.4).
/// This does not use `alloc`.
pub fn policies_keep(alloc: Global, value: &[u8], rule: PolicyRule) -> bool
    ensures { IsTrue result ↔ PolicyKeeps rule value.now }
{
    match rule {
        PolicyRule::Qualifiers => has_known_qualifiers(alloc, value),
        PolicyRule::TextTypes => has_texts_of_type(alloc, value),
        PolicyRule::TextLengths => notices_keep(alloc, value, PartTest::NoticeText),
        PolicyRule::Pointers => has_pointers(alloc, value),
    }
}

fn has_known_qualifiers(alloc: Global, value: &[u8]) -> bool
    ensures { IsTrue result ↔ PolicyKeeps PolicyRule.Qualifiers value.now }
{
    let test = GuardTest {
        guard: PartTest::NotAnyPolicy,
        test: InsideTest {
            tag: Tag::Sequence,
            test: InsideTest {
                tag: Tag::Sequence,
                test: PartTest::Qualifier,
            },
        },
    };
    each_of_sequence(alloc, value, &test)
}

fn has_texts_of_type(alloc: Global, value: &[u8]) -> bool
    ensures { IsTrue result ↔ PolicyKeeps PolicyRule.TextTypes value.now }
{
    notices_keep(alloc, value, PartTest::NotTagged(Tag::Ia5String))
}

// Whether each field of a user notice keeps the test.
fn notices_keep(alloc: Global, value: &[u8], test: PartTest) -> bool
    ensures { IsTrue result
        ↔ EachOfSequence (InnerKeeps (NoticeKeeps (PartKeeps test))) value.now }
{
    let notice = GuardTest {
        guard: PartTest::Other(Identifier::UserNotice),
        test: InsideTest {
            tag: Tag::Sequence,
            test,
        },
    };
    let policy = InsideTest {
        tag: Tag::Sequence,
        test: InsideTest {
            tag: Tag::Sequence,
            test: notice,
        },
    };
    each_of_sequence(alloc, value, &policy)
}

fn has_pointers(alloc: Global, value: &[u8]) -> bool
    ensures { IsTrue result ↔ PolicyKeeps PolicyRule.Pointers value.now }
{
    let pointer = GuardTest {
        guard: PartTest::Other(Identifier::CpsPointer),
        test: PartTest::Pointer,
    };
    let policy = InsideTest {
        tag: Tag::Sequence,
        test: InsideTest {
            tag: Tag::Sequence,
            test: pointer,
        },
    };
    each_of_sequence(alloc, value, &policy)
}

/// Whether the distribution points in the value of a cRLDistributionPoints or a freshestCRL keep
/// the rule (RFC 5280, 4.2.1.13). This does not use `alloc`.
pub fn points_keep(alloc: Global, value: &[u8], rule: PointRule) -> bool
    ensures { IsTrue result ↔ PointKeeps rule value.now }
{
    match rule {
        PointRule::Scheme => has_schemes(alloc, value),
        PointRule::IssuerName => has_issuer_names(alloc, value),
        PointRule::OneIssuer => has_one_issuer(alloc, value),
    }
}

fn has_schemes(alloc: Global, value: &[u8]) -> bool
    ensures { IsTrue result ↔ PointKeeps PointRule.Scheme value.now }
{
    let names = InsideTest {
        tag: context(true, 0),
        test: PartTest::Form(FormRule::Scheme),
    };
    let fields = InsideTest {
        tag: context(true, 0),
        test: names,
    };
    each_of_sequence(alloc, value, &EachTest { test: fields })
}

fn has_issuer_names(alloc: Global, value: &[u8]) -> bool
    ensures { IsTrue result ↔ PointKeeps PointRule.IssuerName value.now }
{
    let fields = InsideTest {
        tag: context(true, 2),
        test: PartTest::Tagged(context(true, 4)),
    };
    each_of_sequence(alloc, value, &EachTest { test: fields })
}

fn has_one_issuer(alloc: Global, value: &[u8]) -> bool
    ensures { IsTrue result ↔ PointKeeps PointRule.OneIssuer value.now }
{
    let full_name = InsideTest {
        tag: context(true, 0),
        test: PartTest::NotTagged(context(true, 1)),
    };
    let point = GuardTest {
        guard: full_name,
        test: PartTest::SingleIn(context(true, 2)),
    };
    each_of_sequence(alloc, value, &point)
}

/// Whether the bases of the subtrees in the value of a nameConstraints keep the rule (RFC 5280,
/// 4.2.1.10). This does not use `alloc`.
pub fn bases_keep(alloc: Global, value: &[u8], rule: BaseRule) -> bool
    ensures { IsTrue result ↔ BasesKeep rule value.now }
{
    let subtree = InsideTest {
        tag: Tag::Sequence,
        test: PartTest::Base(rule),
    };
    each_of_sequence(alloc, value, &EachTest { test: subtree })
}

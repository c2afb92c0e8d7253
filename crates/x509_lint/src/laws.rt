//! Properties of [`Lint`] and of the lists of rules, as contracts of functions. The functions exist
//! for these contracts alone: no code calls them.
ghost use Rattle.std.specs.Prelude.{◌≡◌, List, Some, length, slice_get};
ghost use Rattle.std.specs.Iterator.{Drains};
ghost use Rattle.x509_lint.specs.Lint.{AreFindings};
ghost use Rattle.x509_lint.specs.ListRuleList.{list_place_of};
ghost use Rattle.x509_lint.specs.RuleList.{place_of};
ghost use Rattle.x509_lint.specs.declared.rule.Rule.{Rule as ARule};
ghost use Rattle.x509_lint.specs.declared.list_rule.ListRule.{ListRule as AListRule};
ghost use Rattle.x509_lint.specs.declared.finding.Finding.{Finding as AFinding};
ghost use Rattle.x509_lint.specs.declared.lint.Lint.{Lint as ALint};

use crate::lint::Lint;
use crate::list_rule::LIST_RULES;
use crate::rules::RULES;

/// The contract of this function is about a [`Lint`] that was called until it returned `None`. It
/// states that the `Lint` has returned exactly the rules that the certificate breaks, in the order
/// in which it checks them.
fn gives_all_findings()
    ensures { (lint : ALint) (findings : List AFinding)
        → Drains ⟦<Lint<'static, 'static> as Iterator>⟧.next_gives lint findings
        → AreFindings lint.certificate.now lint.rules.now findings }
{}

/// The contract of this function states that [`RULES`] has each rule, at an index of its own, and
/// no other items. So no rule is missing, and no rule is there twice.
fn lists_each_rule()
    ensures each { (r : ARule) → slice_get RULES (place_of r) ≡ Some r }
    ensures all { length RULES ≡ 58 }
{}

/// The contract of this function states that [`LIST_RULES`] has each rule for revocation lists, at
/// an index of its own, and no other items.
fn lists_each_list_rule()
    ensures each { (r : AListRule) → slice_get LIST_RULES (list_place_of r) ≡ Some r }
    ensures all { length LIST_RULES ≡ 30 }
{}

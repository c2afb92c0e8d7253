//! Prints the extensions basicConstraints, policyConstraints and nameConstraints.

use crate::general_name::{put_address, put_general_name};
use crate::page::Page;
use crate::values::{contents, items, put_decimal};
use schema_cursor::Cursor;

/// Prints whether the subject is a certification authority. If the extension limits the length of
/// the certification path, prints the limit too.
pub fn put_basic_constraints(page: &mut Page<'_>, element: Cursor<'_>) {
    page.at(element);
    let is_authority = match element.at("cA") {
        Some(value) => value.boolean() == Some(true),
        None => false,
    };
    page.put(if is_authority { "CA:TRUE" } else { "CA:FALSE" });
    if let Some(length) = element.at("pathLenConstraint") {
        page.put(", pathlen:");
        put_decimal(page, length);
    }
    page.end();
}

/// Prints the numbers requireExplicitPolicy and inhibitPolicyMapping of PolicyConstraints. A number
/// that is absent is left out.
pub fn put_policy_constraints(page: &mut Page<'_>, element: Cursor<'_>) {
    page.at(element);
    let explicit = element.at("requireExplicitPolicy");
    if let Some(number) = explicit {
        page.put("Require Explicit Policy:");
        put_decimal(page, number);
    }
    if let Some(number) = element.at("inhibitPolicyMapping") {
        if explicit.is_some() {
            page.put(", ");
        }
        page.put("Inhibit Policy Mapping:");
        put_decimal(page, number);
    }
    page.end();
}

/// Prints the permitted names and the excluded names of NameConstraints.
pub fn put_name_constraints(page: &mut Page<'_>, element: Cursor<'_>) {
    put_trees(page, "Permitted:", element.at("permittedSubtrees"));
    put_trees(page, "Excluded:", element.at("excludedSubtrees"));
}

fn put_trees(page: &mut Page<'_>, title: &str, trees: Option<Cursor<'_>>) {
    let Some(trees) = trees else {
        return;
    };
    page.line(trees, title);
    page.indent = page.indent.saturating_add(2);
    for item in items(trees) {
        page.at(item);
        put_tree(page, item);
        page.end();
    }
    page.indent = page.indent.saturating_sub(2);
}

// A name with its limits. An address has a mask here, and openssl calls it `IP`.
fn put_tree(page: &mut Page<'_>, tree: Cursor<'_>) {
    let Some(base) = tree.at("base") else {
        return;
    };
    if base.alternative() == Some("iPAddress") {
        page.put("IP:");
        put_address(page, contents(base));
    } else {
        put_general_name(page, base);
    }
    if let Some(least) = tree.at("minimum") {
        page.put(", minimum ");
        put_decimal(page, least);
    }
    if let Some(most) = tree.at("maximum") {
        page.put(", maximum ");
        put_decimal(page, most);
    }
}

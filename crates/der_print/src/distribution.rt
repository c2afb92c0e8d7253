//! Prints the extensions cRLDistributionPoints and issuingDistributionPoint.

use crate::flags::put_reasons;
use crate::general_name::put_name_lines;
use crate::name::put_level;
use crate::page::Page;
use crate::values::items;
use schema_cursor::Cursor;

/// Prints the distribution points of `list`. A distribution point has a name, reasons, and an
/// issuer of the revocation list. What is absent is left out.
pub fn put_distribution_points(page: &mut Page<'_>, list: Cursor<'_>) {
    for point in items(list) {
        put_point_name(page, point.at("distributionPoint"));
        put_titled_reasons(page, "Reasons:", point.at("reasons"));
        if let Some(issuer) = point.at("cRLIssuer") {
            page.line(issuer, "CRL Issuer:");
            put_names_below(page, issuer);
        }
    }
}

// The names of the place, or its name below that of the issuer.
fn put_point_name(page: &mut Page<'_>, place: Option<Cursor<'_>>) {
    let Some(place) = place else {
        return;
    };
    let name = place.untagged();
    match name.alternative() {
        Some("fullName") => {
            page.line(name, "Full Name:");
            put_names_below(page, name);
        }
        Some("nameRelativeToCRLIssuer") => {
            page.line(name, "Relative Name:");
            page.indent = page.indent.saturating_add(2);
            page.at(name);
            put_level(&mut page.out, name);
            page.end();
            page.indent = page.indent.saturating_sub(2);
        }
        _ => {}
    }
}

fn put_names_below(page: &mut Page<'_>, names: Cursor<'_>) {
    page.indent = page.indent.saturating_add(2);
    put_name_lines(page, names);
    page.indent = page.indent.saturating_sub(2);
}

fn put_titled_reasons(page: &mut Page<'_>, title: &str, reasons: Option<Cursor<'_>>) {
    if let Some(reasons) = reasons {
        page.line(reasons, title);
        page.indent = page.indent.saturating_add(2);
        put_reasons(page, reasons);
        page.indent = page.indent.saturating_sub(2);
    }
}

/// Prints an IssuingDistributionPoint, which says what certificates a revocation list covers.
pub fn put_issuing_point(page: &mut Page<'_>, point: Cursor<'_>) {
    put_point_name(page, point.at("distributionPoint"));
    put_flag(
        page,
        "Only User Certificates",
        point.at("onlyContainsUserCerts"),
    );
    put_flag(
        page,
        "Only CA Certificates",
        point.at("onlyContainsCACerts"),
    );
    let reasons = point.at("onlySomeReasons");
    put_titled_reasons(page, "Only Some Reasons:", reasons);
    put_flag(page, "Indirect CRL", point.at("indirectCRL"));
    let attributes = point.at("onlyContainsAttributeCerts");
    put_flag(page, "Only Attribute Certificates", attributes);
}

fn put_flag(page: &mut Page<'_>, words: &str, flag: Option<Cursor<'_>>) {
    if let Some(element) = flag {
        if element.boolean() == Some(true) {
            page.line(element, words);
        }
    }
}

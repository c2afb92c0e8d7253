//! Comments that say which types the open types of a module have.

use asn1_syntax::comment_text;

const TYPE: &str = "Schema type:";

const OPENS: &str = "Schema opens:";

/// Whether a line of a comment begins with `Schema type:` or `Schema opens:`. The comment marks
/// must already be removed from the line.
pub fn is_schema_line(line: &str) -> bool {
    line.starts_with(TYPE) || line.starts_with(OPENS)
}

/// The name after `Schema opens:` in the comments in front of a component. It is the name of the
/// open type that the component has, or that the string of the component contains.
pub fn opens<'a>(comments: &'a str) -> Option<&'a str> {
    for line in comments.lines() {
        if let Some(rest) = comment_text(line).strip_prefix(OPENS) {
            return Some(rest.trim());
        }
    }
    None
}

/// Parses a comment line of the form `Schema type: TYPE in NAME`. Returns TYPE, and the name of an
/// open type, NAME. NAME is empty if `in NAME` is missing. `None` if the line is not of this form.
pub fn type_in<'a>(line: &'a str) -> Option<(&'a str, &'a str)> {
    let rest = comment_text(line).strip_prefix(TYPE)?;
    match rest.trim().split_once(" in ") {
        Some((name, table)) => Some((name.trim(), table.trim())),
        None => Some((rest.trim(), "")),
    }
}

/// The name of the type after `Schema type:` in the comments in front of a component. The component
/// has this type in place of the written one.
pub fn own_type<'a>(comments: &'a str) -> Option<&'a str> {
    for line in comments.lines() {
        if let Some((name, _)) = type_in(line) {
            return Some(name);
        }
    }
    None
}

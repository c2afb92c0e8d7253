//! Makes doc comments of the comments in a module.

use super::directive::is_directive;
use asn1_check::{Module, recursive_name};
use asn1_syntax::{Component, Item, comment_text};
use std::alloc::{AllocError, Global};

/// The doc comment of the item with this name. It is the comment in front of the name in the
/// module, without comment marks and directives. The part of the comment that is on the line of the
/// previous item is left out, since it belongs to that item.
///
/// If nothing is left, the doc comment is `kind` and the name, such as "The field `version`.". Each
/// line begins with `indent`.
pub fn doc_of(
    alloc: Global,
    name: &Item<'_>,
    indent: &str,
    kind: &str,
) -> Result<String, AllocError> {
    let own = match name.comments.split_once('\n') {
        Some((_, own)) => own,
        None => name.comments,
    };
    let mut doc = String::new(alloc);
    for line in own.lines() {
        let line = comment_text(line);
        if !line.is_empty() && !is_directive(line) {
            push_line(&mut doc, indent, line)?;
        }
    }
    if doc.is_empty() {
        let text = name.text;
        let line = format!(in alloc; "{kind} `{text}`.")?;
        push_line(&mut doc, indent, line.as_str())?;
    }
    Ok(doc)
}

const KEPT: &str = "the element is kept as it was read. `decode_as` of `AnyRef` decodes it.";

/// The doc comment of a component or alternative. `kind` says which of them it is. If the type of
/// the component contains itself, the doc comment says that decoding keeps the element as it was
/// read.
pub fn component_doc(
    alloc: Global,
    module: &Module<'_>,
    component: &Component<'_>,
    kind: &str,
) -> Result<String, AllocError> {
    let mut doc = doc_of(alloc, &component.name, "    ", kind)?;
    if let Some(of) = recursive_name(module, component.of) {
        let line = format!(in alloc; "`{of}` contains itself here: {KEPT}")?;
        push_line(&mut doc, "    ", line.as_str())?;
    }
    Ok(doc)
}

fn push_line(doc: &mut String, indent: &str, line: &str) -> Result<(), AllocError> {
    doc.push_str(indent)?;
    doc.push_str("/// ")?;
    doc.push_str(line)?;
    doc.push('\n')
}

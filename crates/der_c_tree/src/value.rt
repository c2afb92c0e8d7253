//! Printing the text for an element.

use ber::Universal;
use der_print::{Printer, Space, put_identifier, put_name, put_plain, put_plain_element};
use schema_cursor::Cursor;
use schema_types::NodeKind;

/// Prints a text for `element`. The text is:
///
/// - for a primitive element, its value;
/// - for a distinguished name, the name;
/// - for any other element that begins with an OBJECT IDENTIFIER, this OBJECT IDENTIFIER;
/// - for any other element, empty.
pub fn put_value(printer: &mut Printer<Space<'_>>, element: Cursor<'_>) {
    if !element.is_constructed() {
        match element.kind() {
            Some(NodeKind::Universal(_)) => put_plain(printer, element),
            _ => put_plain_element(printer, element),
        }
        return;
    }
    if element.type_name() == Some("Name") {
        put_name(&mut printer.out, element);
        return;
    }
    if let Some(first) = element.children().next()
        && first.universal() == Some(Universal::ObjectIdentifier)
        && !first.is_constructed()
    {
        put_identifier(&mut printer.out, first.contents());
    }
}

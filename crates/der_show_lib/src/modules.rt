//! Makes tables of types from ASN.1 modules of the user.

use asn1_syntax::{Failure, Refusal, own_names};
use asn1_table::{Wrong, table_of};
use std::alloc::{AllocError, Global};

/// The reason why no table of types could be made.
#[derive(Drop)]
pub enum NoTable {
    /// A module is not accepted, or a file cannot be read. The field is the line to print, which
    /// says what is wrong.
    Line(String),
    /// An allocation failed.
    OutOfMemory,
}

impl From<AllocError> for NoTable {
    fn from(_error: AllocError) -> Self {
        NoTable::OutOfMemory
    }
}

/// Makes a table of types for the type `type_name`, and returns the octets of the table. `text` has
/// one or more ASN.1 modules, which may import from each other. `name` is the name of the file with
/// `text`; messages show it.
pub fn table_of_modules(
    alloc: Global,
    name: &str,
    text: &str,
    type_name: &str,
) -> Result<Vec<u8>, NoTable> {
    let names = match own_names(alloc, text) {
        Ok(names) => names,
        Err(Failure::Refused(refusal) | Failure::Unsupported(refusal)) => {
            return Err(line_of(alloc, &refusal, name, text));
        }
        Err(Failure::OutOfMemory) => return Err(NoTable::OutOfMemory),
    };
    let whole = format!(in alloc; "{text}\n{}", names.as_str())?;
    match table_of(alloc, whole.as_str(), &[type_name]) {
        Ok(table) => Ok(table.octets),
        Err(Wrong::Refused(refusal) | Wrong::Unsupported(refusal)) => {
            Err(line_of(alloc, &refusal, name, text))
        }
        Err(Wrong::OutOfMemory) => Err(NoTable::OutOfMemory),
        Err(Wrong::TooLarge | Wrong::NoTable(_)) => {
            let line = format!(in alloc; "{name}: no table can be made of its types\n")?;
            Err(NoTable::Line(line))
        }
    }
}

fn line_of(alloc: Global, refusal: &Refusal<'_>, name: &str, text: &str) -> NoTable {
    match refusal.line(alloc, name, text) {
        Ok(line) => NoTable::Line(line),
        Err(_) => NoTable::OutOfMemory,
    }
}

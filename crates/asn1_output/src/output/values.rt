//! Makes the Rust file with the values of a module.

use super::definition::Definition;
use super::docs::doc_of;
use super::file::OutputFile;
use super::imports::{push_ghost_use, words_of};
use super::rust_names::snake_name;
use super::taken::{ALONE, Taken};
use super::template::{Places, fill};
use asn1_check::{Constant, Module};
use asn1_syntax::ValueAssignment;
use asn1_table::oid_octets;
use std::alloc::{AllocError, Global};
use std::collections::HashSet;
use std::fmt::Write;

const GHOST_USES: &str = "ghost use Rattle.std.specs.Prelude.{◌≡◌, ◌∷◌, []};
";

const USES: &str = "
use der_asn1::ObjectIdentifierRef;
";

const IDENTIFIER: &str = "
@Dpub fn @N() -> ObjectIdentifierRef<'static>
    ensures { result.octets.now ≡ @A }
{
    let Some(value) = ObjectIdentifierRef::new(&[@O]) else {
        unreachable!()
    };
    value
}
";

const NAME_OF: &str = "
/// The name of an OBJECT IDENTIFIER in the ASN.1 module, or the first of several; `None` if it
/// has no name there.
pub fn name_of(oid: &ObjectIdentifierRef<'_>) -> Option<&'static str> {
    match oid.octets() {
";

/// The least arc of an OBJECT IDENTIFIER that is too large for the proof checker: it cannot compute
/// the octets of this arc.
const LARGE: u64 = 1048576;

/// The name of the file with the values, without its extension. No definition has a file of this
/// name.
pub fn values_name(definitions: &Vec<Definition>) -> &'static str {
    for definition in definitions.iter() {
        if definition.file.as_str() == "values" {
            return "module_values";
        }
    }
    "values"
}

/// The Rust file with the values of a module. It has a constant for each number and each BOOLEAN,
/// and a function for each OBJECT IDENTIFIER. `None` if the module has none of these values.
pub fn values_file(
    alloc: Global,
    module: &Module<'_>,
    definitions: &Vec<Definition>,
) -> Result<Option<OutputFile>, AllocError> {
    let texts = texts_of(alloc, module)?;
    if texts.constants.is_empty() && texts.functions.is_empty() {
        return Ok(None);
    }
    Ok(Some(file_of(alloc, module, definitions, &texts)?))
}

// The texts of the values of a module.
#[derive(Drop)]
struct Texts {
    constants: String,
    functions: String,
}

fn texts_of(alloc: Global, module: &Module<'_>) -> Result<Texts, AllocError> {
    let mut texts = Texts {
        constants: String::new(alloc),
        functions: String::new(alloc),
    };
    let names = value_names(alloc, module)?;
    for (assigned, name) in module.values.iter().zip(names.iter()) {
        let name = name.as_str();
        match constant_of(module, assigned) {
            Some(Constant::ObjectIdentifier(arcs)) => {
                push_identifier(alloc, &mut texts.functions, assigned, name, arcs)?;
            }
            Some(constant) => {
                push_constant(alloc, &mut texts.constants, assigned, name, constant)?;
            }
            None => {}
        }
    }
    Ok(texts)
}

fn file_of(
    alloc: Global,
    module: &Module<'_>,
    definitions: &Vec<Definition>,
    texts: &Texts,
) -> Result<OutputFile, AllocError> {
    let name = values_name(definitions);
    let mut file = OutputFile {
        path: format!(in alloc; "src/asn1/{name}.rt")?,
        text: String::new(alloc),
    };
    push_texts(alloc, &mut file.text, module, texts)?;
    Ok(file)
}

fn push_texts(
    alloc: Global,
    out: &mut String,
    module: &Module<'_>,
    texts: &Texts,
) -> Result<(), AllocError> {
    let of = module.name.text;
    write!(
        out,
        "//! Written by asn1_compile from the module {of}: change the module instead.\n//!\n//! The values of the module.\n"
    )?;
    if texts.functions.is_empty() {
        return out.push_str(texts.constants.as_str());
    }
    out.push_str(GHOST_USES)?;
    let arcs = "Rattle.der_asn1.specs.Arcs";
    let words = words_of(alloc, texts.functions.as_str())?;
    push_ghost_use(alloc, out, &words, arcs, "oid_octets")?;
    out.push_str(USES)?;
    out.push_str(texts.constants.as_str())?;
    out.push_str(texts.functions.as_str())?;
    push_name_of(alloc, out, module)
}

// What an assigned value is.
fn constant_of<'m>(module: &'m Module<'_>, assigned: &ValueAssignment<'_>) -> Option<&'m Constant> {
    module.constants.find(assigned.name.text)
}

/// Whether a value is written to the file, as a constant or as a function.
pub fn is_written(module: &Module<'_>, assigned: &ValueAssignment<'_>) -> bool {
    match constant_of(module, assigned) {
        Some(constant) => !matches!(constant, Constant::Other),
        None => false,
    }
}

/// The Rust names of the values of a module, in the order of the values. The name is empty for a
/// value that is not written.
pub fn value_names(alloc: Global, module: &Module<'_>) -> Result<Vec<String>, AllocError> {
    let mut names = Vec::new(alloc);
    let mut taken = Taken::new(alloc);
    taken.take(alloc, "name_of", ALONE)?;
    for assigned in module.values.iter() {
        if is_written(module, assigned) {
            let name = snake_name(alloc, assigned.name.text)?;
            names.push(taken.take_free(alloc, name.as_str(), ALONE, "_")?)?;
        } else {
            names.push(String::new(alloc))?;
        }
    }
    Ok(names)
}

fn push_constant(
    alloc: Global,
    out: &mut String,
    assigned: &ValueAssignment<'_>,
    name: &str,
    constant: &Constant,
) -> Result<(), AllocError> {
    let doc = doc_of(alloc, &assigned.name, "", "The value")?;
    let name = constant_name(alloc, name)?;
    let (doc, name) = (doc.as_str(), name.as_str());
    match constant {
        Constant::Number(number) => { write!(out, "\n{doc}pub const {name}: u64 = {number};\n") }
        Constant::Negative(number) => { write!(out, "\n{doc}pub const {name}: i64 = -{number};\n") }
        Constant::Boolean(is_true) => {
            write!(out, "\n{doc}pub const {name}: bool = {is_true};\n")
        }
        _ => Ok(()),
    }
}

// The name in words of upper case with `_` between them.
fn constant_name(alloc: Global, name: &str) -> Result<String, AllocError> {
    let mut text = String::new(alloc);
    for character in name.chars() {
        text.push(character.to_ascii_uppercase())?;
    }
    Ok(text)
}

// A value that is an OBJECT IDENTIFIER.
#[derive(Drop)]
struct IdentifierText<'v> {
    doc: String,
    name: String,
    arcs: &'v Vec<u64>,
    octets: Vec<u8>,
}

fn push_identifier(
    alloc: Global,
    out: &mut String,
    assigned: &ValueAssignment<'_>,
    name: &str,
    arcs: &Vec<u64>,
) -> Result<(), AllocError> {
    let doc = doc_of(alloc, &assigned.name, "", "The OBJECT IDENTIFIER")?;
    let text = IdentifierText {
        doc,
        name: String::from_str(alloc, name)?,
        arcs,
        octets: oid_octets(alloc, arcs)?,
    };
    fill(out, IDENTIFIER, &text)
}

impl<'v> Places for IdentifierText<'v> {
    fn push_place(&self, out: &mut String, letter: char) -> Result<(), AllocError> {
        match letter {
            'D' => out.push_str(self.doc.as_str()),
            'N' => out.push_str(self.name.as_str()),
            'A' if are_small(self.arcs) => push_arcs(out, self.arcs),
            'A' => push_list(out, &self.octets),
            'O' => push_octets(out, &self.octets),
            _ => Ok(()),
        }
    }
}

// Whether the checker can compute octets from these arcs.
fn are_small(arcs: &Vec<u64>) -> bool {
    for arc in arcs.iter() {
        if *arc >= LARGE {
            return false;
        }
    }
    true
}

// Adds what the clause of an OBJECT IDENTIFIER says of its octets: that they are those of its arcs.
fn push_arcs(out: &mut String, arcs: &Vec<u64>) -> Result<(), AllocError> {
    out.push_str("oid_octets (")?;
    for arc in arcs.iter() {
        write!(out, "{arc} ∷ ")?;
    }
    out.push_str("[])")
}

/// Appends octets to `out`, written as a list for a contract.
pub fn push_list(out: &mut String, octets: &Vec<u8>) -> Result<(), AllocError> {
    for octet in octets.iter() {
        write!(out, "{octet} ∷ ")?;
    }
    out.push_str("[]")
}

/// Appends octets to `out`, written as numbers with commas in between.
pub fn push_octets(out: &mut String, octets: &Vec<u8>) -> Result<(), AllocError> {
    for (count, octet) in octets.iter().enumerate() {
        if count > 0 {
            out.push_str(", ")?;
        }
        write!(out, "{octet:#04X}")?;
    }
    Ok(())
}

// Adds the function that returns the names of all OBJECT IDENTIFIERs.
fn push_name_of(alloc: Global, out: &mut String, module: &Module<'_>) -> Result<(), AllocError> {
    out.push_str(NAME_OF)?;
    let mut before: HashSet<&[u64]> = HashSet::new(alloc);
    for assigned in module.values.iter() {
        if let Some(Constant::ObjectIdentifier(arcs)) = constant_of(module, assigned)
            && before.insert(arcs.as_slice())?
        {
            push_name(alloc, out, arcs, assigned.name.text)?;
        }
    }
    out.push_str("        _ => None,\n    }\n}\n")
}

// Adds the arm for one OBJECT IDENTIFIER.
fn push_name(
    alloc: Global,
    out: &mut String,
    arcs: &Vec<u64>,
    name: &str,
) -> Result<(), AllocError> {
    let octets = oid_octets(alloc, arcs)?;
    out.push_str("        [")?;
    push_octets(out, &octets)?;
    write!(out, "] => Some(\"{name}\"),\n")
}

//! Rust files to be written.

use super::definition::{Definition, DefinitionKind};
use super::imports::{push_ghost_use, push_use, words_of};
use super::sources::Sources;
use super::words::{DER, DER_ASN1};
use super::wrap::push_wrapped;
use asn1_check::Module;
use asn1_syntax::NameIndex;
use std::alloc::{AllocError, Global};
use std::fmt::Write;

/// A file that the compiler writes.
#[derive(Drop)]
pub struct OutputFile {
    /// The path of the file, relative to the folder of the crate.
    pub path: String,
    /// The text of the file.
    pub text: String,
}

const GHOST_FALSE: &str = "ghost use Rattle.std.specs.Prelude.{◌≡◌, false};
";

const GHOST_CHOICE: &str = "ghost use Rattle.std.specs.Prelude.{◌↔◌, IsTrue, false};
";

const GHOST_LIST: &str = "ghost use Rattle.std.specs.Prelude.{◌≡◌, ◌∷◌, []};
";

const GHOST_BOTH: &str = "ghost use Rattle.std.specs.Prelude.{◌≡◌, ◌∷◌, [], false};
";

const MEANING: &str = "alternative
any_element
choice_is_item
choice_item
choice_of
defaulted
either
field
is_lawful_item
optional
renamed
seen
sequence
sequence_item
two_fields";

const TUPLE_FIELDS: &str = "eight_fields
eleven_fields
five_fields
four_fields
nine_fields
seven_fields
six_fields
ten_fields
three_fields
twelve_fields";

/// Makes the file for a definition, with the imports that its text needs.
pub fn file_of(
    alloc: Global,
    module: &Module<'_>,
    krate: &str,
    definition: &Definition,
    sources: &Sources<'_>,
) -> Result<OutputFile, AllocError> {
    let file = definition.file.as_str();
    let mut file = OutputFile {
        path: format!(in alloc; "src/asn1/{file}.rt")?,
        text: String::new(alloc),
    };
    push_file(alloc, &mut file.text, module, krate, definition, sources)?;
    Ok(file)
}

fn push_file(
    alloc: Global,
    out: &mut String,
    module: &Module<'_>,
    krate: &str,
    definition: &Definition,
    sources: &Sources<'_>,
) -> Result<(), AllocError> {
    let (of, name) = (module.name.text, definition.name.as_str());
    write!(
        out,
        "//! Written by asn1_compile from the module {of}: change the module instead.\n//!\n//! {name}.\n"
    )?;
    let code = code_of(alloc, definition.body.as_str())?;
    let words = words_of(alloc, code.as_str())?;
    push_ghost_lines(alloc, out, krate, definition, code.as_str(), &words)?;
    out.push('\n')?;
    sources.push_own(alloc, out, definition, &words)?;
    push_uses(alloc, out, &words, sources)?;
    push_wrapped(alloc, out, definition.body.as_str())
}

// Adds the imports from other crates, and an empty line.
fn push_uses(
    alloc: Global,
    out: &mut String,
    words: &NameIndex<'_>,
    sources: &Sources<'_>,
) -> Result<(), AllocError> {
    push_use(alloc, out, words, "der", DER)?;
    push_use(alloc, out, words, "der_asn1", DER_ASN1)?;
    sources.push_imported(alloc, out, words)?;
    push_use(alloc, out, words, "std::alloc", "Global")?;
    out.push('\n')
}

// The lines of a text that are no comments.
fn code_of(alloc: Global, body: &str) -> Result<String, AllocError> {
    let mut code = String::new(alloc);
    for line in body.lines() {
        if !line.trim().starts_with("//") {
            code.push_str(line)?;
            code.push('\n')?;
        }
    }
    Ok(code)
}

fn push_ghost_lines(
    alloc: Global,
    text: &mut String,
    krate: &str,
    definition: &Definition,
    code: &str,
    words: &NameIndex<'_>,
) -> Result<(), AllocError> {
    match definition.kind {
        DefinitionKind::Sequence => text.push_str(sequence_words(code, words))?,
        DefinitionKind::List => text.push_str(GHOST_FALSE)?,
        DefinitionKind::Known if code.contains("∷") => {
            text.push_str("ghost use Rattle.std.specs.Prelude.{◌∷◌, []};\n")?;
        }
        DefinitionKind::Known => text.push_str("ghost use Rattle.std.specs.Prelude.{[]};\n")?,
        DefinitionKind::Enumeration => text.push_str(
            "ghost use Rattle.std.specs.Prelude.{◌==◌, Option, Some, None, if◌then◌else◌};\n",
        )?,
        _ if code.contains("↔") => text.push_str(GHOST_CHOICE)?,
        _ => push_ghost_use(alloc, text, words, "Rattle.std.specs.Prelude", "false")?,
    }
    push_ghost_uses(alloc, text, words)?;
    match definition.kind {
        DefinitionKind::Choice => {
            let either = "Rattle.der_asn1.specs.declared.fields.either.Either.TheVariants";
            push_ghost_use(alloc, text, words, either, "First\nSecond")?;
            push_variants(text, krate, definition)
        }
        DefinitionKind::Enumeration => push_variants(text, krate, definition),
        _ => Ok(()),
    }
}

// What the clauses of a SEQUENCE import from std.
fn sequence_words(code: &str, words: &NameIndex<'_>) -> &'static str {
    match (code.contains("∷"), words.has("false")) {
        (true, true) => GHOST_BOTH,
        (true, false) => GHOST_LIST,
        (false, true) => GHOST_FALSE,
        (false, false) => "ghost use Rattle.std.specs.Prelude.{◌≡◌};\n",
    }
}

// Adds the imports for clauses of any definition.
fn push_ghost_uses(
    alloc: Global,
    text: &mut String,
    words: &NameIndex<'_>,
) -> Result<(), AllocError> {
    push_ghost_use(
        alloc,
        text,
        words,
        "Rattle.std.proofs.Common",
        "arith\nrefl",
    )?;
    push_ghost_use(
        alloc,
        text,
        words,
        "Rattle.der.specs.Prelude",
        "Set\nmap_ok",
    )?;
    let integer = "Rattle.der_asn1.specs.Integer";
    push_ghost_use(alloc, text, words, integer, "integer_octets")?;
    push_ghost_use(
        alloc,
        text,
        words,
        "Rattle.der_asn1.specs.Item",
        "decodes_same",
    )?;
    let defaulted_to = "Rattle.der_asn1.specs.DefaultedTo";
    push_ghost_use(alloc, text, words, defaulted_to, "defaulted_to")?;
    push_ghost_use(alloc, text, words, "Rattle.der_asn1.specs.Meaning", MEANING)?;
    let tuples = "Rattle.der_asn1.specs.TupleFields";
    push_ghost_use(alloc, text, words, tuples, TUPLE_FIELDS)
}

// Adds the import of the variants that the definition defines.
fn push_variants(
    text: &mut String,
    krate: &str,
    definition: &Definition,
) -> Result<(), AllocError> {
    let (file, name) = (definition.file.as_str(), definition.name.as_str());
    write!(
        text,
        "ghost use Rattle.{krate}.specs.declared.asn1.{file}.{name}.TheVariants as variant;\n"
    )
}

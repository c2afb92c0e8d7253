//! Makes the root file of the compiled types, the root file of the crate, and the files with
//! proofs.

use super::definition::{Definition, Proof};
use super::file::OutputFile;
use super::imports::{push_names, push_use, words_of};
use std::alloc::{AllocError, Global};
use std::fmt::Write;

const LIBRARY: &str = "//! Types that are compiled from ASN.1.
#![tactic(auto)]

pub mod asn1;
";

/// The file `src/asn1.rt`. It declares the file of each definition as a Rust module, and exports
/// the public types.
pub fn root_of(
    alloc: Global,
    module: &str,
    all: &Vec<Definition>,
    values: Option<&str>,
) -> Result<OutputFile, AllocError> {
    let mut file = OutputFile {
        path: String::from_str(alloc, "src/asn1.rt")?,
        text: String::new(alloc),
    };
    push_mods(&mut file.text, module, all, values)?;
    file.text.push('\n')?;
    push_exports(alloc, &mut file.text, all)?;
    Ok(file)
}

fn push_mods(
    out: &mut String,
    module: &str,
    all: &Vec<Definition>,
    values: Option<&str>,
) -> Result<(), AllocError> {
    write!(
        out,
        "//! Written by asn1_compile from the module {module}: change the module instead.\n//!\n//! The types of the module.\n\n"
    )?;
    for definition in all.iter() {
        let file = definition.file.as_str();
        write!(out, "mod {file};\n")?;
    }
    match values {
        Some(file) => write!(out, "pub mod {file};\n"),
        None => Ok(()),
    }
}

fn push_exports(alloc: Global, out: &mut String, all: &Vec<Definition>) -> Result<(), AllocError> {
    for definition in all.iter() {
        if definition.is_public {
            push_export(alloc, out, definition)?;
        }
    }
    Ok(())
}

fn push_export(alloc: Global, out: &mut String, definition: &Definition) -> Result<(), AllocError> {
    out.push_str("pub ")?;
    let (body, file) = (definition.body.as_str(), definition.file.as_str());
    let words = words_of(alloc, body)?;
    push_use(alloc, out, &words, file, definition.names.as_str())
}

/// The file with the proof of a function. The type of the definition implements the function for
/// the trait `Encode`.
pub fn proof_file(
    alloc: Global,
    krate: &str,
    definition: &Definition,
    proof: &Proof,
) -> Result<OutputFile, AllocError> {
    let (name, file) = (definition.name.as_str(), definition.file.as_str());
    let (function, text) = (proof.function, proof.text.as_str());
    Ok(OutputFile {
        path: format!(in alloc; "proofs/asn1/{file}/{name}Encode/{function}/Answers.antt")?,
        text: format!(in alloc;
            "-- Written by asn1_compile: change the module instead.\nuse Rattle.{krate}.proofs.asn1.{file}.{name}Encode.{function}.Goals as goal\n{text}"
        )?,
    })
}

/// The file `src/lib.rt`, for a crate that has nothing but the compiled types.
pub fn library_of(alloc: Global, all: &Vec<Definition>) -> Result<OutputFile, AllocError> {
    let mut file = OutputFile {
        path: String::from_str(alloc, "src/lib.rt")?,
        text: String::from_str(alloc, LIBRARY)?,
    };
    let names = public_names(alloc, all)?;
    if !names.is_empty() {
        file.text.push_str("\npub ")?;
        push_names(alloc, &mut file.text, "asn1", names.as_str())?;
    }
    Ok(file)
}

// All public names, each on its line.
fn public_names(alloc: Global, all: &Vec<Definition>) -> Result<String, AllocError> {
    let mut names = String::new(alloc);
    for definition in all.iter() {
        if definition.is_public {
            names.push_str(definition.names.as_str())?;
        }
    }
    Ok(names)
}

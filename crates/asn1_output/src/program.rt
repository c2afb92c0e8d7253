//! The compiler as a program. It is a function of its arguments, the files and its outputs.

use crate::command::CompileCommand;
use crate::compiled::Compiled;
use crate::library::{Joined, paths_beneath};
use crate::output::{OutputFile, compile, read_external};
use crate::schema::run_schema;
use anyhow::{Error, Result};
use asn1_check::External;
use asn1_syntax::{Failure, Position, Refusal, Warning};
use clap::error::ErrorKind;
use std::alloc::{AllocError, Global};
use std::env::Args;
use std::io::Write;
use std::rt::Files;
use std::{fs, io, str};

const VERSION: &str = "0.3.0";

/// Runs the program with the arguments `given`. The first argument is the name of the program.
///
/// Without `--schema`, the program compiles the module in a file, and writes its types to the
/// folder of a crate. Imported modules are in one of these places:
///
/// - in another crate, as `--with` says. The module of one `--with` may import from the modules of
///   the `--with` options before it.
/// - in a file beneath the folder that `--modules` names. These modules are compiled into the same
///   crate.
///
/// With `--schema`, the program compiles the modules in all files, and writes a table of their
/// types. It prints a line to `out` for each type, such as `MODULE.NAME 12`: the name of the
/// module, the name of the type, and the index of its node in the table.
///
/// Warnings and errors are printed to `errors`. Returns the exit status:
///
/// - 0 on success, or if the help or the version is printed to `out`;
/// - 1 if a file cannot be read or written, or if a module is refused. A module is refused if it is
///   not valid, if nothing of it is supported, or if a type that `--only` names is not supported.
///   Nothing is written for a refused module.
/// - 2 if the arguments after the name of the program are not a command.
///
/// Fails if `given` is an error, if an allocation fails, or if writing to `out` or `errors` fails.
pub fn run_compile<R: Files + AllocGlobal + Clone + Drop, W: Write, E: Write>(
    rt: &R,
    given: io::Result<Args>,
    out: &mut W,
    errors: &mut E,
) -> Result<u8> {
    let words: Vec<String> = given?.collect(rt.alloc())?;
    let error = match CompileCommand::parse(rt.alloc(), VERSION, &words) {
        Ok(command) if !command.schema.is_empty() => {
            return run_schema(rt, &command, out, errors);
        }
        Ok(command) => return run_command(rt, &command, errors),
        Err(error) => error,
    };
    match error.kind() {
        ErrorKind::OutOfMemory => Err(Error::from(error)),
        ErrorKind::DisplayHelp | ErrorKind::DisplayVersion => say_error(&error, 0, out),
        _ => say_error(&error, 2, errors),
    }
}

// Prints why there is no command to run, and returns `status`.
fn say_error<W: Write>(error: &clap::Error, status: u8, out: &mut W) -> Result<u8> {
    write!(out, "{error}")?;
    out.flush()?;
    Ok(status)
}

// Reads the modules of other crates, and that in the file.
fn run_command<R: Files + AllocGlobal + Clone + Drop, W: Write>(
    rt: &R,
    command: &CompileCommand<'_>,
    out: &mut W,
) -> Result<u8> {
    let mut texts = Vec::new(rt.alloc());
    for with in command.with.iter() {
        match read_text(rt, with.file) {
            Ok(text) => texts.push(text)?,
            Err(error) => return say_file(with.file, &error, out),
        }
    }
    let text = match read_text(rt, command.file) {
        Ok(text) => text,
        Err(error) => return say_file(command.file, &error, out),
    };
    let mut joined = Joined::new(rt.alloc(), command.file, text.as_str())?;
    if let Some(folder) = command.modules
        && let Err(error) = add_imports(rt, folder, &texts, text.as_str(), &mut joined)
    {
        return say_file(folder, &error, out);
    }
    run_with(rt, command, &texts, &joined, out)
}

/// Appends to `joined` the files with the modules from which `text` imports. The files are searched
/// beneath the folder `folder`. A module that is in one of the `given` texts is not appended.
pub fn add_imports<R: Files + AllocGlobal + Clone + Drop>(
    rt: &R,
    folder: &str,
    given: &Vec<String>,
    text: &str,
    joined: &mut Joined,
) -> io::Result<()> {
    let paths = paths_beneath(rt, folder)?;
    let mut texts = Vec::new(rt.alloc());
    for path in paths.iter() {
        texts.push(read_text(rt, path.as_str())?)?;
    }
    joined.add_imports(rt.alloc(), text, given, &paths, &texts)?;
    Ok(())
}

/// Prints the error of a file or folder that cannot be read or written. Returns the exit status 1.
pub fn say_file<W: Write>(path: &str, error: &io::Error, out: &mut W) -> Result<u8> {
    write!(out, "error: {path}: {error}\n")?;
    out.flush()?;
    Ok(1)
}

/// Reads the text of a file. A file that is not UTF-8 is read as ISO 8859-1.
pub fn read_text<R: Files + AllocGlobal>(rt: &R, path: &str) -> io::Result<String> {
    let octets = fs::read(rt, path)?;
    match str::from_utf8(octets.as_slice()) {
        Ok(text) => Ok(String::from_str(rt.alloc(), text)?),
        Err(_) => Ok(latin_text(rt.alloc(), &octets)?),
    }
}

// Octets as characters of ISO 8859-1, which old modules have in comments.
fn latin_text(alloc: Global, octets: &Vec<u8>) -> Result<String, AllocError> {
    let mut text = String::new(alloc);
    for octet in octets.iter() {
        text.push(char::from(*octet))?;
    }
    Ok(text)
}

fn run_with<'t, R: Files + AllocGlobal, W: Write>(
    rt: &R,
    command: &CompileCommand<'_>,
    others: &'t Vec<String>,
    joined: &'t Joined,
    out: &mut W,
) -> Result<u8> {
    let mut externals: Vec<External<'t>> = Vec::new(rt.alloc());
    for (with, other) in command.with.iter().zip(others.iter()) {
        let other = other.as_str();
        if let Err(failure) = add_external(rt.alloc(), &mut externals, other, with.krate) {
            let joined = Joined::new(rt.alloc(), with.file, other)?;
            return say_failure(rt, &failure, &joined, out);
        }
    }
    run_compiler(rt, command, &externals, joined, out)
}

/// Reads a module that is compiled in the crate `krate`, and appends it to `externals`. The module
/// may import from the modules that are already in `externals`.
fn add_external<'t>(
    alloc: Global,
    externals: &mut Vec<External<'t>>,
    text: &'t str,
    krate: &str,
) -> Result<(), Failure<'t>> {
    let external = read_external(alloc, externals, text, krate)?;
    externals.push(external)?;
    Ok(())
}

/// Compiles the module at the beginning of `joined`, and writes the files of the crate.
fn run_compiler<'t, R: Files + AllocGlobal, W: Write>(
    rt: &R,
    command: &CompileCommand<'_>,
    externals: &Vec<External<'t>>,
    joined: &'t Joined,
    out: &mut W,
) -> Result<u8> {
    match compile(
        rt.alloc(),
        externals,
        joined.text.as_str(),
        command.crate_name(),
        command.only.as_slice(),
    ) {
        Ok(compiled) => write_compiled(rt, command, &compiled, joined, out),
        Err(failure) => say_failure(rt, &failure, joined, out),
    }
}

fn write_compiled<R: Files + AllocGlobal, W: Write>(
    rt: &R,
    command: &CompileCommand<'_>,
    compiled: &Compiled<'_>,
    joined: &Joined,
    out: &mut W,
) -> Result<u8> {
    match write_files(rt, command.out, &compiled.files) {
        Ok(()) => {
            let warnings = warnings_of(rt.alloc(), compiled, joined)?;
            say(warnings.as_str(), 0, out)
        }
        Err(error) => say_file(command.out, &error, out),
    }
}

/// All warnings of a compiled module, one on each line.
fn warnings_of(
    alloc: Global,
    compiled: &Compiled<'_>,
    joined: &Joined,
) -> Result<String, AllocError> {
    let mut lines = left_out_of(alloc, compiled, joined)?;
    push_warnings(alloc, &compiled.warnings, joined, &mut lines)?;
    Ok(lines)
}

/// Appends a line to `lines` for each of `warnings`. The warnings must be sorted by their offsets
/// in the joined text.
pub fn push_warnings(
    alloc: Global,
    warnings: &Vec<Warning<'_>>,
    joined: &Joined,
    lines: &mut String,
) -> Result<(), AllocError> {
    let (mut part, mut offset) = (0usize, 0usize);
    let mut position = Position::of(&[], 0);
    for warning in warnings.iter() {
        let number = joined.part_at(warning.offset);
        if number != part {
            part = number;
            offset = joined.start(number);
            position = Position::of(&[], 0);
        }
        let text = joined.text.as_bytes();
        position = position.after(text.get(offset..warning.offset).unwrap_or(&[]));
        offset = warning.offset;
        let line = warning.line(alloc, joined.path(number), position)?;
        lines.push_str(line.as_str())?;
    }
    Ok(())
}

// A line for each alternative that is left out.
fn left_out_of(
    alloc: Global,
    compiled: &Compiled<'_>,
    joined: &Joined,
) -> Result<String, AllocError> {
    let mut lines = String::new(alloc);
    for left_out in compiled.left_out.iter() {
        let expected = "a type that the library knows; this alternative is left out";
        let line = line_of(alloc, &Refusal::of(*left_out, expected), joined)?;
        lines.push_str("warning: ")?;
        lines.push_str(line.as_str())?;
    }
    Ok(lines)
}

/// The error message of a refusal, as one line. It begins with the path of the file, the line and
/// the column.
pub fn line_of(
    alloc: Global,
    refusal: &Refusal<'_>,
    joined: &Joined,
) -> Result<String, AllocError> {
    let number = joined.part_at(refusal.offset);
    let inside = Refusal {
        offset: refusal.offset.saturating_sub(joined.start(number)),
        ..*refusal
    };
    inside.line(alloc, joined.path(number), joined.text_from(number))
}

/// Prints why a module is refused, and returns the exit status 1.
fn say_failure<R: AllocGlobal, W: Write>(
    rt: &R,
    failure: &Failure<'_>,
    joined: &Joined,
    out: &mut W,
) -> Result<u8> {
    match failure {
        Failure::Refused(refusal) | Failure::Unsupported(refusal) => {
            let line = line_of(rt.alloc(), refusal, joined)?;
            say(line.as_str(), 1, out)
        }
        Failure::OutOfMemory => Err(Error::from(AllocError)),
    }
}

/// Writes the files of a crate beneath the folder of the crate. It removes the files in `src/asn1`
/// and `specs/asn1`, which an earlier run has written. It keeps the files in `proofs/asn1`, since
/// some of them may be written by hand. It writes `src/lib.rt` only if the crate does not have this
/// file.
fn write_files<R: Files + AllocGlobal>(
    rt: &R,
    folder: &str,
    files: &Vec<OutputFile>,
) -> io::Result<()> {
    let has_library = has_library(rt, folder)?;
    remove_own(rt, folder, "src")?;
    remove_own(rt, folder, "specs")?;
    for file in files.iter() {
        if file.path.as_str() != "src/lib.rt" || !has_library {
            write_file(rt, folder, file)?;
        }
    }
    Ok(())
}

fn has_library<R: Files + AllocGlobal>(rt: &R, folder: &str) -> io::Result<bool> {
    let library = format!(in rt.alloc(); "{folder}/src/lib.rt")?;
    fs::exists(rt, library.as_str())
}

/// Removes the folder `asn1` beneath the folder `part` of a crate. Only the compiler writes files
/// there. Does nothing if there is no such folder.
fn remove_own<R: Files + AllocGlobal>(rt: &R, folder: &str, part: &str) -> io::Result<()> {
    let own = format!(in rt.alloc(); "{folder}/{part}/asn1")?;
    if fs::exists(rt, own.as_str())? {
        return fs::remove_dir_all(rt, own.as_str());
    }
    Ok(())
}

fn write_file<R: Files + AllocGlobal>(rt: &R, folder: &str, file: &OutputFile) -> io::Result<()> {
    let beneath = file.path.as_str();
    let path = format!(in rt.alloc(); "{folder}/{beneath}")?;
    if let Some((parent, _)) = path.as_str().rsplit_once('/') {
        fs::create_dir_all(rt, parent)?;
    }
    fs::write(rt, path.as_str(), file.text.as_str())
}

/// Prints `text` to `out`, and returns `status`.
pub fn say<W: Write>(text: &str, status: u8, out: &mut W) -> Result<u8> {
    out.write_all(text.as_bytes())?;
    out.flush()?;
    Ok(status)
}

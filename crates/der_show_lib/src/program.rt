//! The program as a function of its arguments, its files and its outputs.

use crate::files::show_octets;
use crate::modules::{NoTable, table_of_modules};
use crate::options::{Options, ShowCommand, Shown, Verified};
use crate::place::Place;
use crate::show::{Show, put_plain};
use crate::verify::{add_certificates, verify};
use clap::error::ErrorKind;
use der_print::{Output, Page, Sink};
use schema_kinds::table_octets;
use schema_types::Schema;
use std::alloc::{AllocError, Global};
use std::env::Args;
use std::fmt::Write;
use std::io::Read;
use std::rt::Files;
use std::{fs, io, str};

/// The version of the program.
const VERSION: &str = "0.3.0";

/// The name of standard input in messages.
const INPUT: &str = "standard input";

/// The result of a run of the program.
#[derive(Drop)]
pub struct Finished {
    /// The exit status:
    ///
    /// - 0 on success;
    /// - 1 if a file cannot be read or is not DER, if a certificate or a revocation list breaks a
    ///   rule that `--lint` checks, if an argument is not UTF-8, if an allocation fails, if writing
    ///   to standard output fails, or after any other error;
    /// - 2 if the command line is not valid.
    pub status: u8,
    /// What the program printed to standard output.
    pub out: Output,
    /// What the program printed to standard error.
    pub errors: Output,
}

/// Runs the program. `given` are its arguments, and the first one is the name of the program. Files
/// are shown on `out`, and errors are printed to `errors`.
pub fn run_show<R: Files + Input + AllocGlobal>(
    rt: &R,
    given: io::Result<Args>,
    out: Output,
    mut errors: Output,
) -> Finished {
    let Ok(arguments) = given else {
        errors.put("error: an argument is not UTF-8 and cannot be read; pass the file by ");
        errors.put("standard input: der_show < FILE\n");
        return finish_run(1, out, errors);
    };
    let Ok(words) = words_of(rt.alloc(), arguments) else {
        errors.put("error: out of memory\n");
        return finish_run(1, out, errors);
    };
    match ShowCommand::parse(rt.alloc(), VERSION, &words) {
        Ok(command) => match &command.verified {
            Some(verified) => judge(rt, &command, verified, out, errors),
            None => run(rt, &command, out, errors),
        },
        Err(error) => say(&error, out, errors),
    }
}

// Judges the first certificate in the files.
fn judge<R: Files + Input + AllocGlobal>(
    rt: &R,
    command: &ShowCommand<'_>,
    verified: &Verified<'_>,
    mut out: Output,
    mut errors: Output,
) -> Finished {
    let mut found = Vec::new(rt.alloc());
    let files = match command.files.as_slice() {
        [] => &["-"],
        files => files,
    };
    for file in files {
        if let Err(error) = add_file(rt, file, &mut found) {
            let _ = write!(errors, "error: {file}: {error}\n");
            return finish_run(1, out, errors);
        }
    }
    let mut anchors = Vec::new(rt.alloc());
    if let Err(error) = add_file(rt, verified.anchors, &mut anchors) {
        let _ = write!(errors, "error: {}: {error}\n", verified.anchors);
        return finish_run(1, out, errors);
    }
    match verify(rt.alloc(), verified, &found, &anchors, &mut out) {
        Ok(true) => finish_run(0, out, errors),
        Ok(false) => finish_run(1, out, errors),
        Err(_) => {
            errors.put("error: out of memory\n");
            finish_run(1, out, errors)
        }
    }
}

// Adds the certificates of a file.
fn add_file<R: Files + Input + AllocGlobal>(
    rt: &R,
    file: &str,
    found: &mut Vec<Vec<u8>>,
) -> io::Result<()> {
    let octets = read_octets(rt, file)?;
    add_certificates(rt.alloc(), octets.as_slice(), found)?;
    Ok(())
}

fn words_of(alloc: Global, arguments: Args) -> std::result::Result<Vec<String>, AllocError> {
    arguments.collect(alloc)
}

// Prints the help or the version, or why the words are no command.
fn say(error: &clap::Error, mut out: Output, mut errors: Output) -> Finished {
    let status = match error.kind() {
        ErrorKind::DisplayHelp | ErrorKind::DisplayVersion => {
            let _ = write!(out, "{error}");
            0
        }
        ErrorKind::OutOfMemory => {
            errors.put("error: out of memory\n");
            1
        }
        _ => {
            let _ = write!(errors, "{error}");
            2
        }
    };
    finish_run(status, out, errors)
}

fn finish_run(status: u8, mut out: Output, mut errors: Output) -> Finished {
    out.flush();
    errors.flush();
    let status = if out.has_failed && status == 0 {
        1
    } else {
        status
    };
    Finished {
        status,
        out,
        errors,
    }
}

fn run<R: Files + Input + AllocGlobal>(
    rt: &R,
    command: &ShowCommand<'_>,
    out: Output,
    mut errors: Output,
) -> Finished {
    match table_of(rt, command) {
        Ok(table) => run_with(rt, command, table.as_slice(), out, errors),
        Err(NoTable::Line(line)) => {
            errors.put("error: ");
            errors.put(line.as_str());
            finish_run(1, out, errors)
        }
        Err(NoTable::OutOfMemory) => {
            errors.put("error: out of memory\n");
            finish_run(1, out, errors)
        }
    }
}

// The octets of the table of types: that of the program, or that of the user.
fn table_of<R: Files + Input + AllocGlobal>(
    rt: &R,
    command: &ShowCommand<'_>,
) -> std::result::Result<Vec<u8>, NoTable> {
    if let Some(path) = command.module {
        let octets = read_file(rt, path)?;
        let Ok(text) = str::from_utf8(octets.as_slice()) else {
            let line = format!(in rt.alloc(); "{path}: the module is not UTF-8\n")?;
            return Err(NoTable::Line(line));
        };
        return table_of_modules(rt.alloc(), path, text, command.type_name.unwrap_or(""));
    }
    match command.schema {
        Some(path) => read_file(rt, path),
        None => Ok(table_octets(rt.alloc())?),
    }
}

fn read_file<R: Files + AllocGlobal>(rt: &R, path: &str) -> std::result::Result<Vec<u8>, NoTable> {
    match fs::read(rt, path) {
        Ok(octets) => Ok(octets),
        Err(error) => {
            let line = format!(in rt.alloc(); "{path}: {error}\n")?;
            Err(NoTable::Line(line))
        }
    }
}

fn run_with<R: Files + Input + AllocGlobal>(
    rt: &R,
    command: &ShowCommand<'_>,
    table: &[u8],
    out: Output,
    mut errors: Output,
) -> Finished {
    let schema = match Schema::new(table) {
        Ok(schema) => schema,
        Err(fault) => {
            let _ = write!(
                errors,
                "error: the table of types has a fault at offset {}\n",
                fault.offset
            );
            return finish_run(1, out, errors);
        }
    };
    let mut node = None;
    if let Some(name) = command.type_name {
        node = schema.find_node(last_name(name));
        if node.is_none() {
            errors.put("error: the table has no type of this name: ");
            put_plain(&mut errors, name);
            errors.put("\n");
            return finish_run(1, out, errors);
        }
    }
    let mut show = new_show(rt.alloc(), &schema, command.options, out, errors);
    show.node = node;
    match command.files.as_slice() {
        [] => show_file(rt, &mut show, "-"),
        files => show_files(rt, &mut show, files),
    }
    finish_run(show.status, show.page.out, show.errors)
}

// The name of a type without that of its module.
fn last_name(name: &str) -> &str {
    match name.rsplit_once('.') {
        Some((_, last)) => last,
        None => name,
    }
}

fn new_show<'s>(
    alloc: Global,
    schema: &'s Schema<'s>,
    options: Options,
    out: Output,
    errors: Output,
) -> Show<'s> {
    let mut out = out;
    out.width = match (options.shown, options.width) {
        (Shown::Text, Some(width)) => width,
        (Shown::Text, None) => out.width,
        _ => 0,
    };
    Show {
        page: Page::new(alloc, schema, out, options.has_offsets),
        errors,
        options,
        node: None,
        status: 0,
        is_private: false,
        count: 0,
        departures: 0,
        faults: 0,
        outside: Output::new(alloc, Sink::Memory),
        has_outside: false,
    }
}

/// Runs the program with `options` for one file, whose name is `file` and whose contents are
/// `octets`. Everything that is printed stays in memory.
pub fn show_in_memory(alloc: Global, options: Options, file: &str, octets: &[u8]) -> Finished {
    let out = Output::new(alloc, Sink::Memory);
    let mut errors = Output::new(alloc, Sink::Memory);
    let Ok(table) = table_octets(alloc) else {
        errors.put("error: out of memory\n");
        return finish_run(1, out, errors);
    };
    let Ok(schema) = Schema::new(table.as_slice()) else {
        errors.put("error: the table of types has a fault\n");
        return finish_run(1, out, errors);
    };
    let mut show = new_show(alloc, &schema, options, out, errors);
    show_octets(&mut show, file, octets);
    finish_run(show.status, show.page.out, show.errors)
}

// Shows each file, under its name if there are several.
fn show_files<R: Files + Input + AllocGlobal>(rt: &R, show: &mut Show<'_>, files: &[&str]) {
    for file in files {
        if files.len() > 1 && show.options.shown == Shown::Text {
            put_plain(&mut show.page.out, file);
            show.page.put(":\n");
        }
        show_file(rt, show, file);
    }
}

fn show_file<R: Files + Input + AllocGlobal>(rt: &R, show: &mut Show<'_>, file: &str) {
    let name = if file == "-" { INPUT } else { file };
    match read_octets(rt, file) {
        Ok(octets) => show_octets(show, name, octets.as_slice()),
        Err(error) => {
            let place = Place {
                file: name,
                label: None,
                line: 0,
            };
            show.begin_error(&place);
            let _ = write!(show.errors, "{error}\n");
            show.errors.flush();
        }
    }
}

// Reads all octets of the file, or of standard input for `-`.
fn read_octets<R: Files + Input + AllocGlobal>(rt: &R, file: &str) -> io::Result<Vec<u8>> {
    if file != "-" {
        return fs::read(rt, file);
    }
    let mut octets = Vec::new(rt.alloc());
    let _count = rt.reader().read_to_end(&mut octets)?;
    Ok(octets)
}

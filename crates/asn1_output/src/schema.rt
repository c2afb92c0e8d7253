//! Compiles modules to a table of types, for the option `--schema` of the program.

use crate::command::CompileCommand;
use crate::library::Joined;
use crate::program::{add_imports, line_of, push_warnings, read_text, say, say_file};
use anyhow::{Error, Result};
use asn1_table::{CompiledTable, Root, Wrong, table_of};
use std::alloc::{AllocError, Global};
use std::fmt::Write as _;
use std::io::Write;
use std::rt::Files;
use std::{fs, io};

const TOO_LARGE: &str = "error: the table has too many types\n";

const NO_TABLE: &str = "error: the compiler has made octets that are no table\n";

/// Compiles the modules in files to a table, and writes the table to a file. Prints to `out` the
/// index of the node of each type that the command asks for. Prints to `errors` the warnings about
/// what the table leaves out, or why there is no table. Returns the exit status.
pub fn run_schema<R: Files + AllocGlobal + Clone + Drop, W: Write, E: Write>(
    rt: &R,
    command: &CompileCommand<'_>,
    out: &mut W,
    errors: &mut E,
) -> Result<u8> {
    let mut joined = match read_text(rt, command.file) {
        Ok(text) => Joined::new(rt.alloc(), command.file, text.as_str())?,
        Err(error) => return say_file(command.file, &error, errors),
    };
    for file in command.files.iter().skip(1) {
        match read_text(rt, file) {
            Ok(text) => joined.push_after(rt.alloc(), file, text.as_str())?,
            Err(error) => return say_file(file, &error, errors),
        }
    }
    if let Err(error) = add_others(rt, command, &mut joined) {
        return say_file(command.modules.unwrap_or(""), &error, errors);
    }
    match table_of(rt.alloc(), joined.text.as_str(), command.only.as_slice()) {
        Ok(table) => write_table(rt, command.schema, &joined, &table, out, errors),
        Err(wrong) => say_wrong(rt, &joined, &wrong, errors),
    }
}

// Adds the modules beneath a folder, if there is one, and the names that assignments get.
fn add_others<R: Files + AllocGlobal + Clone + Drop>(
    rt: &R,
    command: &CompileCommand<'_>,
    joined: &mut Joined,
) -> io::Result<()> {
    let given = Vec::new(rt.alloc());
    let main = String::from_str(rt.alloc(), joined.text.as_str())?;
    match command.modules {
        Some(folder) => add_imports(rt, folder, &given, main.as_str(), joined),
        None => {
            let (paths, texts) = (Vec::new(rt.alloc()), Vec::new(rt.alloc()));
            joined.add_imports(rt.alloc(), main.as_str(), &given, &paths, &texts)?;
            Ok(())
        }
    }
}

fn write_table<R: Files + AllocGlobal, W: Write, E: Write>(
    rt: &R,
    path: &str,
    joined: &Joined,
    table: &CompiledTable<'_>,
    out: &mut W,
    errors: &mut E,
) -> Result<u8> {
    if let Err(error) = fs::write(rt, path, table.octets.as_slice()) {
        return say_file(path, &error, errors);
    }
    say(lines_of(rt.alloc(), &table.roots)?.as_str(), 0, out)?;
    let mut lines = String::new(rt.alloc());
    push_warnings(rt.alloc(), &table.warnings, joined, &mut lines)?;
    say(lines.as_str(), 0, errors)
}

fn lines_of(alloc: Global, roots: &Vec<Root<'_>>) -> Result<String, AllocError> {
    let mut lines = String::new(alloc);
    for root in roots.iter() {
        write!(lines, "{}.{} {}\n", root.module, root.name, root.node)?;
    }
    Ok(lines)
}

// Prints why there is no table.
fn say_wrong<R: AllocGlobal, W: Write>(
    rt: &R,
    joined: &Joined,
    wrong: &Wrong<'_>,
    out: &mut W,
) -> Result<u8> {
    match wrong {
        Wrong::Refused(refusal) | Wrong::Unsupported(refusal) => {
            say(line_of(rt.alloc(), refusal, joined)?.as_str(), 1, out)
        }
        Wrong::TooLarge => say(TOO_LARGE, 1, out),
        Wrong::NoTable(_) => say(NO_TABLE, 1, out),
        Wrong::OutOfMemory => Err(Error::from(AllocError)),
    }
}

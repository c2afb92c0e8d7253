//! The command line.

use clap::error::ErrorKind;
use clap::{Arg, ArgAction, ArgMatches, Command, Error};
use std::alloc::{AllocError, Global};

/// A parsed command line.
#[derive(Drop)]
pub struct CompileCommand<'a> {
    /// The path of the folder of the crate to which the types are written. Empty if a table is
    /// written.
    pub out: &'a str,
    /// The path of the file to which a table of types is written. Empty if a crate is written.
    pub schema: &'a str,
    /// The path of the file with the module. If there are several files, the path of the first one.
    pub file: &'a str,
    /// The paths of all files with modules. There is exactly one if a crate is written.
    pub files: Vec<&'a str>,
    /// The names of the types to compile. If the list is empty, all types are compiled.
    pub only: Vec<&'a str>,
    /// The modules that are compiled in other crates.
    pub with: Vec<With<'a>>,
    /// The path of a folder with modules, if one is given. Modules from which types are imported
    /// are searched there.
    pub modules: Option<&'a str>,
}

/// A value of the option `--with`: a module that is compiled in another crate.
#[derive(Clone, Copy)]
pub struct With<'a> {
    /// The name of the other crate.
    pub krate: &'a str,
    /// The path of the file with the module.
    pub file: &'a str,
}

const ABOUT: &str =
    "Compiles an ASN.1 module, and writes its types to the folder of a crate, or as a table";

const NOT_WHOLE: &str = "give '--out' and one file, or '--schema' and no '--with'";

const NO_WITH: &str = "a value of '--with' is not the name of a crate, =, and a file";

impl<'a> CompileCommand<'a> {
    /// Parses the words of the command line. The first word is the name of the program.
    ///
    /// # Errors
    ///
    /// The text that the program prints instead of running: why the command line is wrong, the
    /// help, or `version`.
    pub fn parse(alloc: Global, version: &'a str, words: &'a [String]) -> Result<Self, Error> {
        let mut command = command(alloc, version)?;
        let matches = command.try_get_matches_from_mut(words)?;
        match CompileCommand::of(alloc, &matches)? {
            Ok(parsed) => Ok(parsed),
            Err(wrong) => Err(command.error(ErrorKind::ValueValidation, wrong)?),
        }
    }

    // The command that these words are, or what is wrong with them.
    fn of(
        alloc: Global,
        matches: &ArgMatches<'a>,
    ) -> Result<Result<Self, &'static str>, AllocError> {
        let Some(with) = With::list(alloc, matches.get_strs("with").unwrap_or(&[]))? else {
            return Ok(Err(NO_WITH));
        };
        let only = list(alloc, matches.get_strs("only").unwrap_or(&[]))?;
        let files = list(alloc, matches.get_strs("file").unwrap_or(&[]))?;
        let parsed = CompileCommand {
            out: matches.get_str("out").unwrap_or(""),
            schema: matches.get_str("schema").unwrap_or(""),
            file: files.first().copied().unwrap_or(""),
            files,
            only,
            with,
            modules: matches.get_str("modules"),
        };
        if !parsed.is_whole() {
            return Ok(Err(NOT_WHOLE));
        }
        Ok(Ok(parsed))
    }

    // Whether the words are for a crate with one module, or for a table.
    fn is_whole(&self) -> bool {
        if self.schema.is_empty() {
            return !self.out.is_empty() && self.files.len() == 1;
        }
        self.out.is_empty() && self.with.is_empty()
    }

    /// The name of the crate that is written. It is the part of the path `out` after the last
    /// slash; a slash at the end of the path is ignored.
    pub fn crate_name(&self) -> &'a str {
        let path = self.out.strip_suffix("/").unwrap_or(self.out);
        match path.rsplit_once('/') {
            Some((_, name)) => name,
            None => path,
        }
    }
}

// The words as a list of their own.
fn list<'a>(alloc: Global, words: &[&'a str]) -> Result<Vec<&'a str>, AllocError> {
    let mut list = Vec::new(alloc);
    for word in words {
        list.push(*word)?;
    }
    Ok(list)
}

// What the program takes.
fn command<'a>(alloc: Global, version: &'a str) -> Result<Command<'a>, AllocError> {
    Command::new(alloc, "asn1_compile")
        .version(version)
        .about(ABOUT)
        .arg(out_of(alloc))?
        .arg(schema_of(alloc))?
        .arg(file_of(alloc))?
        .arg(with_of(alloc))?
        .arg(modules_of(alloc))?
        .arg(only_of(alloc))
}

fn out_of<'a>(alloc: Global) -> Arg<'a> {
    Arg::new(alloc, "out")
        .long("out")
        .value_name("FOLDER")
        .help("The folder of the crate")
}

fn schema_of<'a>(alloc: Global) -> Arg<'a> {
    Arg::new(alloc, "schema")
        .long("schema")
        .value_name("FILE")
        .help(
            "The file of a table of the types of all modules, which is written in place of a crate",
        )
}

fn file_of<'a>(alloc: Global) -> Arg<'a> {
    Arg::new(alloc, "file")
        .value_name("FILE")
        .required(true)
        .action(ArgAction::Append)
        .num_args(1..)
        .help(
            "The file that holds the module; for a table several, which may import from each other",
        )
}

fn with_of<'a>(alloc: Global) -> Arg<'a> {
    Arg::new(alloc, "with")
        .long("with")
        .value_name("CRATE=FILE")
        .action(ArgAction::Append)
        .help("A module that another crate holds, from which FILE imports")
}

fn only_of<'a>(alloc: Global) -> Arg<'a> {
    Arg::new(alloc, "only")
        .long("only")
        .value_name("TYPE")
        .action(ArgAction::Append)
        .help(
            "A type that is compiled, with those that it names; without it all are. For a table it may be MODULE.TYPE",
        )
}

fn modules_of<'a>(alloc: Global) -> Arg<'a> {
    Arg::new(alloc, "modules")
        .long("modules")
        .value_name("FOLDER")
        .help("The folder beneath which the files *.asn and *.asn1 are from which FILE imports")
}

impl<'a> With<'a> {
    // Parses these words; `None` if one of them is not the name of a crate, `=`, and a file.
    fn list(alloc: Global, words: &[&'a str]) -> Result<Option<Vec<Self>>, AllocError> {
        let mut list = Vec::new(alloc);
        for word in words {
            let Some(with) = With::parse(word) else {
                return Ok(None);
            };
            list.push(with)?;
        }
        Ok(Some(list))
    }

    // Parses the name of a crate with a file after `=`.
    fn parse(word: &'a str) -> Option<Self> {
        match word.split_once('=') {
            Some((krate, file)) if !krate.is_empty() && !file.is_empty() => {
                Some(With { krate, file })
            }
            _ => None,
        }
    }
}

//! The command line.

use crate::help::{ABOUT, AFTER};
use clap::error::ErrorKind;
use clap::{Arg, ArgAction, Command, Error};
use der_asn1::{DateTime, GeneralizedTimeFormat, TimeFormat};
use schema_kinds::Kind;
use std::alloc::{AllocError, Global};
use x509_path::Purpose;

/// What the program prints of a value.
#[derive(Clone, Copy, PartialEq, Eq)]
pub enum Shown {
    /// The fields or the elements are printed as lines of text.
    Text,
    /// The value is printed as JSON.
    Json,
    /// The octets of the value are printed.
    Der,
    /// A PEM block with the octets of the value is printed.
    Pem,
    /// Only the departures of the value from the Distinguished Encoding Rules are printed.
    Departures,
    /// One line with a summary of the value is printed.
    Short,
}

/// The options of the command line: how to read a file, and what to print.
#[derive(Clone, Copy)]
pub struct Options {
    /// Whether each line begins with the offset of the element that it shows (option `--offsets`).
    pub has_offsets: bool,
    /// Whether a line is printed for each element, even if the kind of the file is known (option
    /// `--tree`).
    pub is_tree: bool,
    /// Whether the rules that a certificate or a revocation list breaks are printed (option
    /// `--lint`).
    pub is_lint: bool,
    /// What is printed of a value (options `--json`, `--der`, `--pem`, `--strict` and `--short`).
    /// Without these options, text is printed.
    pub shown: Shown,
    /// The kind that each value has (option `--as`). Without this option, it is `None`, and the
    /// program finds the kind of each value.
    pub kind: Option<Kind>,
    /// The greatest number of columns of a line (option `--width`). A longer line is broken. If it
    /// is 0, lines are never broken. Without the option, it is `None`, and the width is that of the
    /// output.
    pub width: Option<usize>,
    /// The time from which the program counts the days that a value is still valid (option
    /// `--now`). In seconds since 1970-01-01T00:00:00Z.
    pub now: Option<i64>,
}

impl Options {
    /// The options of a command line that gives no options.
    pub fn new() -> Self {
        Options {
            has_offsets: false,
            is_tree: false,
            is_lint: false,
            shown: Shown::Text,
            kind: None,
            width: None,
            now: None,
        }
    }
}

/// What a certificate is judged by (option `--verify`).
#[derive(Clone, Copy)]
pub struct Verified<'a> {
    /// The path of a file with the certificates of trust anchors (option `--anchors`).
    pub anchors: &'a str,
    /// The host that the certificate has to have (option `--host`).
    pub host: Option<&'a str>,
    /// The purpose that the key has to have (option `--purpose`).
    pub purpose: Option<Purpose>,
    /// The time for which the certificate is judged (option `--now`).
    pub time: DateTime,
}

/// A parsed command line.
#[derive(Drop)]
pub struct ShowCommand<'a> {
    /// What the first certificate in the files is judged by. `None` if the files are shown.
    pub verified: Option<Verified<'a>>,
    /// How to read the files, and what to print.
    pub options: Options,
    /// The paths of the files. The path `-` stands for standard input. If there are no paths,
    /// standard input is read.
    pub files: Vec<&'a str>,
    /// The path of a table of types, which replaces the table of the program (option `--schema`).
    pub schema: Option<&'a str>,
    /// The path of a file with ASN.1 modules (option `--module`). A table of types is made from the
    /// modules, and replaces the table of the program.
    pub module: Option<&'a str>,
    /// The name of the type of the values in the files (option `--type`). The type is in the table
    /// `schema` or in the modules `module`.
    pub type_name: Option<&'a str>,
}

const NO_KIND: &str = "the value of '--as' is no kind; --help lists them";

const NO_WIDTH: &str = "the value of '--width' is no number";

const NO_TIME: &str =
    "the value of '--now' is no date as 2026-01-31, and no time as 2026-01-31T23:59:59Z";

/// Without the option `--width`, a line on a terminal is broken after this number of columns.
pub const TERMINAL_WIDTH: usize = 100;

const NO_TYPE: &str = "'--schema' and '--module' need '--type', the name of a type";

const NO_PURPOSE: &str =
    "the value of '--purpose' is none of serverAuth, clientAuth, codeSigning, emailProtection, timeStamping, OCSPSigning";

const NO_ANCHORS: &str =
    "'--verify' needs '--anchors', a file with certificates, and '--now', since no clock is read";

const TWO_TABLES: &str = "'--schema' cannot be used with '--module'";

impl<'a> ShowCommand<'a> {
    /// Parses the words of the command line. The first word is the name of the program. Fails if
    /// the program is not to be run. The error then has the text to print: a message, the help, or
    /// `version`.
    pub fn parse(alloc: Global, version: &'a str, words: &'a [String]) -> Result<Self, Error> {
        let mut command = command(alloc, version)?;
        let matches = command.try_get_matches_from_mut(words)?;
        let mut options = Options::new();
        options.has_offsets = matches.get_flag("offsets");
        options.is_tree = matches.get_flag("tree");
        options.is_lint = matches.get_flag("lint");
        for (name, shown) in [
            ("json", Shown::Json),
            ("der", Shown::Der),
            ("pem", Shown::Pem),
            ("strict", Shown::Departures),
            ("short", Shown::Short),
        ] {
            if matches.get_flag(name) {
                options.shown = shown;
            }
        }
        if let Some(word) = matches.get_str("as") {
            options.kind = Kind::of_word(word);
            if options.kind.is_none() {
                return Err(command.error(ErrorKind::ValueValidation, NO_KIND)?);
            }
        }
        if let Some(word) = matches.get_str("width") {
            let Ok(width) = word.parse::<usize>() else {
                return Err(command.error(ErrorKind::ValueValidation, NO_WIDTH)?);
            };
            options.width = Some(width);
        }
        let mut now = None;
        if let Some(word) = matches.get_str("now") {
            let Some((time, seconds)) = time_of(word) else {
                return Err(command.error(ErrorKind::ValueValidation, NO_TIME)?);
            };
            now = Some(time);
            options.now = Some(seconds);
        }
        let mut purpose = None;
        if let Some(word) = matches.get_str("purpose") {
            purpose = purpose_of(word);
            if purpose.is_none() {
                return Err(command.error(ErrorKind::ValueValidation, NO_PURPOSE)?);
            }
        }
        let mut verified = None;
        if matches.get_flag("verify") {
            let (Some(anchors), Some(time)) = (matches.get_str("anchors"), now) else {
                return Err(command.error(ErrorKind::ValueValidation, NO_ANCHORS)?);
            };
            verified = Some(Verified {
                anchors,
                host: matches.get_str("host"),
                purpose,
                time,
            });
        }
        let mut files = Vec::new(alloc);
        for file in matches.get_strs("file").unwrap_or(&[]) {
            files.push(*file)?;
        }
        let (schema, module) = (matches.get_str("schema"), matches.get_str("module"));
        let type_name = matches.get_str("type");
        if schema.is_some() && module.is_some() {
            return Err(command.error(ErrorKind::ValueValidation, TWO_TABLES)?);
        }
        if (schema.is_some() || module.is_some()) != type_name.is_some() {
            return Err(command.error(ErrorKind::ValueValidation, NO_TYPE)?);
        }
        Ok(ShowCommand {
            verified,
            options,
            files,
            schema,
            module,
            type_name,
        })
    }
}

// The purpose with a word of openssl.
fn purpose_of(word: &str) -> Option<Purpose> {
    match word {
        "serverAuth" => Some(Purpose::ServerAuth),
        "clientAuth" => Some(Purpose::ClientAuth),
        "codeSigning" => Some(Purpose::CodeSigning),
        "emailProtection" => Some(Purpose::EmailProtection),
        "timeStamping" => Some(Purpose::TimeStamping),
        "OCSPSigning" => Some(Purpose::OcspSigning),
        _ => None,
    }
}

// A date, or a time of UTC, also in seconds since 1970.
fn time_of(word: &str) -> Option<(DateTime, i64)> {
    let mut octets = *b"00000000000000Z";
    let mut count = 0usize;
    for octet in word.bytes() {
        if octet.is_ascii_digit() {
            *octets.get_mut(count)? = octet;
            count = count.saturating_add(1);
        }
    }
    let form = if count == 8 { 10 } else { 20 };
    if word.len() != form || !matches!(count, 8 | 14) {
        return None;
    }
    let at = GeneralizedTimeFormat::from_contents(&octets)?;
    if at.is_valid() {
        Some((at, at.unix_seconds()))
    } else {
        None
    }
}

fn flag<'a>(alloc: Global, name: &'a str, help: &'a str) -> Arg<'a> {
    Arg::new(alloc, name)
        .long(name)
        .action(ArgAction::SetTrue)
        .help(help)
}

fn text<'a>(alloc: Global, name: &'a str, value: &'a str, help: &'a str) -> Arg<'a> {
    Arg::new(alloc, name)
        .long(name)
        .value_name(value)
        .help(help)
}

// What the program takes.
fn command<'a>(alloc: Global, version: &'a str) -> Result<Command<'a>, AllocError> {
    let command = Command::new(alloc, "der_show")
        .version(version)
        .about(ABOUT)
        .after_help(AFTER);
    let command = add_readings(alloc, command)?;
    let command = add_forms(alloc, command)?;
    let command = add_lines(alloc, command)?;
    let command = add_types(alloc, command)?;
    let command = add_judgement(alloc, command)?;
    let files = Arg::new(alloc, "file")
        .value_name("FILE")
        .action(ArgAction::Append)
        .num_args(0..)
        .help("The files; standard input for none, and for -");
    let ber = flag(alloc, "ber", "Does nothing: BER is always read").hide(true);
    command.arg(ber)?.arg(files)
}

// Adds the options of how a file is read and shown.
fn add_readings<'a>(alloc: Global, command: Command<'a>) -> Result<Command<'a>, AllocError> {
    let kind = text(
        alloc,
        "as",
        "KIND",
        "Take the files for values of this kind, whatever their tags and labels say",
    );
    let tree = flag(
        alloc,
        "tree",
        "Print a line for each element, even of a known kind",
    );
    let offsets = flag(
        alloc,
        "offsets",
        "Begin each line with the offset of its element",
    );
    let lint = flag(
        alloc,
        "lint",
        "Print the rules of RFC 5280 that certificates and revocation lists break",
    );
    command.arg(kind)?.arg(tree)?.arg(offsets)?.arg(lint)
}

// Adds the options that say what is printed.
fn add_forms<'a>(alloc: Global, command: Command<'a>) -> Result<Command<'a>, AllocError> {
    let forms: [&'static str; 3] = ["json", "der", "pem"];
    let json = flag(alloc, "json", "Print one object of JSON for each file");
    let der = flag(alloc, "der", "Print the octets of the values");
    let pem = flag(alloc, "pem", "Print the values as PEM blocks");
    let strict = flag(
        alloc,
        "strict",
        "Print the departures from DER, and nothing else",
    );
    command
        .arg(json)?
        .arg(der.conflicts_with("json")?)?
        .arg(pem.conflicts_with_all(&forms[..2])?)?
        .arg(strict.conflicts_with_all(&forms[..3])?)
}

// Adds the options of the judgement on a certificate.
fn add_judgement<'a>(alloc: Global, command: Command<'a>) -> Result<Command<'a>, AllocError> {
    let verify = flag(
        alloc,
        "verify",
        "Judge the first certificate: valid if these signatures verify, or refused, and why",
    );
    let anchors = text(
        alloc,
        "anchors",
        "FILE",
        "Judge by the trust anchors with the names and keys of these certificates",
    );
    let host = text(
        alloc,
        "host",
        "NAME",
        "Refuse a certificate that does not have this host name or address",
    );
    let purpose = text(
        alloc,
        "purpose",
        "PURPOSE",
        "Refuse a certificate whose key has not this purpose, such as serverAuth",
    );
    command.arg(verify)?.arg(anchors)?.arg(host)?.arg(purpose)
}

// Adds the options of lines of text.
fn add_lines<'a>(alloc: Global, command: Command<'a>) -> Result<Command<'a>, AllocError> {
    let forms: [&'static str; 4] = ["json", "der", "pem", "strict"];
    let short = flag(
        alloc,
        "short",
        "Print a line for each value: its kind, name, key, days and fingerprint",
    );
    let now = text(
        alloc,
        "now",
        "TIME",
        "Count the days that --short prints from this date, or time of UTC",
    );
    let width = text(
        alloc,
        "width",
        "COLUMNS",
        "Fold lines of text after so many columns, never for 0; 100 on a terminal",
    );
    command
        .arg(short.conflicts_with_all(&forms[..4])?)?
        .arg(now)?
        .arg(width)
}

// Adds the options of types of the user.
fn add_types<'a>(alloc: Global, command: Command<'a>) -> Result<Command<'a>, AllocError> {
    let schema = text(alloc, "schema", "TABLE", "Read by this table of types");
    let module = text(
        alloc,
        "module",
        "MODULE",
        "Read by the types of this module",
    );
    let name = text(
        alloc,
        "type",
        "NAME",
        "The type of the files in the table or the module",
    );
    command.arg(schema)?.arg(module)?.arg(name)
}

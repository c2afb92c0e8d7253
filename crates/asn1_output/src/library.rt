//! Finds the files of imported modules beneath a folder.

use asn1_syntax::{Failure, ModuleOutline, NameIndex, outline_of, own_names};
use std::alloc::{AllocError, Global};
use std::rt::Files;
use std::{fs, io};

/// The greatest number of folders that are read, and the greatest number of modules that are
/// searched.
const MOST_FOLDERS: u32 = 100_000;

/// The sorted paths of all files beneath a folder, at any depth, whose names end in `.asn` or
/// `.asn1`.
pub fn paths_beneath<R: Files + AllocGlobal + Clone + Drop>(
    rt: &R,
    folder: &str,
) -> io::Result<Vec<String>> {
    let mut paths = Vec::new(rt.alloc());
    let mut folders = vec![in rt.alloc(); String::from_str(rt.alloc(), folder)?]?;
    for _ in 0..MOST_FOLDERS {
        let Some(next) = folders.pop() else {
            break;
        };
        add_entries(rt, next.as_str(), &mut folders, &mut paths)?;
    }
    paths.sort()?;
    Ok(paths)
}

// Adds the folders and the files of modules in a folder.
fn add_entries<R: Files + AllocGlobal + Clone + Drop>(
    rt: &R,
    folder: &str,
    folders: &mut Vec<String>,
    paths: &mut Vec<String>,
) -> io::Result<()> {
    for entry in fs::read_dir(rt, folder)? {
        let entry = entry?;
        let path = entry.path();
        let text = String::from_str(rt.alloc(), path.as_str())?;
        if entry.file_type()?.is_dir() {
            folders.push(text)?;
        } else if is_module(entry.file_name()) {
            paths.push(text)?;
        }
    }
    Ok(())
}

fn is_module(name: &str) -> bool {
    match name.rsplit_once('.') {
        Some((_, end)) => end.eq_ignore_ascii_case("asn") || end.eq_ignore_ascii_case("asn1"),
        None => false,
    }
}

/// The texts of several files, joined to one text.
#[derive(Drop)]
pub struct Joined {
    /// The texts of the files, one after the other. There is a line end between two texts.
    pub text: String,
    parts: Vec<Part>,
}

// A file, with the index at which its text begins.
#[derive(Drop)]
struct Part {
    path: String,
    start: usize,
}

impl Joined {
    /// Starts with the text of one file. `path` is the path of the file.
    pub fn new(alloc: Global, path: &str, text: &str) -> Result<Self, AllocError> {
        let mut joined = Joined {
            text: String::new(alloc),
            parts: Vec::new(alloc),
        };
        joined.push(alloc, path, text)?;
        Ok(joined)
    }

    /// Appends the text of another file. A byte order mark at its beginning is removed.
    pub fn push_after(&mut self, alloc: Global, path: &str, text: &str) -> Result<(), AllocError> {
        self.push(alloc, path, text.strip_prefix(MARK).unwrap_or(text))
    }

    // Adds the text of a file.
    fn push(&mut self, alloc: Global, path: &str, text: &str) -> Result<(), AllocError> {
        if !self.parts.is_empty() {
            self.text.push('\n')?;
        }
        let start = self.text.len();
        let path = String::from_str(alloc, path)?;
        self.parts.push(Part { path, start })?;
        self.text.push_str(text)
    }

    /// Appends the files with the modules from which the text `main` imports, directly or through
    /// other modules. `paths` and `texts` are the paths and the texts of all files from which it
    /// can choose. A module that is in one of the `given` texts is not appended.
    ///
    /// Then appends the new names that [`asn1_syntax::own_names`] returns for the joined text.
    pub fn add_imports(
        &mut self,
        alloc: Global,
        main: &str,
        given: &Vec<String>,
        paths: &Vec<String>,
        texts: &Vec<String>,
    ) -> Result<(), AllocError> {
        for number in needed(alloc, main, given, texts)?.iter() {
            if let (Some(path), Some(text)) = (paths.get(*number), texts.get(*number)) {
                self.push_after(alloc, path.as_str(), text.as_str())?;
            }
        }
        let names = own_names_of(alloc, self.text.as_str())?;
        self.text.push('\n')?;
        self.text.push_str(names.as_str())
    }

    /// The index of the file that contains the octet at this offset of the joined text.
    pub fn part_at(&self, offset: usize) -> usize {
        let mut after = 0usize;
        for part in self.parts.iter() {
            if part.start <= offset {
                after = after.saturating_add(1);
            }
        }
        after.saturating_sub(1)
    }

    /// The path of the file with this index.
    pub fn path(&self, number: usize) -> &str {
        match self.parts.get(number) {
            Some(part) => part.path.as_str(),
            None => "",
        }
    }

    /// The joined text from the start of the file with this index to the end of the joined text.
    pub fn text_from(&self, number: usize) -> &str {
        self.text.as_str().get(self.start(number)..).unwrap_or("")
    }

    /// The offset, in the joined text, at which the file with this index begins.
    pub fn start(&self, number: usize) -> usize {
        match self.parts.get(number) {
            Some(part) => part.start,
            None => 0,
        }
    }
}

// The mark of UTF-8 that a text may begin with.
const MARK: &str = "\u{FEFF}";

// The names that assignments of a text get; none if it is refused, as it is then when it is parsed.
fn own_names_of(alloc: Global, text: &str) -> Result<String, AllocError> {
    match own_names(alloc, text) {
        Ok(names) => Ok(names),
        Err(Failure::OutOfMemory) => Err(AllocError),
        Err(_) => Ok(String::new(alloc)),
    }
}

// The modules of a text; none if it is refused.
fn modules_in<'a>(alloc: Global, text: &'a str) -> Result<Vec<ModuleOutline<'a>>, AllocError> {
    match outline_of(alloc, text) {
        Ok(modules) => Ok(modules),
        Err(Failure::OutOfMemory) => Err(AllocError),
        Err(_) => Ok(Vec::new(alloc)),
    }
}

// The numbers of the texts that have the modules from which a text imports, also by way of others.
fn needed<'l>(
    alloc: Global,
    main: &'l str,
    given: &'l Vec<String>,
    texts: &'l Vec<String>,
) -> Result<Vec<usize>, AllocError> {
    let places = places_of(alloc, texts)?;
    let mut present = NameIndex::new(alloc);
    let mut wanted = NameIndex::new(alloc);
    for text in given.iter() {
        add_modules(&modules_in(alloc, text.as_str())?, &mut present)?;
    }
    add_text(alloc, main, &mut present, &mut wanted)?;
    let mut found = Vec::new(alloc);
    for at in 0..MOST_FOLDERS as usize {
        let Some(name) = wanted.names.get(at) else {
            break;
        };
        let name = *name;
        if !present.has(name)
            && let Some(number) = places.find(name)
            && let Some(text) = texts.get(number)
        {
            add_text(alloc, text.as_str(), &mut present, &mut wanted)?;
            found.push(number)?;
        }
    }
    Ok(found)
}

// The number of the first one of these texts that has each module.
fn places_of<'l>(alloc: Global, texts: &'l Vec<String>) -> Result<NameIndex<'l>, AllocError> {
    let mut places = NameIndex::new(alloc);
    for (number, text) in texts.iter().enumerate() {
        for module in modules_in(alloc, text.as_str())?.iter() {
            places.add(module.name.text, number)?;
        }
    }
    Ok(places)
}

// Adds the names of the modules of a text, and of those from which they import.
fn add_text<'l>(
    alloc: Global,
    text: &'l str,
    present: &mut NameIndex<'l>,
    wanted: &mut NameIndex<'l>,
) -> Result<(), AllocError> {
    let modules = modules_in(alloc, text)?;
    add_modules(&modules, present)?;
    add_wanted(&modules, wanted)
}

// Adds the names of modules.
fn add_modules<'l>(
    modules: &Vec<ModuleOutline<'l>>,
    names: &mut NameIndex<'l>,
) -> Result<(), AllocError> {
    for module in modules.iter() {
        names.add(module.name.text, 0)?;
    }
    Ok(())
}

// Adds the names of the modules from which modules import.
fn add_wanted<'l>(
    modules: &Vec<ModuleOutline<'l>>,
    names: &mut NameIndex<'l>,
) -> Result<(), AllocError> {
    for module in modules.iter() {
        for import in module.imports.iter() {
            names.add(import.module.text, 0)?;
        }
    }
    Ok(())
}

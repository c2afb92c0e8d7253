//! Names that are imported.

use crate::constant::NamedConstant;
use crate::constants::Constants;
use crate::external::External;
use crate::external_type::ExternalType;
use crate::external_types::ExternalTypes;
use asn1_syntax::{Failure, Import, ItemKind, ParsedModule, Refusal};
use std::alloc::Global;

/// What a module imports from modules of other crates.
#[derive(Drop)]
pub struct Imported<'a> {
    /// The types that it imports.
    pub types: ExternalTypes<'a>,
    /// The values that it imports.
    pub values: Constants<'a>,
}

/// Returns the types and the values that a module imports. Fails if the module of an import is not
/// among `externals`, or does not define the imported name. Also fails if a name is imported twice.
pub fn imported_by<'a>(
    alloc: Global,
    module: &ParsedModule<'a>,
    externals: &Vec<External<'a>>,
) -> Result<Imported<'a>, Failure<'a>> {
    check_once(module)?;
    find_imports(alloc, module, externals)
}

fn find_imports<'a>(
    alloc: Global,
    module: &ParsedModule<'a>,
    externals: &Vec<External<'a>>,
) -> Result<Imported<'a>, Failure<'a>> {
    let mut found = Imported {
        types: ExternalTypes::new(alloc),
        values: Constants::new(alloc),
    };
    for import in module.imports.iter() {
        let external = external_of(externals, import)?;
        match import.name.kind {
            ItemKind::UpperName => found.types.push(type_of(alloc, external, import)?)?,
            _ => found.values.push(value_of(alloc, external, import)?)?,
        }
    }
    Ok(found)
}

fn check_once<'a>(module: &ParsedModule<'a>) -> Result<(), Refusal<'a>> {
    for (number, import) in module.imports.iter().enumerate() {
        if module.index.imports.find(import.name.text) != Some(number) {
            return Err(Refusal::of(import.name, "a name that is imported once"));
        }
    }
    Ok(())
}

fn external_of<'e, 'a>(
    externals: &'e Vec<External<'a>>,
    import: &Import<'a>,
) -> Result<&'e External<'a>, Refusal<'a>> {
    for external in externals.iter() {
        if external.module == import.module.text {
            return Ok(external);
        }
    }
    Err(Refusal::of(import.module, "a module that --with or --modules gives"))
}

fn type_of<'a>(
    alloc: Global,
    external: &External<'a>,
    import: &Import<'a>,
) -> Result<ExternalType<'a>, Failure<'a>> {
    match external.types.find(import.name.text) {
        Some(of) => Ok(of.copy(alloc)?),
        None => Err(not_assigned(import)),
    }
}

fn value_of<'a>(
    alloc: Global,
    external: &External<'a>,
    import: &Import<'a>,
) -> Result<NamedConstant<'a>, Failure<'a>> {
    match external.values.find(import.name.text) {
        Some(constant) => Ok(NamedConstant {
            name: import.name.text,
            constant: constant.copy(alloc)?,
        }),
        None => Err(not_assigned(import)),
    }
}

fn not_assigned<'a>(import: &Import<'a>) -> Failure<'a> {
    Failure::Refused(Refusal::of(import.name, "a name that this module assigns"))
}

//! Names of numbers and of bits.

use crate::endpoint::Endpoint;
use crate::item::Item;

/// A named number, a named bit or an item of an ENUMERATED.
#[derive(Clone, Copy)]
pub struct NamedNumber<'a> {
    /// The name.
    pub name: Item<'a>,
    /// The number of the name, or the index of the bit. `None` if only a name is written, which
    /// X.680 allows in an ENUMERATED.
    pub number: Option<Endpoint<'a>>,
    /// Whether this item of an ENUMERATED is written after the extension marker (`...`).
    pub is_addition: bool,
}

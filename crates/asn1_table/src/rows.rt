//! The rows of a table while it is made.

use crate::wanted::Wanted;
use asn1_syntax::{Item, NameIndex, Warning};
use der_base::Class;
use schema_types::{Field, Limit, LimitKind, Name, Node, NodeKind, OpenType, Presence, Span};
use std::alloc::{AllocError, Global};
use std::collections::HashMap;

/// The rows of a table while the table is made, and what is needed to fill them.
#[derive(Drop)]
pub struct Rows<'a> {
    pub nodes: Vec<Node>,
    pub fields: Vec<Field>,
    pub limits: Vec<Limit>,
    pub names: Vec<Name>,
    pub opens: Vec<OpenType>,
    pub pool: Vec<u8>,
    /// The type for which each node was added. The place in the list is the index of the node.
    pub wanted: Vec<Wanted<'a>>,
    /// The name of the component or alternative of each field, as a lexical item of the text. The
    /// place in the list is the index of the field.
    pub components: Vec<Item<'a>>,
    /// The warnings about DEFAULT values that the table does not have.
    pub warnings: Vec<Warning<'a>>,
    // The index of the node for each key.
    keys: HashMap<String, u32>,
    // The texts of the pool, each with the index of its range.
    texts: NameIndex<'a>,
    ranges: Vec<Span>,
    // The names of the open types, each with the index of its range of rows.
    tables: NameIndex<'a>,
    types: Vec<Span>,
}

/// The empty range.
pub const EMPTY: Span = Span { start: 0, count: 0 };

/// What a node has from when it is added until it is filled.
const NO_NODE: Node = Node {
    kind: NodeKind::Any,
    class: Class::Universal,
    number: 0,
    extensible: false,
    name: EMPTY,
    inner: None,
    parts: EMPTY,
    limits: EMPTY,
    chooser: 0,
};

/// What a field has from when it is added until it is filled.
const NO_FIELD: Field = Field {
    presence: Presence::Required,
    addition: 0,
    name: EMPTY,
    node: 0,
    default: EMPTY,
};

impl<'a> Rows<'a> {
    /// A table without rows.
    pub fn new(alloc: Global) -> Self {
        Rows {
            nodes: Vec::new(alloc),
            fields: Vec::new(alloc),
            limits: Vec::new(alloc),
            names: Vec::new(alloc),
            opens: Vec::new(alloc),
            pool: Vec::new(alloc),
            wanted: Vec::new(alloc),
            components: Vec::new(alloc),
            warnings: Vec::new(alloc),
            keys: HashMap::new(alloc),
            texts: NameIndex::new(alloc),
            ranges: Vec::new(alloc),
            tables: NameIndex::new(alloc),
            types: Vec::new(alloc),
        }
    }

    /// Returns the index of the node with this key. If there is no node with this key, adds one for
    /// the type `wanted`. An added node must be filled later.
    pub fn add_node(&mut self, key: String, wanted: Wanted<'a>) -> Result<u32, AllocError> {
        if let Some(index) = self.keys.get(key.as_str()) {
            return Ok(*index);
        }
        let index = count_of(self.nodes.len());
        self.keys.insert(key, index)?;
        self.wanted.push(wanted)?;
        self.nodes.push(NO_NODE)?;
        Ok(index)
    }

    /// Adds `count` fields at the end, and returns their range. The fields must be filled later.
    pub fn add_fields(&mut self, count: usize) -> Result<Span, AllocError> {
        let start = self.fields.len();
        for _ in 0..count {
            self.fields.push(NO_FIELD)?;
            self.components.push(Item::END)?;
        }
        Ok(span_from(start, count))
    }

    /// Adds a limit of this kind. `ends` are the lowest and the highest number that it allows. Adds
    /// nothing if `ends` is `None`.
    pub fn add_limit(
        &mut self,
        kind: LimitKind,
        ends: Option<(i64, i64)>,
    ) -> Result<(), AllocError> {
        if let Some((low, high)) = ends {
            self.limits.push(Limit { kind, low, high })?;
        }
        Ok(())
    }

    /// Returns the range of the pool that has this text. Adds the text to the pool if the pool does
    /// not have it yet.
    pub fn text(&mut self, text: &'a str) -> Result<Span, AllocError> {
        if text.is_empty() {
            return Ok(EMPTY);
        }
        if let Some(number) = self.texts.find(text)
            && let Some(range) = self.ranges.get(number)
        {
            return Ok(*range);
        }
        let range = self.octets(text.as_bytes())?;
        self.texts.add(text, self.ranges.len())?;
        self.ranges.push(range)?;
        Ok(range)
    }

    /// Adds octets to the pool, and returns their range.
    pub fn octets(&mut self, octets: &[u8]) -> Result<Span, AllocError> {
        let start = self.pool.len();
        self.pool.extend_from_slice(octets)?;
        Ok(span_from(start, octets.len()))
    }

    /// The range of rows that [`Rows::add_types`] has added for the open type with this name, if
    /// any.
    pub fn types_of(&self, table: &str) -> Option<Span> {
        self.types.get(self.tables.find(table)?).copied()
    }

    /// Adds rows for an open type, one row for each type that it may be. Returns the range of these
    /// rows.
    pub fn add_rows(&mut self, types: &Vec<OpenType>) -> Result<Span, AllocError> {
        let span = span_from(self.opens.len(), types.len());
        for of in types.iter() {
            self.opens.push(*of)?;
        }
        Ok(span)
    }

    /// Adds rows for the open type with the name `table`, one row for each type that it may be.
    /// Returns the range of these rows.
    pub fn add_types(&mut self, table: &'a str, types: Vec<OpenType>) -> Result<Span, AllocError> {
        let span = self.add_rows(&types)?;
        self.tables.add(table, self.types.len())?;
        self.types.push(span)?;
        Ok(span)
    }
}

/// A number of rows or octets as a `u32`. A number that does not fit becomes the greatest `u32`.
/// The check of the finished table fails in that case.
pub fn count_of(count: usize) -> u32 {
    u32::try_from(count).unwrap_or(u32::MAX)
}

/// The range of `count` rows or octets from `start` on. An empty range starts at 0.
pub fn span_from(start: usize, count: usize) -> Span {
    if count == 0 {
        return EMPTY;
    }
    Span {
        start: count_of(start),
        count: count_of(count),
    }
}

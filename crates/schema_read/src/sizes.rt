//! Amounts of memory for reading a value.

/// How much memory is allocated for reading a value: numbers of elements, of departures, of fields
/// of SETs, and of octets of a string.
#[derive(Clone, Copy)]
pub(crate) struct Sizes {
    pub entries: usize,
    pub departures: usize,
    pub marks: usize,
    pub text: usize,
}

impl Sizes {
    /// An amount of memory that is enough for most inputs of `len` octets. The memory for strings
    /// is always enough: a joined string has at most one octet more than the input.
    pub fn first(len: usize) -> Self {
        Sizes {
            entries: (len / 4).min(65536).saturating_add(64),
            departures: 64,
            marks: 64,
            text: len.saturating_add(1),
        }
    }

    /// Four times as much memory. Only the memory for strings stays the same.
    pub fn larger(self) -> Self {
        Sizes {
            entries: self.entries.saturating_mul(4),
            departures: self.departures.saturating_mul(4),
            marks: self.marks.saturating_mul(4),
            text: self.text,
        }
    }
}

//! RelativeDistinguishedNames as text.

use crate::text::name_text::write_level;
use std::alloc::Global;
use std::fmt;
use x509::RelativeDistinguishedName;

/// A RelativeDistinguishedName, for printing as in RFC 4514. Its attributes are printed with `+`
/// between them, in the form that [`NameText`](crate::NameText) uses.
///
/// Printing takes time in proportion to the size of the RelativeDistinguishedName. It allocates
/// nothing.
#[derive(Drop)]
pub struct LevelText<'n, 'a> {
    level: &'n RelativeDistinguishedName<'a>,
    alloc: Global,
}

impl<'n, 'a> LevelText<'n, 'a> {
    /// Wraps `level` for printing. Nothing is allocated, although `alloc` is required.
    pub fn new(alloc: Global, level: &'n RelativeDistinguishedName<'a>) -> Self {
        LevelText { level, alloc }
    }
}

impl<'n, 'a> fmt::Display for LevelText<'n, 'a> {
    fn fmt<W: fmt::Write>(&self, f: &mut fmt::Formatter<W>) -> fmt::Result {
        write_level(self.alloc, self.level, f)
    }
}

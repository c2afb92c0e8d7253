//! Components with a DEFAULT.

use asn1_check::RustType;
use asn1_syntax::TagPrefix;

/// A component with a DEFAULT, for which the compiler looks for a Rust type.
#[derive(Clone, Copy)]
pub struct DefaultPlace<'p> {
    /// The Rust type that the field of the component would have without DEFAULT.
    pub of: &'p RustType,
    /// The index of the component's type among the `nodes` of the module.
    pub index: usize,
    /// The tag that the component gets from AUTOMATIC TAGS; `None` if it gets no tag from AUTOMATIC
    /// TAGS.
    pub numbered: Option<TagPrefix>,
    /// Whether a comment `Rust integer: u64` asks for a field of type `u64`. The comment has an
    /// effect only on an INTEGER without bounds.
    pub is_word: bool,
    /// The name for a Rust type that stands for the default value. It is used only if such a type
    /// has to be written.
    pub name: &'p str,
}

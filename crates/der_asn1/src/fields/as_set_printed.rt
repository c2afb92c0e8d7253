//! A SET as text, for engineers.
ghost use Rattle.std.specs.Fmt.{debug_variant};
ghost use Rattle.der.specs.Prelude.{Set as SetTag};
ghost use Rattle.der.specs.Text.{tag_text};

use crate::fields::as_set::AsSet;
use der::FixedTag;
use std::fmt;

/// Prints the tag as its `Display` does, then the wrapped value in parentheses. The wrapped value
/// is printed with the name of its own type, such as `SET(Member { .. })`.
impl<T: fmt::Debug + FixedTag> fmt::Debug for AsSet<T> {
    ghost debug_output = { λ v. debug_variant (tag_text SetTag) (T.debug_output v.0) };

    fn fmt<W: fmt::Write>(&self, f: &mut fmt::Formatter<W>) -> fmt::Result {
        let (tag, wrapped) = (<Self as FixedTag>::fixed_tag(), &self.0);
        write!(f, "{tag}({wrapped:?})")
    }
}

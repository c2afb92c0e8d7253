//! Decides which characters of a text are escaped when the text is printed: those that a reader
//! does not see as they are, and that can make a line look like another one.
#![tactic(auto)]

ghost use Rattle.std.specs.Prelude.{◌≡◌};
ghost use Rattle.hidden_characters.specs.Hidden.{is_formatting, is_hidden};

use unicode::properties::{GeneralCategory, is_default_ignorable_code_point};

/// Whether the character must not be printed as it is. This is the case for:
///
/// - a control character (category Cc of Unicode);
/// - a character that is invisible, or that changes the direction of the text around it (the
///   categories Cf, Zl and Zp, and the characters that Unicode calls Default_Ignorable_Code_Point);
/// - U+2800, the Braille pattern without dots, which looks like a space.
pub fn is_hidden(c: char) -> bool
    ensures { result ≡ is_hidden c }
{
    is_formatting(GeneralCategory::for_char(c))
        || is_default_ignorable_code_point(c)
        || c == '\u{2800}'
}

// Whether the category is Cc, Cf, Zl or Zp.
fn is_formatting(category: GeneralCategory) -> bool
    ensures { result ≡ is_formatting category }
{
    matches!(
        category,
        GeneralCategory::Control
            | GeneralCategory::Format
            | GeneralCategory::LineSeparator
            | GeneralCategory::ParagraphSeparator
    )
}

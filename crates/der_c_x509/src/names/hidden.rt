//! Characters that a reader of a text would not see as they are.
ghost use Rattle.std.specs.Prelude.{◌≡◌, true};
ghost use Rattle.std.specs.Char.{IsScalar};
ghost use Rattle.hidden_characters.specs.Hidden.{is_hidden};

use hidden_characters::is_hidden;

/// Returns true if a reader of a text would not see `character` as it is: if it is a control
/// character, invisible, or turns the text around it. `der_name_text` escapes these characters. A
/// number that is not a character counts as hidden.
pub fn der_is_hidden(character: u32) -> bool
    ensures known { IsScalar character → result ≡ is_hidden character }
    ensures none { (IsScalar character → ⊥) → result ≡ true }
{
    match char::from_u32(character) {
        Some(character) => is_hidden(character),
        None => true,
    }
}

//! Kinds of lexical items.

/// The kind of a lexical item (X.680, 12).
#[derive(Clone, Copy, PartialEq, Eq)]
pub enum ItemKind {
    /// A word that begins with an upper-case letter: a type reference, a module reference or a
    /// reserved word.
    UpperName,
    /// A word that begins with a lower-case letter: an identifier or a value reference.
    LowerName,
    /// A number without a sign.
    Number,
    /// A string of binary digits, as `'0101'B`.
    BinaryString,
    /// A string of hexadecimal digits, as `'0AF3'H`.
    HexString,
    /// A string of characters, as `"abc"`.
    CharacterString,
    /// One of the symbols `::=`, `...`, `..`, `[[` and `]]`, or a symbol of one character, such as
    /// `{`.
    Symbol,
    /// A comment, of the form that begins with `--` or of the form that begins with `/*`.
    Comment,
    /// The end of the text.
    End,
}

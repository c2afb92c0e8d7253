//! The commands of the program, parsed from its words.
ghost use Rattle.std.specs.Prelude.{◌≡◌, ◌↔◌, IsSome, IfSome, IsTrue};
ghost use Rattle.der_tool_lib.specs.ToolCommand.{IsHex, IsName, IsCommand, texts};

use der::EncodingRules;

/// What the words of the command line ask the program to do. A word `HEX` of a command spells
/// octets in hexadecimal.
#[derive(Clone, Copy)]
pub enum ToolCommand<'a> {
    /// `head [--ber] HEX`: prints lines that describe the header at the start of the octets that
    /// `hex` spells. The octets are read under BER if `--ber` is present, and otherwise under DER.
    Head { rules: EncodingRules, hex: &'a str },
    /// `tlv [--ber] HEX`: prints all octets of the element at the start of the octets that `hex`
    /// spells, header and contents, in hexadecimal on one line. The octets are read under BER if
    /// `--ber` is present, and otherwise under DER.
    Tlv { rules: EncodingRules, hex: &'a str },
    /// `order HEX HEX`: prints `less`, `equal` or `greater`, which says how two elements compare.
    /// The texts `first` and `second` each spell exactly one element under DER. Their encodings are
    /// compared octet by octet.
    Order { first: &'a str, second: &'a str },
    /// `join HEX`: prints the contents of an OCTET STRING in hexadecimal on one line. The text
    /// `hex` spells the OCTET STRING under BER. If it consists of segments, their contents are
    /// joined.
    Join { hex: &'a str },
}

impl<'a> ToolCommand<'a> {
    ghost use Rattle.der_tool_lib.specs.ToolCommand.{words_of, words_under, order_words, join_words, two, three, SpellsOctets};

    /// The command that `words` request. `None` if `words` are not a command.
    pub fn parse(words: &'a [String]) -> Option<Self>
        ensures found { IsSome result ↔ IsCommand (texts words.now) }
        ensures words { IfSome result (λ c. texts words.now ≡ words_of c) }
        ensures digits { IfSome result SpellsOctets }
    {
        match words {
            [name, hex] => ToolCommand::of_two(name, hex),
            [first, second, third] => ToolCommand::of_three(first, second, third),
            _ => None,
        }
    }

    /// The command that the two words `name` and `hex` request. `None` if the two words are not a
    /// command.
    fn of_two(name: &str, hex: &'a str) -> Option<Self>
        ensures found { IsSome result ↔ IsCommand (two name.now hex.now) }
        ensures words { IfSome result (λ c. two name.now hex.now ≡ words_of c) }
        ensures digits { IfSome result SpellsOctets }
    {
        if name == "join" {
            ToolCommand::joining(hex)
        } else {
            ToolCommand::named(name, EncodingRules::Der, hex)
        }
    }

    /// The command that the words `first`, `second` and `third` request. `None` if the three words
    /// are not a command.
    fn of_three(first: &'a str, second: &'a str, third: &'a str) -> Option<Self>
        ensures found { IsSome result ↔ IsCommand (three first.now second.now third.now) }
        ensures words { IfSome result (λ c. three first.now second.now third.now ≡ words_of c) }
        ensures digits { IfSome result SpellsOctets }
    {
        if second == "--ber" {
            ToolCommand::named(first, EncodingRules::Ber, third)
        } else if first == "order" {
            ToolCommand::ordering(second, third)
        } else {
            None
        }
    }

    /// The command with the name `name`, which must be `head` or `tlv`, and with `rules` and `hex`.
    /// `None` if `name` is another name, or if `hex` is not an even number of hexadecimal digits.
    fn named(name: &str, rules: EncodingRules, hex: &'a str) -> Option<Self>
        ensures found { IsSome result ↔ (IsName name.now × IsHex hex.now) }
        ensures words { IfSome result (λ c. words_under rules name.now hex.now ≡ words_of c) }
        ensures digits { IfSome result SpellsOctets }
    {
        match name {
            "head" if is_hex(hex) => Some(ToolCommand::Head { rules, hex }),
            "tlv" if is_hex(hex) => Some(ToolCommand::Tlv { rules, hex }),
            _ => None,
        }
    }

    /// The command `order` with the texts `first` and `second`. `None` if `first` or `second` is
    /// not an even number of hexadecimal digits.
    fn ordering(first: &'a str, second: &'a str) -> Option<Self>
        ensures found { IsSome result ↔ (IsHex first.now × IsHex second.now) }
        ensures words { IfSome result (λ c. order_words first.now second.now ≡ words_of c) }
        ensures digits { IfSome result SpellsOctets }
    {
        if is_hex(first) && is_hex(second) {
            Some(ToolCommand::Order { first, second })
        } else {
            None
        }
    }

    /// The command `join` with the text `hex`. `None` if `hex` is not an even number of hexadecimal
    /// digits.
    fn joining(hex: &'a str) -> Option<Self>
        ensures found { IsSome result ↔ IsHex hex.now }
        ensures words { IfSome result (λ c. join_words hex.now ≡ words_of c) }
        ensures digits { IfSome result SpellsOctets }
    {
        if is_hex(hex) {
            Some(ToolCommand::Join { hex })
        } else {
            None
        }
    }
}

/// Whether `text` consists of an even number of hexadecimal digits. An empty text does.
fn is_hex(text: &str) -> bool
    ensures { IsTrue result ↔ IsHex text.now }
{
    text.len() % 2 == 0 && text.bytes().all(|digit| digit.is_ascii_hexdigit())
}

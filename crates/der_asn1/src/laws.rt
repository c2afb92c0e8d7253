//! Laws that follow from the contracts. Each function does nothing; its contract is the law, and
//! nothing else uses these functions.
ghost use Rattle.der.specs.Lawful.{PassesEncodings, ReadsEncodings, ReadsWholeEncodings};
ghost use Rattle.der_asn1.specs.Item.{IsElement};

use crate::assembly::WrittenItem;
use crate::lists::item::DecodeItem;
use der::Lends;

/// Does nothing; the contract states that, under DER, items of lists are read from exactly the
/// encodings of valid values, each of which is one element and can be written. Among the items is
/// each CHOICE that the compiler writes, which has no tag of its own. For every list of at most
/// 4294967295 octets:
///
/// - The octets begin with an item exactly if they begin with the encoding of a valid value.
/// - The octets are entirely one item exactly if they are the encoding of a valid value.
///
/// A reader that has decoded an item has consumed the encoding of the value that it returned.
fn items_read_encodings<R: Lends, T: DecodeItem<R> + WrittenItem>()
    ensures front { ReadsEncodings T.is_next T.item.valid T.encoding }
    ensures whole { ReadsWholeEncodings T.is_next T.item.valid T.encoding }
    ensures passed { PassesEncodings T.is_next T.item.valid T.encoding }
    ensures element { (v : T) → T.item.valid v → IsElement (T.encoding v) }
    ensures written { (v : T) → T.item.valid v → T.encodable v }
{}

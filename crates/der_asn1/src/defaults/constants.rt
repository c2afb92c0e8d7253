//! Defaults of fields (see [`DefaultOf`]): numbers, TRUE, and empty lists.
ghost use Rattle.std.specs.Prelude.{◌≡◌, false, [], ◌∷◌};
ghost use Rattle.der_asn1.specs.Integer.{integer_octets, signed_octets};

use crate::contents::checked::Checked;
use crate::defaults::with_default::DefaultOf;
use crate::lists::item::Item;
use crate::lists::sequence_of::SequenceOf;
use crate::lists::set_of::SetOf;
use crate::numbers::boolean::BooleanRef;
use crate::numbers::number_of::IntegerOf;

/// The default `N` of a field `INTEGER DEFAULT N` of type `IntegerOf<u8>`.
pub struct DefaultU8<const N: u8>;

/// The default `N` of a field `INTEGER DEFAULT N` of type `IntegerOf<u32>`.
pub struct DefaultU32<const N: u32>;

/// The default `N` of a field `INTEGER DEFAULT N` of type `IntegerOf<u64>`.
pub struct DefaultU64<const N: u64>;

/// The default `N` of a field `INTEGER DEFAULT N` of type `IntegerOf<i64>`.
pub struct DefaultI64<const N: i64>;

/// The default of a field `BOOLEAN DEFAULT TRUE`. A field `BOOLEAN DEFAULT FALSE` does not need it:
/// the default of the type [`BooleanRef`] is false.
pub struct DefaultTrue;

/// The default of a field `SEQUENCE OF T DEFAULT {}` or `SET OF T DEFAULT {}`: a list without
/// elements.
pub struct DefaultEmpty;

impl<const N: u8> DefaultOf<IntegerOf<u8>> for DefaultU8<N> {
    ghost default_contents = { integer_octets false N };

    fn default_value() -> IntegerOf<u8> {
        IntegerOf { number: N }
    }
}

impl<const N: u32> DefaultOf<IntegerOf<u32>> for DefaultU32<N> {
    ghost default_contents = { integer_octets false N };

    fn default_value() -> IntegerOf<u32> {
        IntegerOf { number: N }
    }
}

impl<const N: u64> DefaultOf<IntegerOf<u64>> for DefaultU64<N> {
    ghost default_contents = { integer_octets false N };

    fn default_value() -> IntegerOf<u64> {
        IntegerOf { number: N }
    }
}

impl<const N: i64> DefaultOf<IntegerOf<i64>> for DefaultI64<N> {
    ghost default_contents = { signed_octets N };

    fn default_value() -> IntegerOf<i64> {
        IntegerOf { number: N }
    }
}

impl<'a> DefaultOf<BooleanRef<'a>> for DefaultTrue {
    ghost default_contents = { 255 ∷ [] };

    fn default_value() -> BooleanRef<'a> {
        Checked::formed(&[0xFF])
    }
}

impl<'a, T: Item> DefaultOf<SequenceOf<'a, T>> for DefaultEmpty {
    ghost default_contents = { [] };

    fn default_value() -> SequenceOf<'a, T> {
        SequenceOf::empty()
    }
}

impl<'a, T: Item> DefaultOf<SetOf<'a, T>> for DefaultEmpty {
    ghost default_contents = { [] };

    fn default_value() -> SetOf<'a, T> {
        SetOf::empty()
    }
}

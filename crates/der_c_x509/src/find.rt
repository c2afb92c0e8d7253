//! Finding an extension of a list by its type.
ghost use Rattle.std.specs.Prelude.{◌≡◌};
ghost use Rattle.x509.specs.Find.{WholeRead};
ghost use Rattle.der_c_x509.specs.FindCalls.{FindsInList, FindsType, ReadsContents, RefusesList};
ghost use Rattle.der_c_x509.specs.FindCalls.{found_answer};

use der::{Decode, DecodeValue, Error, ErrorKind, SliceReader};
use der_asn1::{Item, SequenceOf, lawful_from_der};
use der_c_core::{DerError, c_error, located_in};
use std::alloc::Global;
use x509::{Extension, Extensions, FindError, Known, KnownExtension, Occurrence};

// The extension of type `K` in the contents of a list of extensions, with its contents decoded;
// `None` if no extension has this type.
pub(crate) fn find_known<'a, K: KnownExtension<'a>>(
    alloc: Global,
    extensions: &'a [u8],
) -> Result<Option<Known<K::Value>>, DerError>
where
    K::Value: DecodeValue<SliceReader<'a>, Error = Error>,
    ensures { FindsType (RefusesList ⟦<Extension<'a> as Decode<SliceReader<'a>>>⟧.decode_answers)
        ⟦<Extension<'a> as Item>⟧.item.valid ⟦<Extension<'a> as Item>⟧.item.octets
        (WholeRead K.Value.tag_is K.Value.valid K.Value.contents K.Value.allocates
        K.Value.decode_value_answers) K.id_octets extensions.now result }
{
    match SequenceOf::<'a, Extension<'a>>::new(alloc, extensions) {
        Ok(items) => find_in_list::<K>(alloc, &Extensions { items }),
        Err(error) => Err(c_error(error)),
    }
}

// The same for a list.
fn find_in_list<'a, K: KnownExtension<'a>>(
    alloc: Global,
    extensions: &Extensions<'a>,
) -> Result<Option<Known<K::Value>>, DerError>
where
    K::Value: DecodeValue<SliceReader<'a>, Error = Error>,
    ensures { FindsInList ⟦<Extension<'a> as Item>⟧.item.valid
        ⟦<Extension<'a> as Item>⟧.item.octets (WholeRead K.Value.tag_is K.Value.valid
        K.Value.contents K.Value.allocates K.Value.decode_value_answers) K.id_octets
        extensions.now.items.octets.now result }
{
    let oid = K::identifier();
    match extensions.get(alloc, &oid) {
        Occurrence::Absent => Ok(None),
        Occurrence::Once(extension) => read_contents::<K>(alloc, &extension),
        Occurrence::Several => Err(c_error(ErrorKind::SetDuplicate.to_error())),
    }
}

// The contents of an extension as a value.
fn read_contents<'a, K: KnownExtension<'a>>(
    alloc: Global,
    extension: &Extension<'a>,
) -> Result<Option<Known<K::Value>>, DerError>
where
    K::Value: DecodeValue<SliceReader<'a>, Error = Error>,
    ensures { ReadsContents (WholeRead K.Value.tag_is K.Value.valid K.Value.contents
        K.Value.allocates K.Value.decode_value_answers) extension.now result }
{
    let octets = extension.extn_value.octets();
    match lawful_from_der::<K::Value>(alloc, octets) {
        Ok(value) => {
            let critical = extension.critical.0.is_true();
            Ok(Some(Known { critical, value }))
        }
        Err(error) => Err(located_in(octets, error)),
    }
}

// The result of a lookup, with its error as C sees it.
pub(crate) fn c_answer<T: Drop>(answer: Result<T, FindError>) -> Result<T, DerError>
    ensures { result ≡ found_answer answer }
{
    match answer {
        Ok(found) => Ok(found),
        Err(FindError::Repeated) => Err(c_error(ErrorKind::SetDuplicate.to_error())),
        Err(FindError::Contents(error)) => Err(c_error(error)),
    }
}

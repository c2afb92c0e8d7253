//! An example of a SEQUENCE of two fields, similar to the AlgorithmIdentifier in a certificate.
ghost use Rattle.std.specs.Prelude.{◌≡◌};
ghost use Rattle.std.proofs.Common.{refl};
ghost use Rattle.example_calls.specs.AlgorithmIdentifier.{AlgorithmRead, algorithm_element, algorithm_size, AlgorithmWritten, identifier_fields};

use crate::my_octets::MyOctets;
use der::example::MyByteMonth;
use der::{
    DecodeValue, Error, FieldsCall, FromFields, HasFields, Header, IsValue, Lends, Reader,
    Sequence, decode_sequence, field_refs,
};
use std::alloc::Global;

/// An example of a SEQUENCE of two fields: an algorithm and its parameter. For simplicity, the
/// algorithm is an OCTET STRING, and the parameter is a month.
#[derive(Clone, Copy)]
pub struct AlgorithmIdentifier<'a> {
    /// The algorithm. In this example it is an OCTET STRING, which is borrowed from the input.
    pub algorithm: MyOctets<'a>,
    /// The parameter of the algorithm. In this example it is a month.
    pub month: MyByteMonth,
}

impl<'a> FromFields<(MyOctets<'a>, MyByteMonth)> for AlgorithmIdentifier<'a> {
    ghost fields = { identifier_fields };

    fn from_fields((algorithm, month): (MyOctets<'a>, MyByteMonth)) -> Self {
        AlgorithmIdentifier { algorithm, month }
    }
}

impl<'a> Sequence for AlgorithmIdentifier<'a> {
    ghost meaning = { algorithm_element };

    ghost fits = { (refl, refl) };
}

impl<'a> IsValue for AlgorithmIdentifier<'a> {
    fn is_value(&self) {
        self.algorithm.is_value();
        self.month.is_value();
    }
}

impl<'a, R: Lends<Borrowed = &'a [u8]>> DecodeValue<R> for AlgorithmIdentifier<'a> {
    type Error = Error;

    ghost decode_value_answers = { AlgorithmRead };

    fn decode_value(alloc: Global, reader: &mut R, header: Header) -> Result<Self, Error>
    where
        R: Reader,
    {
        decode_sequence::<R, (MyOctets<'a>, MyByteMonth), Self>(alloc, reader, header)
    }
}

impl<'a> HasFields for AlgorithmIdentifier<'a> {
    ghost fields_size = { algorithm_size };

    ghost fields_answers = { AlgorithmWritten };

    #[inline(always)]
    fn call_fields<S, C: FieldsCall<S>>(
        &self,
        call: &C,
        state: &mut S,
        buf: &mut [u8],
    ) -> C::Output {
        call.call(&field_refs!(self, (algorithm, month)), state, buf)
    }
}

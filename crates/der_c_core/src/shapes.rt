//! The sizes and alignments of structs. `bindings/c/yotremul/der.h` promises them to C programs.
use crate::bits::DerBits;
use crate::counter::DerCounter;
use crate::element::DerElement;
use crate::error::DerError;
use crate::header::DerHeader;
use crate::mark::DerMark;
use crate::reader::DerReader;
use crate::span::DerSpan;
use crate::tree::DerNode;
use crate::writer::DerWriter;

const _: () = prove!(size_of::<usize>() == 8);

const _: () = prove!(size_of::<bool>() == 1);

const _: () = prove!(size_of::<DerError>() == 16);

const _: () = prove!(align_of::<DerError>() == 4);

const _: () = prove!(size_of::<DerHeader>() == 16);

const _: () = prove!(align_of::<DerHeader>() == 8);

const _: () = prove!(size_of::<DerReader<'static>>() == 32);

const _: () = prove!(align_of::<DerReader<'static>>() == 8);

const _: () = prove!(size_of::<DerElement<'static>>() == 40);

const _: () = prove!(align_of::<DerElement<'static>>() == 8);

const _: () = prove!(size_of::<DerSpan<'static>>() == 16);

const _: () = prove!(align_of::<DerSpan<'static>>() == 8);

const _: () = prove!(size_of::<DerNode>() == 24);

const _: () = prove!(align_of::<DerNode>() == 8);

const _: () = prove!(size_of::<DerWriter<'static>>() == 40);

const _: () = prove!(align_of::<DerWriter<'static>>() == 8);

const _: () = prove!(size_of::<DerBits<'static>>() == 24);

const _: () = prove!(align_of::<DerBits<'static>>() == 8);

const _: () = prove!(size_of::<DerMark>() == 16);

const _: () = prove!(align_of::<DerMark>() == 8);

const _: () = prove!(size_of::<DerCounter>() == 16);

const _: () = prove!(align_of::<DerCounter>() == 8);

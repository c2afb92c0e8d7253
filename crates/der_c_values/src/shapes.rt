//! The sizes and alignments of structs. `bindings/c/yotremul/der.h` promises them to C programs.
use crate::text::DerText;
use crate::time::DerTime;

const _: () = prove!(size_of::<DerText<'static>>() == 24);

const _: () = prove!(align_of::<DerText<'static>>() == 8);

const _: () = prove!(size_of::<DerTime>() == 16);

const _: () = prove!(align_of::<DerTime>() == 8);

//! The size and the alignment of a struct. `bindings/c/yotremul/der.h` promises them to C programs.
use crate::assembly::certificate::DerCertificateParts;

const _: () = prove!(size_of::<DerCertificateParts<'static>>() == 112);

const _: () = prove!(align_of::<DerCertificateParts<'static>>() == 8);

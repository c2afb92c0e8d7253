//! The sizes and alignments of structs. `bindings/c/yotremul/der.h` promises them to C programs.
use crate::access::DerAccessDescription;
use crate::algorithm::DerAlgorithm;
use crate::any::DerAny;
use crate::attribute::DerAttribute;
use crate::authority_key::DerAuthorityKey;
use crate::basic_constraints::DerBasicConstraints;
use crate::certificate::DerCertificate;
use crate::distribution_point::DerDistributionPoint;
use crate::extension::DerExtension;
use crate::found::DerFound;
use crate::general_name::DerGeneralName;
use crate::key_usage::DerKeyUsage;
use crate::private_key::DerPrivateKey;
use crate::public_key::DerPublicKey;
use crate::request::DerRequest;
use crate::revocation_list::DerRevocationList;
use crate::revoked::DerRevoked;
use crate::subject_names::DerGeneralNames;

const _: () = prove!(size_of::<DerAny<'static>>() == 24);

const _: () = prove!(align_of::<DerAny<'static>>() == 8);

const _: () = prove!(size_of::<DerAlgorithm<'static>>() == 40);

const _: () = prove!(align_of::<DerAlgorithm<'static>>() == 8);

const _: () = prove!(size_of::<DerPublicKey<'static>>() == 80);

const _: () = prove!(align_of::<DerPublicKey<'static>>() == 8);

const _: () = prove!(size_of::<DerCertificate<'static>>() == 336);

const _: () = prove!(align_of::<DerCertificate<'static>>() == 8);

const _: () = prove!(size_of::<DerExtension<'static>>() == 40);

const _: () = prove!(align_of::<DerExtension<'static>>() == 8);

const _: () = prove!(size_of::<DerAttribute<'static>>() == 40);

const _: () = prove!(align_of::<DerAttribute<'static>>() == 8);

const _: () = prove!(size_of::<DerGeneralName<'static>>() == 64);

const _: () = prove!(align_of::<DerGeneralName<'static>>() == 8);

const _: () = prove!(size_of::<DerKeyUsage>() == 4);

const _: () = prove!(align_of::<DerKeyUsage>() == 2);

const _: () = prove!(size_of::<DerGeneralNames<'static>>() == 24);

const _: () = prove!(align_of::<DerGeneralNames<'static>>() == 8);

const _: () = prove!(size_of::<DerBasicConstraints>() == 16);

const _: () = prove!(align_of::<DerBasicConstraints>() == 8);

const _: () = prove!(size_of::<DerRequest<'static>>() == 192);

const _: () = prove!(align_of::<DerRequest<'static>>() == 8);

const _: () = prove!(size_of::<DerPrivateKey<'static>>() == 104);

const _: () = prove!(align_of::<DerPrivateKey<'static>>() == 8);

const _: () = prove!(size_of::<DerRevocationList<'static>>() == 192);

const _: () = prove!(align_of::<DerRevocationList<'static>>() == 8);

const _: () = prove!(size_of::<DerRevoked<'static>>() == 48);

const _: () = prove!(align_of::<DerRevoked<'static>>() == 8);

const _: () = prove!(size_of::<DerFound<'static>>() == 24);

const _: () = prove!(align_of::<DerFound<'static>>() == 8);

const _: () = prove!(size_of::<DerAuthorityKey<'static>>() == 56);

const _: () = prove!(align_of::<DerAuthorityKey<'static>>() == 8);

const _: () = prove!(size_of::<DerAccessDescription<'static>>() == 80);

const _: () = prove!(align_of::<DerAccessDescription<'static>>() == 8);

const _: () = prove!(size_of::<DerDistributionPoint<'static>>() == 56);

const _: () = prove!(align_of::<DerDistributionPoint<'static>>() == 8);

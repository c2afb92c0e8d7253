//! Messages that are signed, encrypted, authenticated or compressed (RFC 5652, RFC 5083, RFC 3274),
//! attributes of signatures (RFC 5035), and timestamps (RFC 3161), borrowed from the input. Each
//! type is lawful: decoding succeeds if and only if the octets are the encoding of a value. Nothing
//! is allocated. The types are compiled from `asn1/cms.asn1`. `asn1::values` has the identifiers of
//! contents and attributes.
//!
//! Decoding checks the syntax only. No signature, authentication code or digest is verified, and
//! nothing is decrypted or decompressed. Under the Basic Encoding Rules (`from_ber`), lengths may
//! be indefinite, and a content may be in segments ([`Segmented`], [`EncryptedOctets`]). The items
//! of lists must still be DER and in order.
#![tactic(auto)]

pub mod asn1;
mod encrypted_octets;
mod ess_cert_id_v2;
mod sha256_default;
mod signed_attributes;

pub use asn1::Accuracy;
pub use asn1::AccuracyFields;
pub use asn1::AuthAttributes;
pub use asn1::AuthEnvelopedData;
pub use asn1::AuthEnvelopedDataFields;
pub use asn1::AuthenticatedData;
pub use asn1::AuthenticatedDataFields;
pub use asn1::CertificateChoices;
pub use asn1::CertificateSet;
pub use asn1::CmsVersion;
pub use asn1::CompressedData;
pub use asn1::CompressedDataFields;
pub use asn1::ContentInfo;
pub use asn1::ContentInfoFields;
pub use asn1::ContentType;
pub use asn1::Countersignature;
pub use asn1::DigestedData;
pub use asn1::DigestedDataFields;
pub use asn1::EncapsulatedContentInfo;
pub use asn1::EncapsulatedContentInfoFields;
pub use asn1::EncryptedContentInfo;
pub use asn1::EncryptedContentInfoFields;
pub use asn1::EncryptedData;
pub use asn1::EncryptedDataFields;
pub use asn1::EnvelopedData;
pub use asn1::EnvelopedDataFields;
pub use asn1::EssCertId;
pub use asn1::EssCertIdFields;
pub use asn1::GeneralNameTagged;
pub use asn1::GeneralNameTaggedFields;
pub use asn1::IssuerAndSerialNumber;
pub use asn1::IssuerAndSerialNumberFields;
pub use asn1::IssuerSerial;
pub use asn1::IssuerSerialFields;
pub use asn1::KekIdentifier;
pub use asn1::KekIdentifierFields;
pub use asn1::KekRecipientInfo;
pub use asn1::KekRecipientInfoFields;
pub use asn1::KeyAgreeRecipientIdentifier;
pub use asn1::KeyAgreeRecipientIdentifierAlternatives;
pub use asn1::KeyAgreeRecipientInfo;
pub use asn1::KeyAgreeRecipientInfoFields;
pub use asn1::KeyTransRecipientInfo;
pub use asn1::KeyTransRecipientInfoFields;
pub use asn1::MessageDigest;
pub use asn1::MessageImprint;
pub use asn1::MessageImprintFields;
pub use asn1::OriginatorIdentifierOrKey;
pub use asn1::OriginatorIdentifierOrKeyTagged;
pub use asn1::OriginatorIdentifierOrKeyTaggedFields;
pub use asn1::OriginatorInfo;
pub use asn1::OriginatorInfoFields;
pub use asn1::OriginatorPublicKey;
pub use asn1::OtherCertificateFormat;
pub use asn1::OtherKeyAttribute;
pub use asn1::OtherRecipientInfo;
pub use asn1::OtherRevocationInfoFormat;
pub use asn1::PasswordRecipientInfo;
pub use asn1::PasswordRecipientInfoFields;
pub use asn1::Pkcs7ContentInfo;
pub use asn1::Pkcs7ContentInfoFields;
pub use asn1::Pkcs7SignedData;
pub use asn1::Pkcs7SignedDataFields;
pub use asn1::PkiFailureInfo;
pub use asn1::PkiFailureInfoBit;
pub use asn1::PkiStatus;
pub use asn1::PkiStatusInfo;
pub use asn1::PkiStatusInfoFields;
pub use asn1::RecipientEncryptedKey;
pub use asn1::RecipientEncryptedKeyFields;
pub use asn1::RecipientIdentifier;
pub use asn1::RecipientInfo;
pub use asn1::RecipientInfos;
pub use asn1::RecipientKeyIdentifier;
pub use asn1::RevocationInfoChoice;
pub use asn1::RevocationInfoChoiceAlternatives;
pub use asn1::RevocationInfoChoices;
pub use asn1::SignedData;
pub use asn1::SignedDataFields;
pub use asn1::SignedMessage;
pub use asn1::SignedMessageFields;
pub use asn1::SignerIdentifier;
pub use asn1::SignerIdentifierAlternatives;
pub use asn1::SignerInfo;
pub use asn1::SignerInfoFields;
pub use asn1::SigningCertificate;
pub use asn1::SigningCertificateFields;
pub use asn1::SigningCertificateV2;
pub use asn1::SigningCertificateV2Fields;
pub use asn1::SigningTime;
pub use asn1::TimeStampReq;
pub use asn1::TimeStampReqFields;
pub use asn1::TimeStampResp;
pub use asn1::TimeStampRespFields;
pub use asn1::TimeStampToken;
pub use asn1::TsaPolicyId;
pub use asn1::TstInfo;
pub use asn1::TstInfoFields;
pub use der_asn1::FractionalTimeRef;
pub use der_segments::Segmented;
pub use encrypted_octets::EncryptedOctets;
pub use ess_cert_id_v2::EssCertIdV2;
pub use ess_cert_id_v2::EssCertIdV2Fields;
pub use sha256_default::Sha256Default;

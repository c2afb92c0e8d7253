//! The kinds of values that the program knows.

use crate::table;

/// A kind of value, such as a certificate, that the program knows.
#[derive(Clone, Copy, Debug, PartialEq, Eq)]
pub enum Kind {
    /// A certificate (RFC 5280, 4.1).
    Certificate,
    /// A certificate request (RFC 2986, 4).
    Request,
    /// A certificate revocation list (RFC 5280, 5.1).
    RevocationList,
    /// A SubjectPublicKeyInfo: a public key and its algorithm (RFC 5280, 4.1).
    PublicKey,
    /// A private key (RFC 5958, 2).
    PrivateKey,
    /// An encrypted private key (RFC 5958, 3).
    EncryptedPrivateKey,
    /// A private key of RSA (RFC 8017, A.1.2).
    RsaPrivateKey,
    /// A public key of RSA (RFC 8017, A.1.1).
    RsaPublicKey,
    /// A private key of an elliptic curve (RFC 5915, 3).
    EcPrivateKey,
    /// Parameters of an elliptic curve (RFC 5480, 2.1.1).
    EcParameters,
    /// A private key of DSA, in the form that OpenSSL writes.
    DsaPrivateKey,
    /// Parameters of DSA (RFC 3279, 2.3.2).
    DsaParameters,
    /// Parameters of Diffie-Hellman (PKCS #3, 9).
    DhParameters,
    /// A CMS or PKCS #7 message (RFC 5652, 3), for example a timestamp token.
    Message,
    /// A PKCS #12 file of keys and certificates (RFC 7292, 4).
    Pfx,
    /// An OCSP request (RFC 6960, 4.1).
    OcspRequest,
    /// An OCSP response (RFC 6960, 4.2).
    OcspResponse,
    /// A timestamp request (RFC 3161, 2.4.1).
    TimestampRequest,
    /// A timestamp response (RFC 3161, 2.4.2).
    TimestampResponse,
    /// Parameters of Diffie-Hellman in the form of X9.42, which have the order of a subgroup (RFC
    /// 3279, 2.3.3).
    X942Parameters,
    /// The SignedData of a CMS message, without the ContentInfo around it (RFC 5652, 5.1).
    SignedData,
    /// A signed public key and challenge (SPKAC), as browsers used to send them.
    SignedKey,
    /// An attribute certificate (RFC 5755, 4.1).
    AttributeCertificate,
    /// A pair of certificates that two authorities have issued to each other (X.509, 2005, 11.2.3).
    CertificatePair,
}

/// All kinds. [`find_kind`](crate::find_kind) tries the kinds in this order.
pub static KINDS: [Kind; 24] = [
    Kind::Certificate,
    Kind::Request,
    Kind::RevocationList,
    Kind::PublicKey,
    Kind::PrivateKey,
    Kind::EncryptedPrivateKey,
    Kind::RsaPrivateKey,
    Kind::RsaPublicKey,
    Kind::EcPrivateKey,
    Kind::EcParameters,
    Kind::DsaPrivateKey,
    Kind::DsaParameters,
    Kind::DhParameters,
    Kind::Message,
    Kind::Pfx,
    Kind::OcspRequest,
    Kind::OcspResponse,
    Kind::TimestampRequest,
    Kind::TimestampResponse,
    Kind::X942Parameters,
    Kind::SignedData,
    Kind::SignedKey,
    Kind::AttributeCertificate,
    Kind::CertificatePair,
];

impl Kind {
    /// The word that stands for the kind in the option `--as` and in JSON output.
    pub fn word(self) -> &'static str {
        match self {
            Kind::Certificate => "certificate",
            Kind::Request => "request",
            Kind::RevocationList => "crl",
            Kind::PublicKey => "public-key",
            Kind::PrivateKey => "private-key",
            Kind::EncryptedPrivateKey => "encrypted-private-key",
            Kind::RsaPrivateKey => "rsa-private-key",
            Kind::RsaPublicKey => "rsa-public-key",
            Kind::EcPrivateKey => "ec-private-key",
            Kind::EcParameters => "ec-parameters",
            Kind::DsaPrivateKey => "dsa-private-key",
            Kind::DsaParameters => "dsa-parameters",
            Kind::DhParameters => "dh-parameters",
            Kind::Message => "cms",
            Kind::Pfx => "pkcs12",
            Kind::OcspRequest => "ocsp-request",
            Kind::OcspResponse => "ocsp-response",
            Kind::TimestampRequest => "timestamp-request",
            Kind::TimestampResponse => "timestamp-response",
            Kind::X942Parameters => "x942-parameters",
            Kind::SignedData => "signed-data",
            Kind::SignedKey => "spkac",
            Kind::AttributeCertificate => "attribute-certificate",
            Kind::CertificatePair => "certificate-pair",
        }
    }

    /// The kind for which this word stands in the option `--as`. `None` if it stands for no kind.
    pub fn of_word(word: &str) -> Option<Kind> {
        for kind in KINDS {
            if kind.word() == word {
                return Some(kind);
            }
        }
        None
    }

    /// The label of a PEM block that contains a value of this kind.
    pub fn label(self) -> &'static str {
        match self {
            Kind::Certificate => "CERTIFICATE",
            Kind::Request => "CERTIFICATE REQUEST",
            Kind::RevocationList => "X509 CRL",
            Kind::PublicKey => "PUBLIC KEY",
            Kind::PrivateKey => "PRIVATE KEY",
            Kind::EncryptedPrivateKey => "ENCRYPTED PRIVATE KEY",
            Kind::RsaPrivateKey => "RSA PRIVATE KEY",
            Kind::RsaPublicKey => "RSA PUBLIC KEY",
            Kind::EcPrivateKey => "EC PRIVATE KEY",
            Kind::EcParameters => "EC PARAMETERS",
            Kind::DsaPrivateKey => "DSA PRIVATE KEY",
            Kind::DsaParameters => "DSA PARAMETERS",
            Kind::DhParameters => "DH PARAMETERS",
            Kind::Message => "CMS",
            Kind::Pfx => "PKCS12",
            Kind::OcspRequest => "OCSP REQUEST",
            Kind::OcspResponse => "OCSP RESPONSE",
            Kind::TimestampRequest => "TIMESTAMP REQUEST",
            Kind::TimestampResponse => "TIMESTAMP RESPONSE",
            Kind::X942Parameters => "X9.42 DH PARAMETERS",
            Kind::SignedData => "SIGNED DATA",
            Kind::SignedKey => "SPKAC",
            Kind::AttributeCertificate => "ATTRIBUTE CERTIFICATE",
            Kind::CertificatePair => "CERTIFICATE PAIR",
        }
    }

    /// The kind of the value in a PEM block with this label. `None` if the label is unknown.
    pub fn of_label(label: &str) -> Option<Kind> {
        match label {
            "X509 CERTIFICATE" | "TRUSTED CERTIFICATE" => Some(Kind::Certificate),
            "NEW CERTIFICATE REQUEST" => Some(Kind::Request),
            "PKCS7" | "PKCS #7 SIGNED DATA" => Some(Kind::Message),
            "SM2 PARAMETERS" => Some(Kind::EcParameters),
            _ => of_own_label(label),
        }
    }

    /// The ASN.1 type of the values of this kind, as its index in the table of types.
    pub fn node(self) -> u32 {
        match self {
            Kind::Certificate => table::CERTIFICATE,
            Kind::Request => table::REQUEST,
            Kind::RevocationList => table::REVOCATION_LIST,
            Kind::PublicKey => table::PUBLIC_KEY,
            Kind::PrivateKey => table::PRIVATE_KEY,
            Kind::EncryptedPrivateKey => table::ENCRYPTED_PRIVATE_KEY,
            Kind::RsaPrivateKey => table::RSA_PRIVATE_KEY,
            Kind::RsaPublicKey => table::RSA_PUBLIC_KEY,
            Kind::EcPrivateKey => table::EC_PRIVATE_KEY,
            Kind::EcParameters => table::EC_PARAMETERS,
            Kind::DsaPrivateKey => table::DSA_PRIVATE_KEY,
            Kind::DsaParameters => table::DSA_PARAMETERS,
            Kind::DhParameters => table::DH_PARAMETERS,
            Kind::Message => table::MESSAGE,
            Kind::Pfx => table::PFX,
            Kind::OcspRequest => table::OCSP_REQUEST,
            Kind::OcspResponse => table::OCSP_RESPONSE,
            Kind::TimestampRequest => table::TIMESTAMP_REQUEST,
            Kind::TimestampResponse => table::TIMESTAMP_RESPONSE,
            Kind::X942Parameters => table::X942_PARAMETERS,
            Kind::SignedData => table::SIGNED_DATA,
            Kind::SignedKey => table::SIGNED_KEY,
            Kind::AttributeCertificate => table::ATTRIBUTE_CERTIFICATE,
            Kind::CertificatePair => table::CERTIFICATE_PAIR,
        }
    }
}

fn of_own_label(label: &str) -> Option<Kind> {
    for kind in KINDS {
        if kind.label() == label {
            return Some(kind);
        }
    }
    None
}

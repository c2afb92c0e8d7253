//! The texts of `--help`.

/// The text that `--help` prints above the options. It says what the program does.
pub static ABOUT: &str = "\
Shows what DER, BER and PEM files hold, and messages in mail: certificates, requests, revocation lists, keys, signed \
and encrypted messages, PKCS #12, OCSP and timestamps by their fields, and any other file as elements. A file is shown as far as \
it can be read. Below it is a list of the departures: places that depart from the Distinguished Encoding Rules.";

/// The text that `--help` prints below the options.
pub static AFTER: &str = "\
Kinds: certificate, request, crl, public-key, private-key, encrypted-private-key, rsa-private-key, rsa-public-key,
ec-private-key, ec-parameters, dsa-private-key, dsa-parameters, dh-parameters, x942-parameters, cms, signed-data,
pkcs12, ocsp-request, ocsp-response, timestamp-request, timestamp-response, spkac, attribute-certificate,
certificate-pair

In --json, fields have the names of the ASN.1 modules. Octets are in hexadecimal, and so are numbers that are
negative or not below 2^53. Control characters, characters that cannot be seen and those that change the direction of
a line are escaped everywhere: on lines as \\ and two digits for each octet in UTF-8, in JSON as \\u and four digits.

A text may have a byte order mark, be in UTF-16 or be indented. Of mail, the parts application/pkcs7-* in base64 are
shown. Fingerprints are SHA-256 and SHA-1 of a certificate or its public key in DER, as --der writes it; of a damaged
one, of its octets.

--der writes values that are BER, and not DER, in DER; contents of OCTET STRINGs and elements of unknown types stay
as they are. If what is written is not DER, standard error says so. Nothing is verified and nothing is decrypted.

Secret parts of keys are printed by --json, --der, --pem, --tree, --schema and --module alone. No other form prints
contents of a file of no known kind, or octets at a departure, if the label, the kind or the first elements say that
it may be a private key. Keys of OpenSSH and OpenPGP are not ASN.1: nothing of them is printed.

The exit status is 0 if all was shown and nothing departs from DER; 1 if there is a departure, if --lint finds a
broken rule, or if a file cannot be read, which standard error says; and 2 if the words are no command.";

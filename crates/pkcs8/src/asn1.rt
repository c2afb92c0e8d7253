//! Written by asn1_compile from the module PrivateKeys: change the module instead.
//!
//! The types of the module.

mod encrypted_private_key_info;
mod pbe_parameter;
mod pbes2_params;
mod pbkdf2_params;
mod pbkdf2_salt;
mod private_key_attribute;
mod private_key_attributes;
mod private_key_info;
mod scrypt_params;
pub mod values;
mod version;

pub use encrypted_private_key_info::{EncryptedPrivateKeyInfo, EncryptedPrivateKeyInfoFields};
pub use pbe_parameter::{PbeParameter, PbeParameterFields};
pub use pbes2_params::{Pbes2Params, Pbes2ParamsFields};
pub use pbkdf2_params::{Pbkdf2Params, Pbkdf2ParamsFields};
pub use pbkdf2_salt::{Pbkdf2Salt, Pbkdf2SaltAlternatives};
pub use private_key_attribute::{PrivateKeyAttribute, PrivateKeyAttributeFields};
pub use private_key_attributes::PrivateKeyAttributes;
pub use private_key_info::{PrivateKeyInfo, PrivateKeyInfoFields};
pub use scrypt_params::{ScryptParams, ScryptParamsFields};
pub use version::Version;

//! Fields with a DEFAULT. The types and traits differ in how the code decides whether a value is
//! the default.
//!
//! | Type or trait | Meaning |
//! |---|---|
//! | `DefaultValue` | a type that has a default value, and knows which values are the default |
//! | `HasDefault` | a type that has a default value, and that a reader can decode |
//! | `DefaultContents` | a type whose default value has given contents octets |
//! | `DefaultElement` | a type with a fixed tag that has a default value |
//! | `DefaultOf`, `WithDefault` | the default of one field, if its type has another default or none |
//! | `Defaulted` | a DEFAULT field whose type has the default |
//! | `DefaultEncoding`, `DefaultedTo` | a DEFAULT field whose default is given by its contents octets |
//! | `DefaultField` | a DEFAULT field whose value can be taken out of its tags |

pub(crate) mod constants;
pub(crate) mod contents;
pub(crate) mod defaulted;
pub(crate) mod defaulted_to;
pub(crate) mod element;
pub(crate) mod field;
pub(crate) mod with_default;

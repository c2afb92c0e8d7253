//! How far a room is filled.

// How far a room of the caller is filled with what an extension of a certificate lists.
#[derive(Clone, Copy, Debug, Drop, PartialEq, Eq)]
pub(crate) enum Filled {
    // Up to this place.
    To(usize),
    // There is too little room.
    NoRoom,
    // The extension occurs twice, or it is malformed.
    Unreadable,
}

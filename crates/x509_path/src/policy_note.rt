//! What is noted of the policies of a certificate.

/// What a certificate says of policies (RFC 5280, 4.2.1.4, 4.2.1.5, 4.2.1.11, 4.2.1.14). Its
/// policies and its mappings are parts of two rooms, into which `read_policies` puts them.
#[derive(Clone, Copy, Debug, Drop)]
pub struct PolicyNote {
    pub(crate) policies_from: usize,
    pub(crate) policies_to: usize,
    pub(crate) mappings_from: usize,
    pub(crate) mappings_to: usize,
    pub(crate) require_explicit: Option<u64>,
    pub(crate) inhibit_mapping: Option<u64>,
    pub(crate) inhibit_any: Option<u64>,
    pub(crate) is_self_issued: bool,
}

impl PolicyNote {
    /// A note to fill a room with.
    pub const EMPTY: PolicyNote = PolicyNote {
        policies_from: 0,
        policies_to: 0,
        mappings_from: 0,
        mappings_to: 0,
        require_explicit: None,
        inhibit_mapping: None,
        inhibit_any: None,
        is_self_issued: false,
    };
}

// What was read of a certificate.
#[derive(Clone, Copy, Debug, Drop)]
pub(crate) enum Noted {
    // A note.
    Read(PolicyNote),
    // There is too little room for its policies or its mappings.
    NoRoom,
    // An extension occurs twice, is malformed, or has a negative number.
    Unreadable,
}

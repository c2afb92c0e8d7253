//! Kinds of faults of tables.

/// Why octets are not a well-formed table of types.
#[derive(Debug, Clone, Copy, PartialEq, Eq)]
pub enum FaultKind {
    /// There are fewer than 32 octets. The header of a table has 32 octets.
    TooShort,
    /// The octets do not begin with `YSCH`.
    Magic,
    /// The version of the table is not 1.
    Version,
    /// There are more or fewer octets than a table with the counts in the header has.
    Size,
    /// The octet for the kind of a node is not the number of a [`NodeKind`](crate::NodeKind).
    Kind,
    /// The octet for the class of a tag has a bit set that is neither bit 8 nor bit 7.
    Class,
    /// An octet that must be 0 or 1 has another value.
    Flag,
    /// The name of a node, of a field or of a number is not a range of octets of the pool, or is
    /// not UTF-8.
    Name,
    /// The node of a field, or of a type that an open type may be, does not exist: its index is too
    /// large.
    Node,
    /// The inner node of a node is wrong:
    ///
    /// - the node has an inner node, but its kind allows none;
    /// - the node has no inner node, but its kind needs one;
    /// - the index of the inner node is too large.
    Inner,
    /// The parts of a node are not a range of rows of the section that its kind uses (fields,
    /// names, or types of open types). Or a CHOICE has no alternative.
    Parts,
    /// The limits of a node are not a range of rows of the section of limits.
    Limits,
    /// The number `chooser` of a node is too large:
    ///
    /// - For an open type, it must be the index of a field.
    /// - For a SEQUENCE or a SET with an extension marker, it must not be above the number of its
    ///   fields.
    /// - For any other node, it must be 0.
    Chooser,
    /// The number for the presence of a field is not the number of a [`Presence`](crate::Presence).
    Presence,
    /// The DEFAULT value of a field is not a range of octets of the pool, or a field without
    /// DEFAULT has a range that is not empty.
    Default,
    /// The number for the kind of a limit is not the number of a [`LimitKind`](crate::LimitKind).
    Limit,
    /// The OBJECT IDENTIFIER of a type that an open type may be is not a range of octets of the
    /// pool.
    Identifier,
    /// The rows for an open type are not sorted by OBJECT IDENTIFIER: the contents octets in a row
    /// are not after the contents octets in the row before, in byte order.
    Order,
    /// A CHOICE has an alternative that is a CHOICE too. The inner CHOICE must come before the
    /// outer CHOICE in the table, but does not.
    Choice,
    /// Two fields of a type may begin with the same tag, and the earlier field may be absent where
    /// the later one follows.
    Tag,
}

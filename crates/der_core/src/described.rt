//! Types with the specification of an element.
ghost use Rattle.der_core.specs.ElementSpec.{ElementSpec};

/// Types that have, for proofs, a specification of their elements. The specification says which
/// octets are accepted as an element, which values are valid and how values are encoded. It also
/// contains proofs, such as that every accepted value is valid. These proofs apply if the member
/// `is_compatible` of the specification is true.
///
/// Ghost member (for proofs only): `element` is the specification. A contract in other code names
/// it as `⟦<AnyType as Described>⟧.element`, with the type in place of `AnyType`. In this way the
/// specification of a SEQUENCE is composed from the specifications of its fields.
pub trait Described: Sized {
    ghost element: { ElementSpec Self };
}

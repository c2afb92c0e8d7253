//! Checks of the number of octets, the first octet and the last octet of contents.
ghost use Rattle.std.specs.Prelude.{◌≡◌};
ghost use Rattle.schema_rules.specs.Small.{has_octets, has_one_octet, has_unused_bits};
ghost use Rattle.schema_rules.specs.Small.{has_none_unused, ends_whole};
ghost use Rattle.schema_rules.specs.Small.{begins_with_solidus, begins_without_solidus};

// Whether there are octets.
pub(crate) fn has_octets(contents: &[u8]) -> bool
    ensures { result ≡ has_octets contents.now }
{
    match contents {
        [] => false,
        [_, ..] => true,
    }
}

// Whether there is exactly one octet.
pub(crate) fn has_one_octet(contents: &[u8]) -> bool
    ensures { result ≡ has_one_octet contents.now }
{
    matches!(contents, [_])
}

// Whether the first octet is a solidus.
pub(crate) fn begins_with_solidus(contents: &[u8]) -> bool
    ensures { result ≡ begins_with_solidus contents.now }
{
    match contents {
        [] => false,
        [first, ..] => *first == b'/',
    }
}

// Whether there is a first octet, and it is no solidus.
pub(crate) fn begins_without_solidus(contents: &[u8]) -> bool
    ensures { result ≡ begins_without_solidus contents.now }
{
    match contents {
        [] => false,
        [first, ..] => *first != b'/',
    }
}

// Whether the initial octet is from zero to seven.
pub(crate) fn has_unused_bits(contents: &[u8]) -> bool
    ensures { result ≡ has_unused_bits contents.now }
{
    match contents {
        [] => true,
        [unused, ..] => *unused < 8,
    }
}

// Whether an initial octet that is the only one is zero.
pub(crate) fn has_none_unused(contents: &[u8]) -> bool
    ensures { result ≡ has_none_unused contents.now }
{
    match contents {
        [unused] => *unused == 0,
        _ => true,
    }
}

// Whether bit 8 of the last octet is zero, or there are no octets.
pub(crate) fn ends_whole(contents: &[u8]) -> bool
    ensures { result ≡ ends_whole contents.now }
{
    match contents {
        [] => true,
        [.., last] => *last < 0x80,
    }
}

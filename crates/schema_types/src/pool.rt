//! Octets and texts of the pool.
ghost use Rattle.std.specs.Prelude.{◌≡◌, ◌↔◌, true, IsTrue, length};
ghost use Rattle.std.specs.Str.{is_utf8};
ghost use Rattle.schema_types.specs.Span.{IsWithin};
ghost use Rattle.schema_types.specs.Pool.{octets_of, IsText};

use crate::span::Span;

// The octets of a range of the pool.
#[inline(always)]
pub(crate) fn octets_of(pool: &[u8], span: Span) -> &[u8]
    requires { IsWithin span (length pool.now) }
    ensures { result.now ≡ octets_of pool.now span }
{
    let start = span.start as usize;
    &pool[start..start + span.count as usize]
}

// Whether a range is one of the pool, with a text in UTF-8.
pub(crate) fn is_text(pool: &[u8], span: Span) -> bool
    ensures { IsTrue result ↔ IsText pool.now span }
{
    span.is_within(pool.len()) && is_utf8(octets_of(pool, span))
}

// The text of a range of the pool.
#[inline(always)]
pub(crate) fn text_of(pool: &[u8], span: Span) -> &str
    requires { IsText pool.now span }
    ensures { result.now ≡ octets_of pool.now span }
{
    unsafe { std::str::from_utf8_unchecked(octets_of(pool, span)) }
}

fn is_utf8(octets: &[u8]) -> bool
    ensures { result ≡ is_utf8 octets.now }
{
    std::str::from_utf8(octets).is_ok()
}

//! The version of the library.
ghost use Rattle.std.specs.Prelude.{◌≡◌};

/// Returns the version of this library: 10000 times the major number, plus 100 times the minor
/// number, plus the patch number. It is equal to `DER_VERSION` in the header that belongs to this
/// library.
#[unsafe(no_mangle)]
pub extern "C" fn der_version() -> u32
    ensures { result ≡ 300 }
{
    300
}

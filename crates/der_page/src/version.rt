//! The version of the module.
ghost use Rattle.std.specs.Prelude.{◌≡◌};

/// The version of the module: 10000 times the major number, plus 100 times the minor number, plus
/// the patch number.
#[unsafe(no_mangle)]
pub extern "C" fn page_version() -> u32
    ensures { result ≡ 300 }
{
    300
}

//! The version, as a number.
ghost use Rattle.std.specs.Prelude.{◌≡◌};
ghost use Rattle.mvtgate_c.specs.Version.{version};

// (the script `library` reads these too)
const MAJOR: u32 = 0;

const MINOR: u32 = 1;

const PATCH: u32 = 0;

/// `uint32_t mvtgate_version(void)`: 10000 times the major number, 100 times the minor one, and the
/// patch number.
#[unsafe(no_mangle)]
pub extern "C" fn mvtgate_version() -> u32
    ensures { result ≡ version }
{
    10000 * MAJOR + 100 * MINOR + PATCH
}

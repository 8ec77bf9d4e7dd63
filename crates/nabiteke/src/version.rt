// The function for C that gives the archive's version.
ghost use Rattle.std.specs.Prelude.{◌≡◌};
ghost use Rattle.nabiteke.specs.Version.{version};

// The version, as include/nabiteke.h has it in NABITEKE_VERSION.
#[unsafe(no_mangle)]
pub extern "C" fn nabiteke_version() -> u32
    ensures { result ≡ version }
{
    20100
}

// The version, so that a caller can hold the library that it is linked with to the header that it was compiled with.
ghost use Rattle.std.specs.Prelude.{◌≡◌};
ghost use Rattle.panel.specs.Version.{version};

const MAJOR: u32 = 0;

const MINOR: u32 = 8;

const PATCH: u32 = 0;

// The version as one number.
#[unsafe(no_mangle)]
pub extern "C" fn panel_version() -> u32
    ensures { result ≡ version }
{
    MAJOR * 10000 + MINOR * 100 + PATCH
}

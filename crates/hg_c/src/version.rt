//! The release of this library.

ghost use Rattle.std.specs.Prelude.{◌≡◌};
ghost use Rattle.hg_c.specs.Version.{release};

const MAJOR: u32 = 0;

const MINOR: u32 = 1;

const PATCH: u32 = 0;

/// The release as one number, which rises from release to release.
pub fn version() -> u32
    ensures { result ≡ release 0 1 0 }
{
    MAJOR * 65_536 + MINOR * 256 + PATCH
}

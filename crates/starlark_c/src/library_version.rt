//! The version of the library.

ghost use Rattle.std.specs.Prelude.{◌≡◌};
ghost use Rattle.starlark_c.specs.LibraryVersion.{version_number};

/// The first part of the version: it changes where a caller has to be compiled again.
pub const MAJOR: u32 = 0;
/// The second part: while the first is 0, it changes in its place.
pub const MINOR: u32 = 2;
/// The third part.
pub const PATCH: u32 = 0;

/// The version as one number, of which each part after the first has three digits.
pub fn version() -> u32
    ensures { result ≡ version_number MAJOR MINOR PATCH }
{
    MAJOR * 1_000_000 + MINOR * 1_000 + PATCH
}

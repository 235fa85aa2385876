//! The versions of the format.

ghost use Rattle.std.specs.Prelude.{◌≡◌, ◌↔◌, Some, None, take};
ghost use Rattle.package_codec.specs.Version.{HasMagic, has_magic, magic, version_of};

/// The number of bytes of a magic.
pub const MAGIC_LENGTH: usize = 8;

/// A version of the format. Both are read, and packages are written in the second.
#[derive(Clone, Copy, Debug, PartialEq, Eq)]
pub enum Version {
    /// The trace is written event by event.
    One,
    /// The trace is written in runs, and tables have their foreign keys.
    Two,
}

/// The version of a package, by its first eight bytes. `None` if and only if they are no version's magic, or
/// there are fewer. It takes no memory.
pub fn version_of(bytes: &[u8]) -> Option<Version>
    ensures exact { (version : Version) → ((result ≡ Some version) ↔ HasMagic version bytes.now) }
    ensures none { (result ≡ None) ↔ ((version : Version) → ¬ HasMagic version bytes.now) }
    // The same as one function of the bytes.
    ensures version { result ≡ version_of bytes.now }
{
    version_in(bytes)
}

fn version_in(bytes: &[u8]) -> Option<Version>
    ensures { result ≡ version_of bytes.now }
{
    if has_magic(Version::One, bytes) {
        Some(Version::One)
    } else if has_magic(Version::Two, bytes) {
        Some(Version::Two)
    } else {
        None
    }
}

/// The magic that begins a package of a version.
pub fn magic(version: Version) -> &'static [u8]
    ensures { result.now ≡ magic version }
{
    match version {
        Version::One => b"LDVPACK1",
        Version::Two => b"LDVPACK2",
    }
}

fn has_magic(version: Version, bytes: &[u8]) -> bool
    ensures { result ≡ has_magic version bytes.now }
{
    first_eight(bytes) == magic(version)
}

/// The first eight bytes, the magic of a format, or all bytes if there are fewer.
pub fn first_eight(bytes: &[u8]) -> &[u8]
    ensures { result.now ≡ take 8 bytes.now }
{
    if bytes.len() < MAGIC_LENGTH {
        bytes
    } else {
        &bytes[..MAGIC_LENGTH]
    }
}

//! The digest of bytes.
ghost use Rattle.std.specs.Prelude.{◌≡◌};
ghost use Rattle.sled_log.specs.Digest.{digest};

use std::hash::{DefaultHasher, Hasher};

/// The digest of bytes, by which decay shows: SipHash-1-3 with keys 0, as Rust's `DefaultHasher` computes it.
///
/// ```
/// let number = digest_of(b"rain");
/// ```
pub fn digest_of(bytes: &[u8]) -> u64
    ensures { result ≡ digest bytes.now }
{
    let mut hasher = DefaultHasher::new();
    hasher.write(bytes);
    hasher.finish()
}

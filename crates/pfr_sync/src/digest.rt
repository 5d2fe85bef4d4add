//! The checksum of a ruleset's text.
ghost use Rattle.std.specs.Prelude.{◌≡◌};
ghost use Rattle.pfr_sync.specs.Origins.{checksum_of};

use md5::{Digest, Md5};

/// The checksum of a ruleset's text: its MD5 (RFC 1321). A standby knows by it that it has the same rules.
///
/// The text may have any length.
pub fn checksum(text: &[u8]) -> [u8; 16]
    ensures { result ≡ checksum_of text.now }
{
    Md5::digest(text)
}

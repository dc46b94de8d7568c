//! The digest of lines.
ghost use Rattle.std.specs.Prelude.{◌≡◌, ◌++◌, [], ℕ, List, bytes_eq, length};
ghost use Rattle.sha2.specs.Sha256.{sha256};
ghost use Rattle.command_log.specs.Digests.{digest_of};

use sha2::{Digest, Sha256};
use std::fmt;
use std::marker::Model;

/// The digest of the lines so far: 32 bytes. Contracts see these bytes.
#[derive(Clone, Copy, Drop)]
pub struct LineDigest {
    bytes: [u8; 32],
}

impl Model for LineDigest {
    ghost Value = { List ℕ };

    ghost view = { λ d. d.bytes };

    ghost inverse = { λ bytes. record { bytes = bytes } };
}

impl LineDigest {
    /// The digest of no line.
    pub fn new() -> Self
        ensures { result ≡ digest_of [] }
    {
        LineDigest {
            bytes: Sha256::digest(b""),
        }
    }

    /// Goes on after a line.
    pub fn add(&mut self, line: &[u8])
        ensures { self.new ≡ sha256 (self.old ++ line.now) }
    {
        let mut hasher = Sha256::new();
        hasher.update(&self.bytes);
        hasher.update(line);
        self.bytes = hasher.finalize();
    }

    /// The bytes of the digest.
    pub fn as_bytes(&self) -> &[u8]
        ensures value { result.now ≡ self.now }
        ensures len { length result.now ≡ 32 }
    {
        &self.bytes
    }

    /// Returns whether these are the bytes of the digest.
    pub fn is(&self, bytes: &[u8]) -> bool
        ensures { result ≡ bytes_eq self.now bytes.now }
    {
        self.bytes.as_slice() == bytes
    }
}

impl fmt::Display for LineDigest {
    /// Writes the digest as 64 digits of base 16, in lower case.
    fn fmt<W: fmt::Write>(&self, f: &mut fmt::Formatter<W>) -> fmt::Result {
        for byte in &self.bytes {
            write!(f, "{byte:02x}")?;
        }
        Ok(())
    }
}

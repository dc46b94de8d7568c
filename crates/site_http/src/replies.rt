//! Replies that are gathered for a response.
ghost use Rattle.std.specs.Prelude.{◌≡◌, [], false};

use byte_io::{EndFault, Sink};
use std::alloc::Global;

/// The bytes of replies. A write fails if memory runs out.
#[derive(Drop)]
pub struct Replies {
    pub(crate) bytes: Vec<u8>,
    pub(crate) has_failed: bool,
}

impl Replies {
    /// Makes a sink without bytes.
    pub(crate) fn new(alloc: Global) -> Self
        ensures none { result.bytes.items ≡ [] }
        ensures sound { result.has_failed ≡ false }
    {
        Replies {
            bytes: Vec::new(alloc),
            has_failed: false,
        }
    }
}

impl Sink for Replies {
    ghost use Rattle.std.specs.Prelude.{Some};

    ghost contents = { λ r. Some r.bytes.items };

    ghost has_failed = { λ r. r.has_failed };

    fn write(&mut self, bytes: &[u8]) -> Result<usize, EndFault> {
        match self.bytes.extend_from_slice(bytes) {
            Ok(()) => Ok(bytes.len()),
            Err(_) => {
                self.has_failed = true;
                Err(EndFault)
            }
        }
    }
}

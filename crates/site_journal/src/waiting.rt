//! Replies that wait in memory.
ghost use Rattle.std.specs.Prelude.{◌≡◌, ◌≤◌, [], List, ℕ, length, drop, false, is_err, OnOk};
ghost use Rattle.std.specs.Io.KnownBytes.{Appends, append_known};

use crate::steady::Steady;
use byte_io::{EndFault, Sink};
use std::alloc::Global;

/// The bytes of replies that wait. A write fails if memory runs out.
#[derive(Drop)]
pub struct Waiting {
    pub(crate) bytes: Vec<u8>,
    pub(crate) failed: bool,
}

impl Waiting {
    /// Makes a sink in which nothing waits.
    pub(crate) fn new(alloc: Global) -> Self
        ensures none { result.bytes.items ≡ [] }
        ensures sound { result.failed ≡ false }
    {
        Waiting {
            bytes: Vec::new(alloc),
            failed: false,
        }
    }

    /// Removes the first bytes.
    fn remove(&mut self, count: usize)
        requires { count ≤ length self.old.bytes.items }
        ensures rest { self.new.bytes.items ≡ drop count self.old.bytes.items }
        ensures sound { self.new.failed ≡ self.old.failed }
    {
        let left = self.bytes.len() - count;
        self.bytes.as_mut_slice().rotate_left(count);
        self.bytes.truncate(left);
    }
}

impl Sink for Waiting {
    ghost use Rattle.std.specs.Prelude.{Some};

    ghost contents = { λ w. Some w.bytes.items };

    ghost has_failed = { λ w. w.failed };

    fn write(&mut self, bytes: &[u8]) -> Result<usize, EndFault> {
        match self.bytes.extend_from_slice(bytes) {
            Ok(()) => Ok(bytes.len()),
            Err(_) => {
                self.failed = true;
                Err(EndFault)
            }
        }
    }
}

/// Writes all bytes that wait to the sink. On `Err` those that the sink has not taken still wait.
pub(crate) fn flush<W: Steady>(sink: &mut W, waiting: &mut Waiting) -> Result<(), EndFault>
    requires { W.has_failed sink.old ≡ false }
    ensures none { OnOk result (waiting.new.bytes.items ≡ []) }
    ensures same { append_known (W.contents sink.new) waiting.new.bytes.items
        ≡ append_known (W.contents sink.old) waiting.old.bytes.items }
    ensures grows { (more : List ℕ) × Appends (W.contents sink.old) (W.contents sink.new) more }
    ensures fault { W.has_failed sink.new ≡ is_err result }
    ensures sound { waiting.new.failed ≡ waiting.old.failed }
{
    while !waiting.bytes.is_empty() {
        let taken = sink.write(&waiting.bytes)?;
        waiting.remove(taken);
    }
    Ok(())
}

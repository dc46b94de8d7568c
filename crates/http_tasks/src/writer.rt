//! A sink over a writer.
use byte_io::{EndFault, Sink};
use std::io::Write;

/// A sink over a writer of `std`, which can be taken out again. A failed write of any kind is a fault,
/// and so is a write of some bytes that takes none of them.
pub(crate) struct WriterSink<W> {
    pub(crate) writer: W,
    pub(crate) has_failed: bool,
}

impl<W: Write> Sink for WriterSink<W> {
    ghost contents = { λ s. W.contents s.writer };

    ghost has_failed = { λ s. s.has_failed };

    fn write(&mut self, bytes: &[u8]) -> Result<usize, EndFault> {
        match self.writer.write(bytes) {
            Ok(count) if count > 0 || bytes.is_empty() => Ok(count),
            _ => {
                self.has_failed = true;
                Err(EndFault)
            }
        }
    }
}

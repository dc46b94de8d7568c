//! A reader over a source.
use byte_io::{EndFault, Source};
use std::io;
use std::io::{ErrorKind, Read};

/// A reader of `std` over a source. A fault of the source is an error of the kind `Other`.
#[derive(Drop)]
pub struct SourceReader<S> {
    pub(crate) source: S,
}

impl<S: Source> Read for SourceReader<S> {
    ghost remaining = { λ r. S.remaining r.source };

    fn read(&mut self, buf: &mut [u8]) -> io::Result<usize> {
        match self.source.read(buf) {
            Ok(count) => Ok(count),
            Err(EndFault) => Err(ErrorKind::Other.into()),
        }
    }
}

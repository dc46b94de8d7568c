//! A reader that fails once. `tests/ends` shows of the built program what its ends do otherwise.
use byte_io::{Reading, Source};
use std::io;
use std::io::{ErrorKind, Read};

/// A reader of `std` that fails at its first read, and then returns its bytes.
#[derive(Drop)]
struct FailsOnce<'a> {
    has_failed: bool,
    rest: &'a [u8],
}

impl<'a> Read for FailsOnce<'a> {
    fn read(&mut self, buf: &mut [u8]) -> io::Result<usize> {
        if self.has_failed {
            return self.rest.read(buf);
        }
        self.has_failed = true;
        Err(io::Error::from(ErrorKind::Other))
    }
}

// A failed read is reported as a fault at once, even if the next read would return bytes: what is
// read before a fault never has a gap.
#[test]
fn a_fault_is_told_at_once(rt: HostRuntime) {
    let mut source = Reading::new(FailsOnce {
        has_failed: false,
        rest: b"ab",
    });
    let mut buf = [0; 2];
    assert!(rt; source.read(&mut buf).is_err());
    assert!(rt; source.read(&mut buf).is_ok() && &buf == b"ab");
}

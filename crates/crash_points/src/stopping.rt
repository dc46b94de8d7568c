//! A sink that stops.
ghost use Rattle.std.specs.Prelude.{◌≡◌, false};
ghost use Rattle.crash_points.specs.Stopped.{sink_of};

use byte_io::{EndFault, Sink};
use site_journal::Steady;

/// Passes a number of writes on to another sink, and fails each one after.
#[derive(Drop)]
pub struct Stopping<W> {
    inner: W,
    writes_left: u64,
    has_stopped: bool,
}

impl<W: Sink> Stopping<W> {
    /// Makes a sink that passes `writes` writes on.
    pub fn new(inner: W, writes: u64) -> Self
        ensures inner { sink_of result ≡ inner }
        ensures sound { W.has_failed inner ≡ false
            → ⟦<Stopping<W> as Sink>⟧.has_failed result ≡ false }
    {
        Stopping {
            inner,
            writes_left: writes,
            has_stopped: false,
        }
    }
}

impl<W: Sink> Sink for Stopping<W> {
    ghost use Rattle.std.specs.Prelude.{◌||◌};

    ghost contents = { λ s. W.contents s.inner };

    ghost has_failed = { λ s. s.has_stopped || W.has_failed s.inner };

    fn write(&mut self, bytes: &[u8]) -> Result<usize, EndFault> {
        if self.writes_left == 0 {
            self.has_stopped = true;
            return Err(EndFault);
        }
        self.writes_left -= 1;
        self.inner.write(bytes)
    }
}

impl<W: Steady> Steady for Stopping<W> {
    ghost tells = { W.tells };

    ghost steady = { λ s. W.steady s.inner };
}

//! Sinks that always tell their bytes, or never.
ghost use Rattle.std.specs.Prelude.{◌≡◌, Bool, true, false, is_some, refl};

use byte_io::{Sink, Writing};
use std::io::{Print, Printer};

/// A sink that always tells its bytes, or never.
///
/// A journal tells the bytes that it has taken by those that its sink tells and those that wait, so
/// no write may change whether the sink tells them.
pub trait Steady: Sink {
    /// Whether it tells its bytes.
    ghost tells: { Bool };

    ghost steady: { (sink : Self) → is_some (Self.contents sink) ≡ tells };
}

impl<P: Print> Steady for Writing<Printer<'_, P>> {
    ghost tells = { false };

    ghost steady = { λ _. refl };
}

impl Steady for Writing<Vec<u8>> {
    ghost tells = { true };

    ghost steady = { λ _. refl };
}

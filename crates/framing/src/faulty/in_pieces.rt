//! A source or a sink that moves few octets at a time.

ghost use Rattle.std.specs.Prelude.{◌≡◌, ℕ, ◌<◌};

use crate::{Failed, Sink, Source};

/// Gives or takes at most so many octets at each call.
#[derive(Drop)]
pub struct InPieces<T: Drop> {
    inner: T,
    size: usize,
    ghost some: { 0 < size },
}

impl<T: Drop> InPieces<T> {
    pub fn new(inner: T, size: usize) -> Self
        requires { 0 < size }
    {
        InPieces { inner, size }
    }

    pub fn into_inner(self) -> T {
        let InPieces { inner, size: _ } = self;
        inner
    }
}

impl<S: Source + Drop> Source for InPieces<S> {
    ghost remaining = { λ s. S.remaining s.inner };

    ghost calls = { λ s. S.calls s.inner };

    ghost failures = { λ s. S.failures s.inner };

    fn read(&mut self, buffer: &mut [u8]) -> Result<usize, Failed> {
        let room = buffer.len().min(self.size);
        self.inner.read(&mut buffer[..room])
    }
}

impl<W: Sink + Drop> Sink for InPieces<W> {
    ghost written = { λ s. W.written s.inner };

    ghost calls = { λ s. W.calls s.inner };

    ghost failures = { λ s. W.failures s.inner };

    fn write(&mut self, octets: &[u8]) -> Result<usize, Failed> {
        let count = octets.len().min(self.size);
        self.inner.write(&octets[..count])
    }
}

//! A reader or a writer that fails in one call, for tests.

ghost use Rattle.std.specs.Prelude.{◌≡◌, ◌-◌, ◌↔◌, IsErr, IsTrue};
ghost use Rattle.std.specs.Io.{ReadsAtMost, WritesAtMost};
ghost use Rattle.std.specs.Io.KnownBytes.{ReadConsumes, WriteAppends};

use std::io;
use std::io::{Read, Write};

/// A reader or a writer of which one call fails and does nothing else. The calls before it and after it are handed on.
#[derive(Drop)]
pub struct FailAt<T> {
    pub inner: T,
    /// The calls up to the one that fails, that one included; 0 where none fails any more.
    left: u64,
}

impl<T> FailAt<T> {
    /// Call number `at` fails, counted from 1; none does where `at` is 0.
    pub fn new(inner: T, at: u64) -> FailAt<T>
        ensures inner { result.inner ≡ inner }
        ensures left { result.left ≡ at }
    {
        FailAt { inner, left: at }
    }

    /// Counts a call, and says whether it is the one that fails.
    fn fails(&mut self) -> bool
        ensures inner { self.new.inner ≡ self.old.inner }
        ensures left { self.new.left ≡ self.old.left - 1 }
        ensures there { IsTrue result ↔ (self.old.left ≡ 1) }
    {
        let is_last = self.left == 1;
        self.left = self.left.saturating_sub(1);
        is_last
    }
}

fn failure() -> io::Error {
    io::Error::from(io::ErrorKind::Other)
}

impl<R: Read> Read for FailAt<R> {
    ghost remaining = { λ f. R.remaining f.inner };

    fn read(&mut self, buf: &mut [u8]) -> io::Result<usize>
        ensures bound { ReadsAtMost result buf.new }
        ensures bytes { ReadConsumes (R.remaining self.old.inner) (R.remaining self.new.inner) result buf.new }
        ensures left { self.new.left ≡ self.old.left - 1 }
        ensures there { self.old.left ≡ 1 → IsErr result × (self.new.inner ≡ self.old.inner) }
    {
        if self.fails() {
            return Err(failure());
        }
        self.inner.read(buf)
    }
}

impl<W: Write> Write for FailAt<W> {
    ghost contents = { λ f. W.contents f.inner };

    fn write(&mut self, buf: &[u8]) -> io::Result<usize>
        ensures bound { WritesAtMost result buf.now }
        ensures bytes { WriteAppends (W.contents self.old.inner) (W.contents self.new.inner) result buf.now }
        ensures left { self.new.left ≡ self.old.left - 1 }
        ensures there { self.old.left ≡ 1 → IsErr result × (self.new.inner ≡ self.old.inner) }
    {
        if self.fails() {
            return Err(failure());
        }
        self.inner.write(buf)
    }

    fn flush(&mut self) -> io::Result<()> {
        self.inner.flush()
    }
}

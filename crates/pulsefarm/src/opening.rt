//! How the files of clients are opened, and those of their replies made.

ghost use Rattle.std.specs.Prelude.{ℕ, List, IfOk, OnErr, ⊤};

use pf_files::open;
use std::fs::{self, File};
use std::io::{self, Read, Write};

/// Opens and makes files by their paths. No contract of the system says what a path opens, so whoever uses this is
/// proved for whatever it may mean.
pub trait Opens {
    type Stream: Read + Write + Send + Drop;

    /// Which files a path opens.
    ghost opens: { List ℕ → Self.Stream → Type 0 };

    /// Which paths may not be opened.
    ghost refuses: { List ℕ → Type 0 };

    /// Which files a path makes.
    ghost makes: { List ℕ → Self.Stream → Type 0 };

    /// At which paths no file may be made.
    ghost bars: { List ℕ → Type 0 };

    /// Opens the file of a path.
    fn open_path(&self, path: &str) -> io::Result<Self::Stream>
        ensures file { IfOk result (λ file. opens path.now file) }
        ensures refused { OnErr result (refuses path.now) };

    /// Makes the file of a path, or empties the one that is there.
    fn make_path(&self, path: &str) -> io::Result<Self::Stream>
        ensures file { IfOk result (λ file. makes path.now file) }
        ensures barred { OnErr result (bars path.now) };
}

impl Opens for HostRuntime {
    type Stream = File;

    ghost opens = { λ path file. ⊤ };

    ghost refuses = { λ path. ⊤ };

    ghost makes = { λ path file. ⊤ };

    ghost bars = { λ path. ⊤ };

    fn open_path(&self, path: &str) -> io::Result<File> {
        open(self, path)
    }

    fn make_path(&self, path: &str) -> io::Result<File> {
        if !path.contains('\0') {
            return fs::create(self, path);
        }
        let reason = "a folder whose name isn't UTF-8 can't be used";
        Err(io::Error::new(io::ErrorKind::InvalidInput, reason))
    }
}

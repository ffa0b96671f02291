//! Readers and writers that count their failed calls: short writes, a write of nothing, and calls that fail.

ghost use Rattle.std.specs.Prelude.{◌≡◌, ◌<◌};

use pf_streams::{Counted, FailAt, StreamFault};
use std::alloc::Global;
use std::io;
use std::io::{ErrorKind, Write};
use std::marker::Brand;
use std::sync::ledger::{Blank, Ledger};
use std::test::Fail;

/// A writer that takes at most 3 bytes a call, and `room` bytes in all.
#[derive(Drop)]
struct Narrow {
    taken: Vec<u8>,
    room: usize,
}

impl Write for Narrow {
    fn write(&mut self, buf: &[u8]) -> io::Result<usize> {
        let n = buf.len().min(3).min(self.room);
        if self.taken.extend_from_slice(&buf[..n]).is_err() {
            return Err(io::Error::from(ErrorKind::OutOfMemory));
        }
        self.room -= n;
        Ok(n)
    }

    fn flush(&mut self) -> io::Result<()> {
        Ok(())
    }
}

const TEXT: &[u8] = b"0/1 <0> wait";

/// How many bytes of the text are written, and of which kind the error is, if there is one.
fn put_by<L: Ledger>(narrow: Narrow, at: u64, blank: Blank) -> (usize, Option<ErrorKind>)
    requires name { blank.name ≡ L.name }
    requires parts { blank.parts ≡ L.parts }
    requires some { 0 < blank.parts }
{
    let mut writer = Counted::<FailAt<Narrow>, L>::new(FailAt::new(narrow, at), blank);
    let kind = match writer.put(TEXT) {
        Ok(()) => None,
        Err(fault) => Some(fault.error().kind()),
    };
    let Counted { inner, .. } = writer;
    let FailAt { inner, .. } = inner;
    (
        if TEXT.starts_with(&inner.taken) {
            inner.taken.len()
        } else {
            0
        },
        kind,
    )
}

/// The same of a writer with so much room, of which this call fails; none does where it is 0.
fn put(alloc: Global, room: usize, at: u64) -> (usize, Option<ErrorKind>) {
    let taken = Vec::new(alloc);
    put_by::<Brand>(Narrow { taken, room }, at, Blank::new(1))
}

#[test]
fn what_goes_out_is_a_beginning(rt: HostRuntime) {
    for (room, at, wanted) in [
        (99, 0, (12, None)),
        (5, 0, (5, Some(ErrorKind::WriteZero))),
        (99, 1, (0, Some(ErrorKind::Other))),
        (99, 2, (3, Some(ErrorKind::Other))),
        (99, 4, (9, Some(ErrorKind::Other))),
        (99, 5, (12, None)),
    ] {
        assert!(rt; put(rt.alloc(), room, at) == wanted);
    }
}

/// How many bytes are read of an input, n at the most, where this call of the reader fails; none if that call is
/// reached.
fn take_by<L: Ledger>(
    alloc: Global,
    input: &[u8],
    at: u64,
    limit: usize,
    blank: Blank,
) -> Option<usize>
    requires name { blank.name ≡ L.name }
    requires parts { blank.parts ≡ L.parts }
    requires some { 0 < blank.parts }
{
    let mut reader = Counted::<FailAt<&[u8]>, L>::new(FailAt::new(input, at), blank);
    match reader.take_front(alloc, limit) {
        Ok(bytes) => Some(bytes.len()),
        Err(_) => None,
    }
}

fn take(alloc: Global, input: &[u8], at: u64, limit: usize) -> Option<usize> {
    take_by::<Brand>(alloc, input, at, limit, Blank::new(1))
}

// A call asks for 4,096 bytes at the most.
#[test]
fn a_reader_is_read_to_its_end_or_to_the_limit(rt: HostRuntime) {
    let input = [b'x'; 9_000];
    for (at, limit, wanted) in [
        (0, 99_999, Some(9_000)),
        (0, 4_097, Some(4_097)),
        (1, 0, Some(0)),
        (3, 4_097, Some(4_097)),
        (2, 4_097, None),
        (4, 99_999, None),
    ] {
        assert!(rt; take(rt.alloc(), &input, at, limit) == wanted);
    }
}

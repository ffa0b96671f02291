//! A reader or a writer that counts its failed calls.

ghost use Rattle.std.specs.Prelude.{◌≡◌, ◌+◌, ◌<◌, ◌≤◌, ℕ, List, length, take, IfErr, IfOk, IfSome, OnErr, OnOk};
ghost use Rattle.std.specs.Io.{ReadsAtMost};
ghost use Rattle.std.specs.Io.KnownBytes.{Appends, Consumes, ReadConsumes};
ghost use Rattle.pf_streams.specs.Streams.{AppendsFront, CountsRead, CountsReadOrNone, CountsWrite};

use crate::stream::StreamFault;
use pf_errors::OrNoMemory;
use std::alloc::Global;
use std::io::{ErrorKind, Read, Write};
use std::sync::ledger::{Blank, Book, Ledger, Share};

/// A reader or a writer, and how many of its calls failed. A call fails by any error, `Interrupted` too, and a write
/// also by taking 0 bytes. The count takes no bytes and has no bound: it is a ledger, which only contracts see.
#[derive(Drop)]
pub struct Counted<T, L: Ledger> {
    pub inner: T,
    failures: Book<L>,
    share: Share<L>,
    ghost may_count: { 0 < share.parts },
}

/// The most bytes that are asked for in one call.
const CHUNK: usize = 4_096;

impl<T, L: Ledger> Counted<T, L> {
    /// The reader or the writer, of which no call has failed yet.
    pub fn new(inner: T, blank: Blank) -> Counted<T, L>
        requires name { blank.name ≡ L.name }
        requires parts { blank.parts ≡ L.parts }
        requires some { 0 < blank.parts }
        ensures inner { result.inner ≡ inner }
        ensures failures { result.failures.total ≡ 0 }
    {
        let (failures, share) = blank.open::<L>();
        Counted {
            inner,
            failures,
            share,
        }
    }

    /// Counts a failed call, and hands on its fault.
    fn failed(&mut self, fault: StreamFault) -> StreamFault
        ensures fault { result ≡ fault }
        ensures inner { self.new.inner ≡ self.old.inner }
        ensures counted { self.new.failures.total ≡ self.old.failures.total + 1 }
    {
        self.failures.add(&mut self.share, 1);
        fault
    }
}

impl<R: Read, L: Ledger> Counted<R, L> {
    /// Reads once, and answers how many bytes are now at the front of the buffer; 0 at the end of the input.
    pub fn take_some(&mut self, buf: &mut [u8]) -> Result<usize, StreamFault>
        ensures bound { ReadsAtMost result buf.new }
        ensures bytes { ReadConsumes (R.remaining self.old.inner) (R.remaining self.new.inner) result buf.new }
        ensures kept { OnOk result (self.new.failures.total ≡ self.old.failures.total) }
        ensures counted { IfErr result (λ e. CountsRead e self.old.failures.total self.new.failures.total) }
    {
        match self.inner.read(buf) {
            Ok(n) => Ok(n),
            Err(e) => Err(self.failed(StreamFault::Read(e))),
        }
    }

    /// Reads up to `limit` bytes, or all that there are. What follows isn't read, also where it ends by a fault, so an
    /// endless reader ends too.
    pub fn take_front(
        &mut self,
        alloc: Global,
        limit: usize,
    ) -> Result<Vec<u8>, OrNoMemory<StreamFault>>
        ensures front { IfOk result (λ v. IfSome (R.remaining self.old.inner) (λ input. v.items ≡ take limit input)) }
        ensures len { IfOk result (λ v. length v.items ≤ limit) }
        ensures taken { (bytes : List ℕ) × (length bytes ≤ limit) × Consumes (R.remaining self.old.inner)
            (R.remaining self.new.inner) bytes }
        ensures kept { OnOk result (self.new.failures.total ≡ self.old.failures.total) }
        ensures counted { IfErr result (λ e. CountsReadOrNone e self.old.failures.total self.new.failures.total) }
    {
        let mut bytes = Vec::new(alloc);
        let mut buf = [0u8; CHUNK];
        while bytes.len() < limit {
            let want = (limit - bytes.len()).min(CHUNK);
            let n = self.take_some(&mut buf[..want])?;
            if n == 0 {
                return Ok(bytes);
            }
            bytes.extend_from_slice(&buf[..n])?;
        }
        Ok(bytes)
    }
}

impl<W: Write, L: Ledger> Counted<W, L> {
    /// Writes the whole text; where a call fails, a beginning of it was written.
    pub fn put(&mut self, text: &[u8]) -> Result<(), StreamFault>
        ensures written { OnOk result (Appends (W.contents self.old.inner) (W.contents self.new.inner) text.now) }
        ensures front { OnErr result (AppendsFront (W.contents self.old.inner) (W.contents self.new.inner) text.now) }
        ensures kept { OnOk result (self.new.failures.total ≡ self.old.failures.total) }
        ensures counted { IfErr result (λ e. CountsWrite e self.old.failures.total self.new.failures.total) }
    {
        let mut rest = text;
        while !rest.is_empty() {
            match self.inner.write(rest) {
                Ok(0) => return Err(self.failed(StreamFault::Write(ErrorKind::WriteZero.into()))),
                Ok(n) => rest = rest.split_at(n).1,
                Err(e) => return Err(self.failed(StreamFault::Write(e))),
            }
        }
        Ok(())
    }
}

//! The source that a file holds.

ghost use Rattle.std.specs.Prelude.{◌≡◌, ◌<◌, ◌≤◌, ℕ, List, IfOk, IfSome, length, take};
ghost use Rattle.std.specs.Io.KnownBytes.{Consumes};

use crate::names::open;
use pf_command::MOST_BYTES;
use pf_errors::OrNoMemory;
use pf_streams::{Counted, StreamFault};
use std::alloc::{AllocGlobal, Global};
use std::fs::Files;
use std::io::Read;
use std::marker::Brand;
use std::sync::ledger::{Blank, Ledger};

/// What is read of a file, and the file after that.
#[derive(Drop)]
struct ReadFile<F> {
    bytes: Result<Vec<u8>, OrNoMemory<StreamFault>>,
    file: F,
}

/// What an open file holds, up to one byte more than a source may have. What follows isn't read, so an endless file
/// ends too.
fn read_file<F: Read, L: Ledger>(alloc: Global, file: F, reads: Blank) -> ReadFile<F>
    requires reads { reads.name ≡ L.name }
    requires read_parts { reads.parts ≡ L.parts }
    requires some_reads { 0 < reads.parts }
    ensures front { IfOk result.bytes (λ v. IfSome (F.remaining file) (λ input. v.items ≡ take MOST_BYTES input)) }
    ensures most { IfOk result.bytes (λ v. length v.items ≤ MOST_BYTES) }
    ensures taken { (bytes : List ℕ) × (length bytes ≤ MOST_BYTES)
        × Consumes (F.remaining file) (F.remaining result.file) bytes }
{
    let mut reader = Counted::<F, L>::new(file, reads);
    let bytes = reader.take_front(alloc, MOST_BYTES);
    let file = reader.inner;
    ReadFile { bytes, file }
}

/// What the file of this name holds, up to one byte more than a source may have.
pub fn bytes_of_file<R: Files + AllocGlobal>(
    rt: &R,
    name: &str,
) -> Result<Vec<u8>, OrNoMemory<StreamFault>>
where
    R::File: Drop,
    ensures { IfOk result (λ v. length v.items ≤ MOST_BYTES) }
{
    match open(rt, name) {
        Ok(file) => read_file::<R::File, Brand>(rt.alloc(), file, Blank::new(1)).bytes,
        Err(error) => Err(OrNoMemory::Fault(StreamFault::Read(error))),
    }
}

//! A source that was read once, whichever way it turned out.

ghost use Rattle.std.specs.Prelude.{◌≡◌, IfOk, MatchResult};
ghost use Rattle.pf_check.specs.Reads.{Reads, refused};
ghost use Rattle.pf_check.specs.Reading.{IsModuleOf};

use crate::{ReadModule, Source};
use pf_errors::{NoMemory, OrNoMemory, SourceRefusal};
use std::alloc::Global;
use std::marker::Model;

/// A source with what it is read as: its module, or why it is none. Contracts see its bytes.
#[derive(Drop)]
pub struct ReadSource {
    source: Source,
    reading: Result<ReadModule, SourceRefusal>,
}

impl Model for ReadSource {
    ghost use Rattle.std.specs.Prelude.{List, ℕ};
    ghost use Rattle.pf_check.specs.Reading.{IsReading};

    ghost Value = { List ℕ };

    ghost view = { λ s. s.source };

    ghost invariant = { λ s. IsReading s.source s.reading };
}

impl ReadSource {
    /// Reads the source of these bytes.
    pub fn new(alloc: Global, bytes: Vec<u8>) -> Result<ReadSource, NoMemory>
        ensures { IfOk result (λ s. s ≡ bytes.items) }
    {
        let source = Source::new(alloc, bytes)?;
        let reading = match ReadModule::read(alloc, &source) {
            Ok(module) => Ok(module),
            Err(OrNoMemory::Fault(refusal)) => Err(refusal),
            Err(OrNoMemory::NoMemory) => return Err(NoMemory),
        };
        Ok(ReadSource { source, reading })
    }

    pub fn bytes(&self) -> &[u8]
        ensures { result.now ≡ self.now }
    {
        self.source.bytes()
    }

    /// The module, or why the source is none, with the offset in bytes.
    pub fn module(&self) -> Result<&ReadModule, SourceRefusal>
        ensures { MatchResult result (λ m. IsModuleOf self.now m.now)
            (λ r. Reads self.now (refused r.code r.offset)) }
    {
        match &self.reading {
            Ok(module) => Ok(module),
            Err(refusal) => Err(*refusal),
        }
    }
}

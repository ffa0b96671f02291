//! Properties that a run may have, and their texts.

ghost use Rattle.std.specs.Prelude.{◌≡◌, Decides, IfErr, IfOk};
ghost use Rattle.pf_property.specs.Texts.{IsNoPropertyText, ReadsProperty};
ghost use Rattle.pf_property.specs.Views.{property_of};

use crate::lone_pattern::LonePattern;
use pf_errors::{Code, NoMemory, OrNoMemory};
use pf_terms::AtomTable;
use std::alloc::Global;
use std::sync::Arc;

/// What is asked of a run.
#[derive(Drop)]
pub enum Property {
    /// The root returns a value.
    Returns,
    /// The root returns `true`.
    True,
    /// No process ends with another reason than `normal`.
    NoCrash,
    /// The run doesn't end in a deadlock.
    NoDeadlock,
    /// The limit of steps doesn't end the run.
    WithinLimit,
    /// No message is sent that fits.
    Never(LonePattern),
}

impl Property {
    /// The property that the bytes are, where a table names the atoms of the run's module.
    pub fn read(
        alloc: Global,
        bytes: &[u8],
        atoms: &AtomTable,
    ) -> Result<Property, OrNoMemory<Code>>
        ensures read { IfOk result (λ p. ReadsProperty atoms.now bytes.now (property_of p)) }
        ensures fault { IfErr result (IsNoPropertyText atoms.now bytes.now) }
    {
        if bytes == b"returns".as_slice() {
            return Ok(Property::Returns);
        }
        if bytes == b"true".as_slice() {
            return Ok(Property::True);
        }
        if bytes == b"nocrash".as_slice() {
            return Ok(Property::NoCrash);
        }
        if bytes == b"nodeadlock".as_slice() {
            return Ok(Property::NoDeadlock);
        }
        if bytes == b"withinlimit".as_slice() {
            return Ok(Property::WithinLimit);
        }
        match bytes.strip_prefix(b"never:".as_slice()) {
            None => Err(OrNoMemory::Fault(Code::NoProperty)),
            Some(text) => {
                let pattern = LonePattern::read(alloc, text, atoms)?;
                Ok(Property::Never(pattern))
            }
        }
    }

    /// Whether it is the same property. It takes no memory.
    pub fn same(&self, other: &Property) -> bool
        ensures { Decides result (property_of self.now ≡ property_of other.now) }
    {
        match (self, other) {
            (Property::Returns, Property::Returns)
            | (Property::True, Property::True)
            | (Property::NoCrash, Property::NoCrash)
            | (Property::NoDeadlock, Property::NoDeadlock)
            | (Property::WithinLimit, Property::WithinLimit) => true,
            (Property::Never(pattern), Property::Never(other)) => pattern.same(other),
            _ => false,
        }
    }

    /// The same property once more.
    pub fn share(&self) -> Result<Property, NoMemory>
        ensures { IfOk result (λ p. property_of p ≡ property_of self.now) }
    {
        Ok(match self {
            Property::Returns => Property::Returns,
            Property::True => Property::True,
            Property::NoCrash => Property::NoCrash,
            Property::NoDeadlock => Property::NoDeadlock,
            Property::WithinLimit => Property::WithinLimit,
            Property::Never(pattern) => Property::Never(pattern.share()?),
        })
    }
}

/// A property may go to another thread, and be shared.
fn crosses_threads(property: &Property, shared: &Arc<Property>) {
    needs_send(property);
    needs_send(shared);
}

fn needs_send<T: Send>(_value: &T) {}

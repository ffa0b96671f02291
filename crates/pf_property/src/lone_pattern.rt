//! A pattern by itself.

ghost use Rattle.std.specs.Prelude.{◌≡◌, [], is_some, map, Decides, IfErr, IfOk};
ghost use Rattle.pf_tokens.specs.Rules.{HasTokens};
ghost use Rattle.pf_tokens.specs.TokenKinds.{placed_of};
ghost use Rattle.pf_terms.specs.Term.{value_of};
ghost use Rattle.pf_patterns.specs.Fit as spec;
ghost use Rattle.pf_lower.specs.Alone.{BecomesAlone};
ghost use Rattle.pf_reader.specs.PatternAlone.{pattern_of};
ghost use Rattle.pf_property.specs.Texts.{HasNoTokens, IsNoPatternText, ReadsPattern};

use pf_errors::{Code, NoMemory, OrNoMemory};
use pf_lower::pattern_alone;
use pf_patterns::{fits, same_patterns};
use pf_reader::{ReadPattern, read_pattern};
use pf_syntax::{Module, PatternId};
use pf_terms::{AtomId, AtomTable, Term};
use pf_tokens::{Token, tokens};
use std::alloc::Global;
use std::marker::Model;
use std::sync::Arc;

/// A pattern in a module of its own, which has nothing else and is shared, never copied. An atom that the run's module
/// doesn't name has a number past its names, and so fits nothing that the run sends.
#[derive(Drop)]
pub struct LonePattern {
    module: Arc<Module>,
    pattern: PatternId,
}

impl Model for LonePattern {
    ghost use Rattle.pf_syntax.specs.Pattern.{Pattern};
    ghost use Rattle.pf_syntax.specs.Encoding.{coded_pattern};
    ghost use Rattle.pf_syntax.specs.Module.{pattern_at};

    ghost Value = { Pattern };

    ghost coded = { coded_pattern };

    ghost view = { λ a. pattern_at a.module.value.tables a.pattern.0 };
}

/// The tokens of a text. Each of their faults is that there is no such property.
fn tokens_of(alloc: Global, text: &[u8]) -> Result<Vec<Token>, OrNoMemory<Code>>
    ensures found { IfOk result (λ found. HasTokens text.now (map placed_of found.items)) }
    ensures fault { IfErr result (HasNoTokens text.now) }
{
    match tokens(alloc, text) {
        Ok(found) => Ok(found),
        Err(OrNoMemory::NoMemory) => Err(OrNoMemory::NoMemory),
        Err(OrNoMemory::Fault(_)) => Err(OrNoMemory::Fault(Code::NoProperty)),
    }
}

/// What a pattern of the surface syntax becomes.
fn lowered(alloc: Global, read: &ReadPattern) -> Result<LonePattern, NoMemory>
    ensures { IfOk result (BecomesAlone (pattern_of read.now)) }
{
    let mut module = Module::new(alloc, AtomId::TRUE, AtomTable::new(alloc)?);
    let pattern = pattern_alone(alloc, &read.syntax, &mut module, read.pattern)?;
    module.shrink_to_fit();
    let module = Arc::new(alloc, module)?;
    Ok(LonePattern { module, pattern })
}

impl LonePattern {
    /// The pattern that a text is, from the first token to the last.
    pub(crate) fn read(
        alloc: Global,
        text: &[u8],
        atoms: &AtomTable,
    ) -> Result<LonePattern, OrNoMemory<Code>>
        ensures read { IfOk result (ReadsPattern atoms.now text.now) }
        ensures fault { IfErr result (IsNoPatternText atoms.now text.now) }
    {
        let found = tokens_of(alloc, text)?;
        let read = read_pattern(alloc, &found, atoms)?;
        Ok(lowered(alloc, &read)?)
    }

    /// The same pattern once more.
    pub(crate) fn share(&self) -> Result<LonePattern, NoMemory>
        ensures { IfOk result (λ p. p ≡ self.now) }
    {
        Ok(LonePattern {
            module: Arc::try_clone(&self.module)?,
            pattern: self.pattern,
        })
    }

    /// Whether it is the same pattern, in whichever module. It takes no memory.
    pub(crate) fn same(&self, other: &LonePattern) -> bool
        ensures { Decides result (self.now ≡ other.now) }
    {
        same_patterns(&self.module, self.pattern, &other.module, other.pattern)
    }

    /// Whether a value fits. It takes no memory.
    pub(crate) fn fits(&self, value: &Term) -> bool
        ensures { result ≡ is_some (spec.fit self.now (value_of value.now) []) }
    {
        fits(&self.module, self.pattern, value, &[], 0)
    }
}

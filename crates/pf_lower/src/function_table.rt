//! The functions of a module by name and number of arguments, and those that it exports.

ghost use Rattle.std.specs.Prelude.{◌≡◌, ℕ, if◌then◌else◌, IfOk, MatchOption, None, OnOk, Some};
ghost use Rattle.std.specs.BTreeMap.{get};
ghost use Rattle.pf_rules.specs.Static.{is_named_by_head, own_in};
ghost use Rattle.pf_syntax.specs.SyntaxTree.{NodeTable};
ghost use Rattle.pf_syntax.specs.SyntaxTreeOver.{heads_over};
ghost use Rattle.pf_lower.specs.Knows.{key_order, same_key, Knows};
ghost use Rattle.pf_lower.specs.Heads.{first_of};
ghost use Rattle.pf_rules.specs.Listing.{Exports};

use pf_errors::NoMemory;
use pf_rules::Signatures;
use pf_syntax::{ExprFunction, FunctionId, SyntaxTree};
use pf_terms::AtomId;
use std::alloc::Global;
use std::collections::BTreeMap;

/// The number of the first function of each name and number of arguments. They are kept in an order, so that no choice
/// of names or of numbers makes a look-up slow.
#[derive(Drop)]
pub(crate) struct FunctionTable {
    numbers: BTreeMap<(u32, usize), u32>,
}

impl FunctionTable {
    /// The functions of a syntax tree.
    pub(crate) fn new(alloc: Global, syntax: &SyntaxTree) -> Result<FunctionTable, NoMemory>
        ensures { IfOk result (λ table. Knows table syntax.now.functions) }
    {
        let mut table = FunctionTable {
            numbers: BTreeMap::new(alloc),
        };
        for (number, function) in syntax.functions().iter().enumerate() {
            table.enter_function(function, number)?;
        }
        Ok(table)
    }

    /// Notes the number of a function under the name of its first clause.
    fn enter_function(&mut self, function: &ExprFunction, number: usize) -> Result<(), NoMemory>
        ensures { OnOk result ((b : NodeTable) (f a : ℕ) → get key_order self.new.numbers (f, a)
            ≡ first_of (get key_order self.old.numbers (f, a))
            (if is_named_by_head f a (heads_over b function.now) then Some number else None)) }
    {
        match function.heads.first() {
            None => Ok(()),
            Some(head) => self.enter(head.ident.name, head.parameters.len(), number),
        }
    }

    /// Notes the number of a function, where there is none of this name and number of arguments yet.
    fn enter(&mut self, name: AtomId, arity: usize, number: usize) -> Result<(), NoMemory>
        ensures { OnOk result ((f a : ℕ) → get key_order self.new.numbers (f, a)
            ≡ first_of (get key_order self.old.numbers (f, a))
            (if same_key (name.0, arity) (f, a) then Some number else None)) }
    {
        let key = (name.0, arity);
        if self.numbers.contains_key(&key) {
            return Ok(());
        }
        let Ok(short) = u32::try_from(number) else {
            return Err(NoMemory);
        };
        self.numbers.insert(key, short)?;
        Ok(())
    }

    /// The first function of this name that takes this number of arguments.
    pub(crate) fn find(&self, syntax: &SyntaxTree, name: AtomId, arity: usize) -> Option<FunctionId>
        requires { Knows self.now syntax.now.functions }
        ensures { MatchOption result (own_in syntax.now.functions name.0 arity ≡ None)
            (λ f. own_in syntax.now.functions name.0 arity ≡ Some f.0) }
    {
        let number = self.numbers.get(&(name.0, arity))?;
        Some(FunctionId(*number))
    }
}

/// The functions that a syntax tree exports.
pub(crate) fn exports_of(alloc: Global, syntax: &SyntaxTree) -> Result<Signatures, NoMemory>
    ensures { IfOk result (λ exported. Exports exported syntax.now.exports) }
{
    let mut exported = Signatures::new(alloc);
    for export in syntax.exports() {
        exported.add(export.ident.name, export.arity)?;
    }
    Ok(exported)
}

//! Checked modules: arenas in which each node comes after its parts, so that code is named by numbers.

ghost use Rattle.std.specs.Prelude.{◌≡◌, ◌≤◌, length, IfNone, IfOk, MatchOption, None, OnErr, OnOk, option_map};
ghost use Rattle.std.specs.Prelude.{position, slice_get, Some, ◌&&◌, ◌==◌};
ghost use Rattle.pf_terms.specs.Value.{list, none};
ghost use Rattle.pf_terms.specs.Term.{value_of};
ghost use Rattle.pf_syntax.specs.Pattern.{any};
ghost use Rattle.pf_syntax.specs.Tree.{lit};
ghost use Rattle.pf_syntax.specs.Module.{empty, first_named, literal_at, pattern_at, tree_at};
ghost use Rattle.pf_syntax.specs.Root.{root_of};
ghost use Rattle.pf_syntax.specs.Over.{function_over, pattern_over, tree_over, with_function, with_literal};
ghost use Rattle.pf_syntax.specs.Over.{with_pattern, with_tables, with_tree};
ghost use Rattle.pf_syntax.specs.Within.{FunctionRepresents, PartsAreThere, PatternPartsAreThere};

use crate::node::{Function, FunctionId, LiteralId, Node, NodeId, PatternId, PatternNode};
use crate::table::{entry, next_id};
use pf_errors::NoMemory;
use pf_terms::{AtomId, AtomTable, Term};
use std::alloc::Global;
use std::marker::Model;
use std::sync::Arc;

/// A checked module. What is added to it comes after its parts, and nothing is ever taken out or changed.
#[derive(Drop)]
pub struct Module {
    // First, since what looks for `Send` goes only so deep.
    literals: Vec<Term>,
    name: AtomId,
    atoms: AtomTable,
    patterns: Vec<PatternNode>,
    nodes: Vec<Node>,
    functions: Vec<Function>,
}

impl Model for Module {
    ghost use Rattle.pf_syntax.specs.Module.{Checked, coded_checked};

    ghost Value = { Checked };

    ghost coded = { coded_checked };

    ghost use Rattle.pf_syntax.specs.View.{checked_of, Sound};

    ghost view = { checked_of };

    ghost invariant = { Sound };
}

/// The index of the first function of this name that takes this number of arguments.
fn index_of(functions: &[Function], name: AtomId, arity: u32) -> Option<usize>
    ensures { result ≡ position (λ f. (f.name.0 == name.0) && (f.arity == arity)) functions.now }
{
    functions
        .iter()
        .position(|f| f.name == name && f.arity == arity)
}

impl Module {
    /// The module of this name and these atoms, with nothing in it yet.
    pub fn new(alloc: Global, name: AtomId, atoms: AtomTable) -> Module
        ensures { result ≡ empty name.0 atoms }
    {
        Module {
            literals: Vec::new(alloc),
            name,
            atoms,
            patterns: Vec::new(alloc),
            nodes: Vec::new(alloc),
            functions: Vec::new(alloc),
        }
    }

    /// Adds a literal. It fails where memory runs out, or where there are 2^32 already; and so the calls below.
    pub fn add_literal(&mut self, literal: Term) -> Result<LiteralId, NoMemory>
        ensures id { IfOk result (λ l. l.0 ≡ length self.old.tables.literals) }
        ensures added { OnOk result (self.new ≡ with_tables self.old
            (with_literal self.old.tables (value_of literal))) }
        ensures err { OnErr result (self.new ≡ self.old) }
    {
        let id = next_id(self.literals.len())?;
        self.literals.push(literal)?;
        Ok(LiteralId(id))
    }

    /// Adds a pattern after its parts.
    pub fn add_pattern(&mut self, pattern: PatternNode) -> Result<PatternId, NoMemory>
        requires { PatternPartsAreThere self.old.tables pattern }
        ensures id { IfOk result (λ p. p.0 ≡ length self.old.tables.patterns) }
        ensures added { OnOk result (self.new ≡ with_tables self.old (with_pattern self.old.tables pattern)) }
        ensures err { OnErr result (self.new ≡ self.old) }
    {
        let id = next_id(self.patterns.len())?;
        self.patterns.push(pattern)?;
        Ok(PatternId(id))
    }

    /// Adds a node after its parts.
    pub fn add_node(&mut self, node: Node) -> Result<NodeId, NoMemory>
        requires { PartsAreThere self.old.tables node }
        ensures id { IfOk result (λ n. n.0 ≡ length self.old.tables.trees) }
        ensures added { OnOk result (self.new ≡ with_tables self.old (with_tree self.old.tables node)) }
        ensures err { OnErr result (self.new ≡ self.old) }
    {
        let id = next_id(self.nodes.len())?;
        self.nodes.push(node)?;
        Ok(NodeId(id))
    }

    /// Adds a function after its parts.
    pub fn add_function(&mut self, function: Function) -> Result<FunctionId, NoMemory>
        requires { FunctionRepresents self.old.tables function }
        ensures id { IfOk result (λ f. f.0 ≡ length self.old.functions) }
        ensures added { OnOk result (self.new ≡ with_function self.old function) }
        ensures err { OnErr result (self.new ≡ self.old) }
    {
        let id = next_id(self.functions.len())?;
        self.functions.push(function)?;
        Ok(FunctionId(id))
    }

    /// Gives back the room that its lists have beyond what is in them. It changes nothing else, and can't fail.
    pub fn shrink_to_fit(&mut self)
        ensures { self.new ≡ self.old }
    {
        self.literals.shrink_to_fit();
        self.patterns.shrink_to_fit();
        self.nodes.shrink_to_fit();
        self.functions.shrink_to_fit();
        self.atoms.shrink_to_fit();
    }

    /// The module's name.
    pub fn name(&self) -> AtomId
        ensures { result.0 ≡ self.now.name }
    {
        self.name
    }

    /// The names of the module's atoms.
    pub fn atoms(&self) -> &AtomTable
        ensures { result.now ≡ self.now.atoms }
    {
        &self.atoms
    }

    /// The literal of this number. Where there is none, the tables have `[]`.
    pub fn literal(&self, id: LiteralId) -> Option<&Term>
        ensures found { MatchOption result (literal_at self.now.tables id.0 ≡ list none)
            (λ l. value_of l.now ≡ literal_at self.now.tables id.0) }
        ensures absent { IfNone result (length self.now.tables.literals ≤ id.0) }
    {
        entry(&self.literals, id.0)
    }

    /// The pattern of this number, over its parts. Where there is none, the tables have `_`.
    pub fn pattern(&self, id: PatternId) -> Option<&PatternNode>
        ensures found { MatchOption result (pattern_at self.now.tables id.0 ≡ any)
            (λ p. pattern_over self.now.tables p.now ≡ pattern_at self.now.tables id.0) }
        ensures absent { IfNone result (length self.now.tables.patterns ≤ id.0) }
    {
        entry(&self.patterns, id.0)
    }

    /// The node of this number, over its parts. Where there is none, the tables have the literal `[]`.
    pub fn node(&self, id: NodeId) -> Option<&Node>
        ensures found { MatchOption result (tree_at self.now.tables id.0 ≡ lit (list none))
            (λ n. tree_over self.now.tables n.now ≡ tree_at self.now.tables id.0) }
        ensures absent { IfNone result (length self.now.tables.trees ≤ id.0) }
    {
        entry(&self.nodes, id.0)
    }

    /// The function of this number.
    pub fn function(&self, id: FunctionId) -> Option<&Function>
        ensures { MatchOption result (slice_get self.now.functions id.0 ≡ None)
            (λ f. slice_get self.now.functions id.0 ≡ Some (function_over self.now.tables f.now)) }
    {
        entry(&self.functions, id.0)
    }

    /// The first function of this name that takes this number of arguments.
    pub fn find(&self, name: AtomId, arity: u32) -> Option<FunctionId>
        ensures { MatchOption result (first_named name.0 arity self.now.functions ≡ None)
            (λ f. first_named name.0 arity self.now.functions ≡ Some f.0) }
    {
        let index = index_of(&self.functions, name, arity)?;
        Some(FunctionId(index as u32))
    }

    /// The function that a run begins in: the exported one of this name without arguments.
    pub fn root(&self, name: &[u8]) -> Option<FunctionId>
        ensures { option_map (λ f. f.0) result ≡ root_of name.now self.now.atoms self.now.functions }
    {
        // Its contract says that no two names are the same.
        let _names = self.atoms().len();
        let atom = self.atoms().find(name)?;
        let id = self.find(atom, 0)?;
        let function = self.function(id)?;
        if function.exported { Some(id) } else { None }
    }
}

/// What a run may hold of a module.
#[derive(Drop)]
struct ModuleParts {
    module: Arc<Module>,
    at: u32,
}

/// A module, a share of it, and what holds shares may go to another thread.
fn crosses_threads(module: &Module, held: &ModuleParts, runs: &Vec<(Vec<Term>, Arc<Module>)>) {
    needs_send(module);
    needs_send(&held.module);
    needs_send(held);
    needs_send(runs);
}

fn needs_send<T: Send>(_value: &T) {}

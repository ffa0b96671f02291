//! The walk over the clauses of functions, each of which begins with no variable.

ghost use Rattle.std.specs.Prelude.{flat_map, map, OnOk};
ghost use Rattle.pf_syntax.specs.SyntaxTreeOver.{head_over, heads_over};
ghost use Rattle.pf_rules.specs.Static.{head_faults, names_of_module};
ghost use Rattle.pf_rules.specs.Listing.{ListsFunctions};
ghost use Rattle.pf_static_check.specs.Walking.{BeginsAnew};

use crate::walk::ClauseWalk;
use pf_errors::NoMemory;
use pf_rules::Signatures;
use pf_syntax::{Head, SyntaxTree};
use pf_terms::AtomTable;

impl ClauseWalk {
    /// Through the functions of a module.
    pub(crate) fn functions(
        &mut self,
        syntax: &SyntaxTree,
        atoms: &AtomTable,
        own: &Signatures,
    ) -> Result<(), NoMemory>
        requires { ListsFunctions own.now syntax.now.functions }
        ensures { OnOk result (BeginsAnew self.old self.new
            (flat_map (flat_map (head_faults (names_of_module atoms.now syntax.now.functions))) syntax.now.functions)) }
    {
        for function in syntax.functions() {
            self.heads(syntax, atoms, own, &function.heads)?;
        }
        Ok(())
    }

    /// Through the clauses of a function.
    fn heads(
        &mut self,
        syntax: &SyntaxTree,
        atoms: &AtomTable,
        own: &Signatures,
        heads: &[Head],
    ) -> Result<(), NoMemory>
        requires { ListsFunctions own.now syntax.now.functions }
        ensures { OnOk result (BeginsAnew self.old self.new
            (flat_map (head_faults (names_of_module atoms.now syntax.now.functions))
            (map (head_over syntax.now.node_table) heads.now))) }
    {
        for head in heads {
            self.head(syntax, atoms, own, head)?;
        }
        Ok(())
    }

    /// Through a clause, after which no variable is known, as before it.
    fn head(
        &mut self,
        syntax: &SyntaxTree,
        atoms: &AtomTable,
        own: &Signatures,
        head: &Head,
    ) -> Result<(), NoMemory>
        requires { ListsFunctions own.now syntax.now.functions }
        ensures { OnOk result (BeginsAnew self.old self.new
            (head_faults (names_of_module atoms.now syntax.now.functions) (head_over syntax.now.node_table head.now))) }
    {
        let start = self.variables.trail_len();
        self.expr_patterns(syntax, &head.parameters)?;
        self.condition(syntax, atoms, own, &head.condition)?;
        self.exprs(syntax, atoms, own, &head.body)?;
        self.variables.forget(start)?;
        Ok(())
    }
}

//! The spots of functions.

ghost use Rattle.std.specs.Prelude.{◌≡◌, OnOk, IfOk, map};
ghost use Rattle.pf_syntax.specs.Over.{function_clause_over, function_over};
ghost use Rattle.pf_positions.specs.Added.{AreAdded, spot_seen};
ghost use Rattle.pf_positions.specs.Spots.{function_spots, head_spots, spots_of};

use crate::sign::Sign;
use crate::spot::{Home, Spot};
use pf_errors::NoMemory;
use pf_syntax::{Function, FunctionClause, FunctionId, Module};
use std::alloc::Global;

impl<'m> Home<'m> {
    /// Puts the spots of a clause of the function, which begins with its name.
    fn put_head(self, spots: &mut Vec<Spot>, clause: &FunctionClause) -> Result<(), NoMemory>
        ensures { OnOk result (AreAdded self.entry.module.now.tables spots.old spots.new
            (head_spots self.entry.function.0 (function_clause_over self.entry.module.now.tables clause.now))) }
    {
        self.put(spots, Sign::Name, None)?;
        self.put_patterns(spots, clause.parameters.as_slice())?;
        self.put_guard(spots, &clause.guard)?;
        self.put_tree(spots, clause.body)
    }

    /// Puts the spots of the function.
    fn put_function(self, spots: &mut Vec<Spot>, function: &Function) -> Result<(), NoMemory>
        ensures { OnOk result (AreAdded self.entry.module.now.tables spots.old spots.new
            (function_spots self.entry.function.0 (function_over self.entry.module.now.tables function.now))) }
    {
        for clause in &function.clauses {
            self.put_head(spots, clause)?;
        }
        Ok(())
    }
}

/// The spots of a module. It fails where memory runs out, or where there are 2^32 functions.
pub(crate) fn spots_of(alloc: Global, module: &Module) -> Result<Vec<Spot>, NoMemory>
    ensures { IfOk result (λ spots. map (spot_seen module.now.tables) spots.items ≡ spots_of module.now) }
{
    let mut spots = Vec::new(alloc);
    for index in 0..u32::MAX {
        let id = FunctionId(index);
        let Some(function) = module.function(id) else {
            return Ok(spots);
        };
        let home = Home {
            module,
            function: id,
        };
        home.put_function(&mut spots, function)?;
    }
    Err(NoMemory)
}

//! The places of the nodes of a module.

ghost use Rattle.std.specs.Prelude.{◌≡◌, ◌+◌, ◌==◌, ℕ, IfOk, OnOk, Some, if◌then◌else◌, slice_get, unwrap_or};
ghost use Rattle.pf_syntax.specs.Module.{tree_at};
ghost use Rattle.pf_positions.specs.Innermost.{IsInnermostAt};
ghost use Rattle.pf_positions.specs.Placed.{AreAmongBelow, ArePlaces, spots_with_sign, has_number, sign_lines};
ghost use Rattle.pf_positions.specs.Placed.{place_in, reported_lines};

use crate::functions::spots_of;
use crate::innermost::innermost;
use crate::sign::{SIGNS, Sign};
use crate::spot::Spot;
use crate::written::{WrittenSign, written_in};
use pf_errors::NoMemory;
use pf_syntax::{FunctionId, Module, NodeId};
use std::alloc::Global;
use std::marker::Model;

/// Where a node is: the function, by its number in the module, and the line of the source, from 1.
#[derive(Clone, Copy, PartialEq, Eq, Debug)]
pub struct Position {
    pub function: FunctionId,
    pub line: Option<u32>,
}

/// The places of all nodes of a module that was read from this source.
#[derive(Drop)]
pub struct Positions {
    places: Vec<Option<Position>>,
}

impl Model for Positions {
    ghost use Rattle.std.specs.Prelude.{List, Option};
    ghost use Rattle.pf_positions.specs.declared.places.Position.{Position};

    ghost Value = { List (Option Position) };

    ghost view = { λ a. a.places.items };
}

/// Whether a sign has this number.
fn has_number(sign: Sign, number: u8) -> bool
    ensures { result ≡ has_number number sign }
{
    sign.number() == number
}

/// How many spots have the sign of this number.
fn count_of(spots: &[Spot], number: u8) -> usize
    ensures { result ≡ spots_with_sign number spots.now }
{
    spots
        .iter()
        .filter(|spot| has_number(spot.sign, number))
        .count()
}

/// The lines on which this sign is written, in order.
fn lines_of(alloc: Global, written: &[WrittenSign], number: u8) -> Result<Vec<u32>, NoMemory>
    ensures { IfOk result (λ lines. lines.items ≡ sign_lines number written.now) }
{
    let mut lines = Vec::new(alloc);
    for one in written {
        if has_number(one.sign, number) {
            lines.push(one.line)?;
        }
    }
    Ok(lines)
}

/// The same, where the sign is written as often as there are spots of it; else none is reported.
fn reported_lines(
    alloc: Global,
    spots: &[Spot],
    written: &[WrittenSign],
    number: u8,
) -> Result<Vec<u32>, NoMemory>
    ensures { IfOk result (λ lines. lines.items ≡ reported_lines number spots.now written.now) }
{
    let lines = lines_of(alloc, written, number)?;
    if lines.len() == count_of(spots, number) {
        return Ok(lines);
    }
    Ok(Vec::new(alloc))
}

/// The line of the spot after so many of its sign.
fn line_of(lines: &[u32], rank: usize) -> Option<u32>
    ensures { result ≡ slice_get lines.now rank }
{
    lines.get(rank).copied()
}

impl Positions {
    /// Sets the place of a node.
    fn put(&mut self, node: NodeId, place: Position) -> Result<(), NoMemory>
        ensures { OnOk result ((n : ℕ) → place_in self.new n
            ≡ if n == node.0 then Some place else place_in self.old n) }
    {
        let index = node.0 as usize;
        if index >= self.places.len() {
            self.places.resize(index + 1, None)?;
        }
        self.places[index] = Some(place);
        Ok(())
    }

    /// Sets the places of all nodes that have the sign of this number.
    fn put_sign(
        &mut self,
        alloc: Global,
        spots: &[Spot],
        written: &[WrittenSign],
        number: u8,
    ) -> Result<(), NoMemory>
        requires { AreAmongBelow number spots.now written.now self.old }
        ensures { OnOk result (AreAmongBelow (number + 1) spots.now written.now self.new) }
    {
        let lines = reported_lines(alloc, spots, written, number)?;
        let mut rank = 0;
        for spot in spots {
            if has_number(spot.sign, number) {
                let line = line_of(&lines, rank);
                let function = spot.function;
                if let Some(node) = spot.node {
                    self.put(node, Position { function, line })?;
                }
                rank += 1;
            }
        }
        Ok(())
    }

    /// The places of the nodes of a module that was read from this source.
    pub fn new(alloc: Global, module: &Module, source: &[u8]) -> Result<Positions, NoMemory>
        ensures { IfOk result (λ places. ArePlaces module.now source.now places) }
    {
        let spots = spots_of(alloc, module)?;
        let written = written_in(alloc, source)?;
        let mut places = Positions {
            places: Vec::new(alloc),
        };
        for number in 0..SIGNS {
            places.put_sign(alloc, &spots, &written, number)?;
        }
        Ok(places)
    }

    /// The place of a node, if it is in a function.
    pub fn place(&self, node: NodeId) -> Option<Position>
        ensures { result ≡ place_in self.now node.0 }
    {
        match self.places.get(node.0 as usize) {
            Some(place) => *place,
            None => None,
        }
    }

    /// The node at which a process is, if a part of this one has its value and so many are done with it: the first of
    /// the later parts that isn't a variable or a literal, and within it its first such part, and so on; the node
    /// itself where none is left. None is done before the node is worked out.
    pub fn innermost(module: &Module, node: NodeId, done: Option<u32>) -> NodeId
        ensures { IsInnermostAt (tree_at module.now.tables node.0) (unwrap_or done 0)
            (tree_at module.now.tables result.0) }
    {
        innermost(module, node, done)
    }
}

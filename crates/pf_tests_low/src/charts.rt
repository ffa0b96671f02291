//! Charts of the reports, and the pieces that they must have.

use crate::reports::report;
use crate::scenes::{ChartScene, NAME, SCENES};
use pf_chart::{Manner, put_chart};
use pf_terms::AtomTable;
use std::alloc::Global;
use std::test::Fail;

fn owned(alloc: Global, names: &[&[u8]]) -> Result<Vec<Vec<u8>>, Fail> {
    let mut owned = Vec::new(alloc);
    for name in names {
        owned.push(Vec::from_slice(alloc, name)?)?;
    }
    Ok(owned)
}

/// Puts the chart of a run of `main`.
fn put(
    alloc: Global,
    text: &mut Vec<u8>,
    atoms: &AtomTable,
    scene: &ChartScene,
) -> Result<(), Fail> {
    let manner = Manner {
        compact: scene.is_compact,
        page: 1,
    };
    let names = owned(alloc, scene.names)?;
    let report = report(alloc, &scene.reported)?;
    Ok(put_chart(alloc, text, atoms, b"main", &names, &report, manner)?)
}

/// Checks that a text has each of these pieces, or has none of them.
fn holds(text: &str, has: bool, pieces: &[&str]) -> Result<(), Fail> {
    for piece in pieces {
        if text.contains(*piece) != has {
            return Err(Fail::new(format_args!("amiss in a chart: {piece}")));
        }
    }
    Ok(())
}

/// Checks that the chart of a scene is as it has to be.
fn look(alloc: Global, atoms: &AtomTable, scene: &ChartScene) -> Result<(), Fail> {
    let mut text = Vec::new(alloc);
    put(alloc, &mut text, atoms, scene)?;
    let text = std::str::from_utf8(&text)?;
    holds(text, true, scene.pieces)?;
    holds(text, false, scene.others)
}

/// The table with the atom that a run makes.
fn table(alloc: Global) -> Result<AtomTable, Fail> {
    let mut atoms = AtomTable::new(alloc)?;
    atoms.enter(alloc, NAME)?;
    Ok(atoms)
}

#[test]
fn charts_have_their_pieces(rt: HostRuntime) -> Result<(), Fail> {
    let atoms = table(rt.alloc())?;
    for scene in &SCENES {
        look(rt.alloc(), &atoms, scene)?;
    }
    Ok(())
}

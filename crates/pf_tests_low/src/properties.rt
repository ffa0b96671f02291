//! Which properties texts are, and whether they hold.

use pf_model::report::{Actor, Event, Label, Outcome};
use pf_property::Property;
use pf_terms::{AtomId, AtomTable, Term};
use std::alloc::Global;
use std::test::Fail;

/// The atom of the run that isn't fixed.
const READY: AtomId = AtomId(20);

/// Whether `ready`, when it is sent, rules a property out, and the verdict of a run that the limit ends after that:
/// judged by that, and from its events.
fn judged(alloc: Global, property: &Property) -> Result<(bool, Option<bool>, Option<bool>), Fail> {
    let message = Term::Atom(READY);
    let events = vec![in alloc;
        Event {
            choice: 0,
            count: 1,
            actor: Actor::Process(0),
            label: Label::Sends { to: 1, message },
        },
    ]?;
    let ruled_out = property.rules_out(&events[0].label);
    let outcome = Outcome::Limit;
    Ok((
        ruled_out,
        property.judge(ruled_out, &outcome),
        property.verdict(&events, &outcome),
    ))
}

/// Texts, whether `ready` rules them out, and the verdict.
const TEXTS: [(&str, bool, bool); 8] = [
    ("returns", false, false),
    ("true", false, false),
    ("nocrash", false, true),
    ("nodeadlock", false, true),
    ("withinlimit", false, false),
    ("never:ready", true, false),
    ("never:% each\n_ % one", true, false),
    ("never:  {gone, X, [1 | X]} \n", false, true),
];

#[test]
fn texts_are_judged(rt: HostRuntime) -> Result<(), Fail> {
    let mut atoms = AtomTable::new(rt.alloc())?;
    atoms.enter(rt.alloc(), b"ready")?;
    for (text, ruled_out, holds) in TEXTS {
        let property = Property::read(rt.alloc(), text.as_bytes(), &atoms)?;
        let shared = property.share()?;
        assert!(rt; shared.same(&property));
        assert!(rt; judged(rt.alloc(), &shared)? == (ruled_out, Some(holds), Some(holds)));
    }
    Ok(())
}

//! How a run is judged by several properties, of which one read its events while they passed.

ghost use Rattle.std.specs.Prelude.{◌≡◌, map};
ghost use Rattle.std.specs.List.{list_any};
ghost use Rattle.pf_model.specs.Reports.{view_of_outcome};
ghost use Rattle.pf_model.specs.Shrinking.{is_failure};
ghost use Rattle.pf_property.specs.Views.{property_of};
ghost use Rattle.pf_verdicts.specs.Watching as spec;

use crate::cause::is_failure;
use crate::judged::JudgedSeed;
use pf_property::Property;
use pf_sched::Judged;

/// Whether events play a part in whether a property holds, and not the outcome alone.
pub(crate) fn reads_events(property: &Property) -> bool
    ensures { result ≡ spec.reads_events (property_of property.now) }
{
    matches!(property, Property::NoCrash | Property::Never(_))
}

/// The verdict of a property, which is the one that is watched if it reads events.
fn verdict_seen(seen: &Judged, property: &Property) -> Option<bool>
    ensures { result ≡ spec.verdict_seen seen.now.verdict (view_of_outcome seen.now.outcome)
        (property_of property.now) }
{
    if reads_events(property) {
        seen.verdict
    } else {
        property.judge(false, &seen.outcome)
    }
}

/// Whether it fails.
fn fails_seen(seen: &Judged, property: &Property) -> bool
    ensures { result ≡ is_failure (spec.verdict_seen seen.now.verdict (view_of_outcome seen.now.outcome)
        (property_of property.now)) }
{
    is_failure(verdict_seen(seen, property))
}

/// Whether one of these properties does.
fn one_fails(seen: &Judged, properties: &[Property]) -> bool
    ensures { result ≡ list_any (λ q. is_failure (spec.verdict_seen seen.now.verdict
        (view_of_outcome seen.now.outcome) q)) (map property_of properties.now) }
{
    properties.iter().any(|property| fails_seen(seen, property))
}

/// How the run is judged by a first property and by further ones.
pub(crate) fn judged_seen(seen: Judged, first: &Property, further: &[Property]) -> JudgedSeed
    ensures outcome { result.judged.outcome ≡ seen.outcome }
    ensures verdict { result.judged.verdict
        ≡ spec.verdict_seen seen.verdict (view_of_outcome seen.outcome) (property_of first.now) }
    ensures waiting { result.judged.waiting ≡ seen.waiting }
    ensures further { result.fails_further ≡ list_any (λ q. is_failure (spec.verdict_seen seen.verdict
        (view_of_outcome seen.outcome) q)) (map property_of further.now) }
{
    let fails_further = one_fails(&seen, further);
    let verdict = verdict_seen(&seen, first);
    let Judged {
        outcome,
        waiting,
        ..
    } = seen;
    let judged = Judged {
        outcome,
        verdict,
        waiting,
    };
    JudgedSeed {
        judged,
        fails_further,
    }
}

//! Why a run fails.

ghost use Rattle.std.specs.Prelude.{◌≡◌, map};
ghost use Rattle.std.specs.List.{list_any};
ghost use Rattle.pf_model.specs.Reports.{view_of_report};
ghost use Rattle.pf_model.specs.Shrinking.{is_failure};
ghost use Rattle.pf_property.specs.Views.{property_of};
ghost use Rattle.pf_verdicts.specs.Causes as causes;

use pf_model::report::Report;
use pf_property::Property;

/// Why a run fails.
#[derive(Drop, Clone, Copy, Debug, PartialEq, Eq)]
pub enum FailureCause {
    /// The property of its job fails.
    Property,
    /// That doesn't, and of the further properties this is the first that fails, counted from 0.
    Further(usize),
    /// None fails, but processes still wait though its root returned.
    Leak,
}

/// Whether a property failed.
pub(crate) fn is_failure(verdict: Option<bool>) -> bool
    ensures { result ≡ is_failure verdict }
{
    matches!(verdict, Some(false))
}

/// Whether a property fails of the run of a report.
fn fails_by(report: &Report, property: &Property) -> bool
    ensures { result ≡ causes.fails_by (view_of_report report.now) (property_of property.now) }
{
    is_failure(property.verdict(report.events.as_slice(), &report.outcome))
}

/// Whether one of these properties does. It takes no memory.
pub(crate) fn fails_one(report: &Report, properties: &[Property]) -> bool
    ensures { result
        ≡ list_any (causes.fails_by (view_of_report report.now)) (map property_of properties.now) }
{
    properties.iter().any(|property| fails_by(report, property))
}

/// The first of these properties that does, counted from 0.
fn first_failed(report: &Report, properties: &[Property]) -> Option<usize>
    ensures { result ≡ causes.first_failed (map property_of properties.now) (view_of_report report.now) }
{
    properties
        .iter()
        .position(|property| fails_by(report, property))
}

/// Why the run of a report fails, which fails by its job's property, by one of these further ones, or by a leak. It
/// takes no memory.
pub fn cause_of(report: &Report, further: &[Property]) -> FailureCause
    ensures { result ≡ causes.cause_of (map property_of further.now) (view_of_report report.now) }
{
    if is_failure(report.verdict) {
        return FailureCause::Property;
    }
    match first_failed(report, further) {
        Some(index) => FailureCause::Further(index),
        None => FailureCause::Leak,
    }
}

//! Tests of the crates that know nothing of a running module: channels, choices, priorities, mail, quotas, ties,
//! tokens, values, atoms, searches for a small schedule, streams that count and fail, printed values, properties, and
//! charts of reports that are made by hand.
#![tactic(auto)]

#[cfg(test)]
mod charts;
#[cfg(test)]
mod choices;
#[cfg(test)]
mod mail;
#[cfg(test)]
mod properties;
#[cfg(test)]
mod reports;
#[cfg(test)]
mod requests;
#[cfg(test)]
mod scenes;
#[cfg(test)]
mod signals;
#[cfg(test)]
mod streams;
#[cfg(test)]
mod texts;
#[cfg(test)]
mod values;

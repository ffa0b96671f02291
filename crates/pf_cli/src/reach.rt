//! What a hunt goes over.

ghost use Rattle.std.specs.Prelude.{◌≡◌, ◌⊎◌, IfOk, IfErr, Some, None, codes, is_some, length, map, nat_lt, option_map};
ghost use Rattle.clap.specs.Words.{first_of, kind_of, rows_of, found_of};
ghost use Rattle.pf_cli.specs.Faults.{clash_reported_in};
ghost use Rattle.pf_cli.specs.Args.{clashes_in, is_given, property_names, source_names, reach_in};
ghost use Rattle.pf_cli.specs.Reach.{further_named, looked_for, more_named, roots_named, view_of_reach};

use crate::args::Roots;
use crate::refusals::{Valued, refuse_file};
use crate::values::{is_given, value, values};
use clap::error::ErrorKind;
use clap::{ArgMatches, Error};
use std::alloc::{AllocError, Global};

/// What is said of a name too many.
const NAMES: &str = "'[FILE]...': it wants at most 4,096 files, and this is the 4,097th";

/// What a hunt goes over.
#[derive(Drop)]
pub(crate) struct HuntScope<'a> {
    /// The names of the sources after the first.
    pub more: Vec<&'a str>,
    pub roots: Roots,
    /// Whether nothing is hunted after the first root that fails.
    pub fail_fast: bool,
    /// The properties after the first.
    pub further: Vec<&'a str>,
    /// Whether a seed also fails if its root returned while processes still wait.
    pub leaks: bool,
}

/// The names after the first of these.
fn after_first<'a>(alloc: Global, names: &[&'a str]) -> Result<Vec<&'a str>, Error>
    ensures ok { IfOk result (λ v. more_named (map (λ s. s.now) names.now) ≡ Some (map (λ s. s.now) v.items)) }
    ensures err { IfErr result (λ e. (kind_of e ≡ ErrorKind.OutOfMemory)
        ⊎ ((kind_of e ≡ ErrorKind.InvalidValue) × (more_named (map (λ s. s.now) names.now) ≡ None))) }
{
    if let Some(extra) = names.get(4_096) {
        return Err(refuse_file(alloc, Valued::Hunt, extra, NAMES));
    }
    let Some((_, after)) = names.split_first() else {
        return Ok(Vec::new(alloc));
    };
    match Vec::from_slice(alloc, after) {
        Ok(more) => Ok(more),
        Err(e) => Err(Error::from(e)),
    }
}

/// The names of the sources after the first.
fn more<'a>(alloc: Global, rows: &ArgMatches<'a>) -> Result<Vec<&'a str>, Error>
    ensures ok { IfOk result (λ v.
        more_named (source_names (rows_of (found_of rows.now))) ≡ Some (map (λ s. s.now) v.items)) }
    ensures err { IfErr result (λ e. (kind_of e ≡ ErrorKind.OutOfMemory)
        ⊎ ((kind_of e ≡ ErrorKind.InvalidValue)
        × (more_named (source_names (rows_of (found_of rows.now))) ≡ None))) }
{
    match values(rows, "file") {
        Some(names) => after_first(alloc, names),
        None => Ok(Vec::new(alloc)),
    }
}

/// Whether several sources are named.
fn are_several(rows: &ArgMatches) -> bool
    ensures { result ≡ nat_lt 1 (length (source_names (rows_of (found_of rows.now)))) }
{
    match values(rows, "file") {
        Some(names) => names.len() > 1,
        None => false,
    }
}

/// The properties that a hunt looks for beside `returns` where none is named, unless each outcome is sought.
fn looked_for<'a>(alloc: Global, all: bool) -> Result<Vec<&'a str>, AllocError>
    ensures { IfOk result (λ v. map (λ s. s.now) v.items ≡ looked_for all) }
{
    let mut properties = Vec::new(alloc);
    if !all {
        properties.push("nocrash")?;
        properties.push("nodeadlock")?;
    }
    Ok(properties)
}

/// The properties after the first.
fn further<'a>(alloc: Global, rows: &ArgMatches<'a>) -> Result<Vec<&'a str>, AllocError>
    ensures { IfOk result (λ v. map (λ s. s.now) v.items
        ≡ further_named (is_given (first_of (codes "all") (rows_of (found_of rows.now))))
        (property_names (rows_of (found_of rows.now)))) }
{
    let all = is_given(rows, "all");
    let Some(names) = values(rows, "property") else {
        return looked_for(alloc, all);
    };
    let Some((_, after)) = names.split_first() else {
        return looked_for(alloc, all);
    };
    Vec::from_slice(alloc, after)
}

/// Whether several properties are named.
fn judges_by_several(rows: &ArgMatches) -> bool
    ensures { result ≡ nat_lt 1 (length (property_names (rows_of (found_of rows.now)))) }
{
    match values(rows, "property") {
        Some(names) => names.len() > 1,
        None => false,
    }
}

/// Which roots are hunted.
fn roots(rows: &ArgMatches) -> Roots
    ensures { result ≡ roots_named (is_given (first_of (codes "all-roots") (rows_of (found_of rows.now))))
        (first_of (codes "root") (rows_of (found_of rows.now))) }
{
    match (is_given(rows, "all-roots"), value(rows, "root")) {
        (true, _) => Roots::Every,
        (false, None) => Roots::Main,
        (false, Some(_)) => Roots::Named,
    }
}

/// What the hunt goes over.
pub(crate) fn reach_of<'a>(alloc: Global, rows: &ArgMatches<'a>) -> Result<HuntScope<'a>, Error>
    ensures ok { IfOk result (λ r. reach_in (rows_of (found_of rows.now)) ≡ Some (view_of_reach r)) }
    ensures err { IfErr result (λ e. (kind_of e ≡ ErrorKind.OutOfMemory)
        ⊎ ((kind_of e ≡ ErrorKind.InvalidValue) × (reach_in (rows_of (found_of rows.now)) ≡ None))) }
{
    let more = match more(alloc, rows) {
        Ok(more) => more,
        Err(e) => return Err(e),
    };
    let further = match further(alloc, rows) {
        Ok(further) => further,
        Err(e) => return Err(Error::from(e)),
    };
    Ok(HuntScope {
        more,
        roots: roots(rows),
        fail_fast: is_given(rows, "fail-fast"),
        further,
        leaks: is_given(rows, "leaks"),
    })
}

/// Two words that exclude each other, if there are such.
pub(crate) fn clash(rows: &ArgMatches) -> Option<(&'static str, &'static str)>
    ensures some { is_some result ≡ clashes_in (rows_of (found_of rows.now)) }
    ensures reported { option_map (λ p. (p.0.now, p.1.now)) result ≡ clash_reported_in (rows_of (found_of rows.now)) }
{
    let every = is_given(rows, "all-roots");
    if every && value(rows, "root").is_some() {
        return Some(("--all-roots", "'--root <F>'"));
    }
    let reported = match (is_given(rows, "all"), value(rows, "shrink")) {
        (true, Some(_)) => return Some(("--all", "'--shrink <N>'")),
        (true, None) if judges_by_several(rows) => return Some(("--all", "several properties")),
        (true, None) => "--all",
        (false, Some(_)) => "--shrink <N>",
        (false, None) => return None,
    };
    if is_given(rows, "leaks") {
        Some((reported, "'--leaks'"))
    } else if every {
        Some((reported, "'--all-roots'"))
    } else if are_several(rows) {
        Some((reported, "several files"))
    } else {
        None
    }
}

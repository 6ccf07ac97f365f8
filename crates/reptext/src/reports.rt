//! Reports, each one JSON object on a line.
ghost use Rattle.std.specs.Prelude.{ℕ, ◌≡◌, Bool, IfOk, false, map, string_bytes};
ghost use Rattle.{serde_json.specs.{View.view, Written.has_float}, verdict.specs.Verdict.rule_name, reptext.specs.Places.place_names};
ghost use Rattle.reptext.specs.Reports as reports;

use crate::File;
use crate::places::place_names;
use crate::relations::{Relation, relation_value};
use claims::Kept;
use policy::Policy;
use reach::Extent;
use serde_json::{Value, json};
use std::alloc::{AllocError, Global};
use table::Table;
use verdict::Denial;

/// Returns the report of a text that isn't one of its format: the fault's number, the file, and the
/// line.
pub fn fault_report(alloc: Global, fault: u64, file: File, line: u64) -> Result<Vec<u8>, AllocError>
    ensures { IfOk result (λ report. report.items ≡ reports.fault_report fault file line) }
{
    line_of(alloc, &fault_value(alloc, fault, file, line)?)
}

// The report of a denial by this rule at a place with these names.
#[tactic(auto, using(crate::proofs::Names::names_have_no_float))]
fn denial_report(alloc: Global, rule: &str, place: &[String]) -> Result<Vec<u8>, AllocError>
    ensures { IfOk result (λ report.
        report.items ≡ reports.denial_report rule.now (map string_bytes place.now)) }
{
    line_of(alloc, &denial_value(alloc, rule, place)?)
}

/// Returns the report of a denial: the rule that is broken, and the names at the place.
pub fn denial_text(alloc: Global, table: &Table, denial: &Denial) -> Result<Vec<u8>, AllocError>
    ensures { IfOk result (λ text. text.items
        ≡ reports.denial_report (rule_name denial.now) (place_names table.now denial.now)) }
{
    let place = place_names(alloc, table, table, denial)?;
    denial_report(alloc, denial.rule(), &place)
}

/// Returns the report of an acceptance: how many slots of the table are filled, and for each label
/// the labels on whose objects it may act, by removals and in any way.
pub fn check_report(alloc: Global, table: &Table, policy: &Policy) -> Result<Vec<u8>, AllocError>
    ensures { IfOk result (λ report. reports.IsCheckReport table.now policy.now report.items) }
{
    let cut = relation_value(alloc, table, policy, Relation::Cut)?;
    let full = relation_value(alloc, table, policy, Relation::Full)?;
    let value = check_value(alloc, table, cut, full)?;
    line_of(alloc, &value)
}

/// Returns the report of an acceptance, without details.
pub fn accept_report(alloc: Global) -> Result<Vec<u8>, AllocError>
    ensures { IfOk result (λ report. report.items ≡ reports.line_of reports.accept_data) }
{
    line_of(alloc, &accept_value(alloc)?)
}

/// Returns the report of a legal log of this number of entries, whose last state lies within the
/// policy.
pub fn within_report(alloc: Global, entries: usize) -> Result<Vec<u8>, AllocError>
    ensures { IfOk result (λ report. report.items ≡ reports.line_of (reports.within_data entries)) }
{
    line_of(alloc, &within_value(alloc, entries)?)
}

/// Returns the report of a legal log whose last state lies outside: the rule, and the names at the
/// place.
#[tactic(auto, using(crate::proofs::Names::names_have_no_float))]
pub fn outside_report(
    alloc: Global,
    entries: usize,
    rule: &str,
    place: &[String],
) -> Result<Vec<u8>, AllocError>
    ensures { IfOk result (λ report.
        report.items ≡ reports.line_of (reports.outside_data entries rule.now (map string_bytes place.now))) }
{
    line_of(alloc, &outside_value(alloc, entries, rule, place)?)
}

/// Returns the report of a log that isn't legal: the first entry, from 1, that is no step.
pub fn illegal_report(alloc: Global, entry: usize) -> Result<Vec<u8>, AllocError>
    ensures { IfOk result (λ report. report.items ≡ reports.line_of (reports.illegal_data entry)) }
{
    line_of(alloc, &illegal_value(alloc, entry)?)
}

/// Returns the report of this number of claims that hold, and what those on flows bound.
pub fn hold_report(alloc: Global, claims: usize, kept: Kept) -> Result<Vec<u8>, AllocError>
    ensures { IfOk result (λ report. report.items ≡ reports.line_of (reports.hold_data claims kept)) }
{
    line_of(alloc, &hold_value(alloc, claims, kept)?)
}

/// Returns the report that one label does nothing to another in any run.
pub fn impossible_report(alloc: Global) -> Result<Vec<u8>, AllocError>
    ensures { IfOk result (λ report. report.items ≡ reports.line_of reports.impossible_data) }
{
    line_of(alloc, &impossible_value(alloc)?)
}

/// Returns the report that no run was found: how far the authority goes, and how many calls were
/// tried.
pub fn unfound_report(alloc: Global, bound: Extent, steps: u64) -> Result<Vec<u8>, AllocError>
    ensures { IfOk result (λ report. report.items ≡ reports.line_of (reports.unfound_data bound steps)) }
{
    line_of(alloc, &unfound_value(alloc, bound, steps)?)
}

fn check_value(alloc: Global, table: &Table, cut: Value, full: Value) -> Result<Value, AllocError>
    ensures { IfOk result (λ value. (cuts fulls : ℕ → ℕ → Bool) → view cut ≡ reports.relation_data table.now cuts
        → view full ≡ reports.relation_data table.now fulls → view value ≡ reports.check_data table.now cuts fulls) }
{
    json!(in alloc; {"caps": table.caps().len() as u64, "cut": cut, "full": full, "verdict": "accept"})
}

fn accept_value(alloc: Global) -> Result<Value, AllocError>
    ensures { IfOk result (λ value. view value ≡ reports.accept_data) }
{
    json!(in alloc; {"verdict": "accept"})
}

fn within_value(alloc: Global, entries: usize) -> Result<Value, AllocError>
    ensures { IfOk result (λ value. view value ≡ reports.within_data entries) }
{
    json!(in alloc; {"entries": entries as u64, "state": "within", "verdict": "legal"})
}

fn outside_value(
    alloc: Global,
    entries: usize,
    rule: &str,
    place: &[String],
) -> Result<Value, AllocError>
    ensures { IfOk result (λ value.
        view value ≡ reports.outside_data entries rule.now (map string_bytes place.now)) }
{
    json!(in alloc; {
        "entries": entries as u64,
        "place": names_value(alloc, place)?,
        "rule": rule,
        "state": "outside",
        "verdict": "legal"
    })
}

fn illegal_value(alloc: Global, entry: usize) -> Result<Value, AllocError>
    ensures { IfOk result (λ value. view value ≡ reports.illegal_data entry) }
{
    json!(in alloc; {"entry": entry as u64, "verdict": "illegal"})
}

fn hold_value(alloc: Global, claims: usize, kept: Kept) -> Result<Value, AllocError>
    ensures { IfOk result (λ value. view value ≡ reports.hold_data claims kept) }
{
    json!(in alloc; {"claims": claims as u64, "kept": kept.word(), "verdict": "hold"})
}

fn impossible_value(alloc: Global) -> Result<Value, AllocError>
    ensures { IfOk result (λ value. view value ≡ reports.impossible_data) }
{
    json!(in alloc; {"bound": "none", "run": "impossible"})
}

fn unfound_value(alloc: Global, bound: Extent, steps: u64) -> Result<Value, AllocError>
    ensures { IfOk result (λ value. view value ≡ reports.unfound_data bound steps) }
{
    json!(in alloc; {"bound": extent_word(bound), "run": "none found", "steps": steps})
}

/// Returns the word for how far an authority goes.
pub fn extent_word(extent: Extent) -> &'static str
    ensures { result.now ≡ reports.extent_word extent }
{
    match extent {
        Extent::Full => "full",
        Extent::Take => "take",
        Extent::Nothing => "none",
    }
}

fn fault_value(alloc: Global, fault: u64, file: File, line: u64) -> Result<Value, AllocError>
    ensures { IfOk result (λ value. view value ≡ reports.fault_data fault file line) }
{
    json!(in alloc; {"fault": fault, "file": file.as_str(), "line": line})
}

fn denial_value(alloc: Global, rule: &str, place: &[String]) -> Result<Value, AllocError>
    ensures { IfOk result (λ value.
        view value ≡ reports.denial_data rule.now (map string_bytes place.now)) }
{
    json!(in alloc; {"place": names_value(alloc, place)?, "rule": rule, "verdict": "deny"})
}

fn names_value(alloc: Global, names: &[String]) -> Result<Value, AllocError>
    ensures { IfOk result (λ value. view value ≡ reports.names_data (map string_bytes names.now)) }
{
    let mut values = Vec::with_capacity(alloc, names.len())?;
    for name in names {
        values.push(Value::try_from_str(alloc, name.as_str())?)?;
    }
    Ok(Value::Array(values))
}

/// A value without floats, printed on a line.
pub(crate) fn line_of(alloc: Global, value: &Value) -> Result<Vec<u8>, AllocError>
    requires { has_float (view value.now) ≡ false }
    ensures { IfOk result (λ line. line.items ≡ reports.line_of (view value.now)) }
{
    let mut line = value.to_string(alloc)?;
    line.push('\n')?;
    Ok(line.into_bytes())
}

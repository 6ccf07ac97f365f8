//! The note on the edges of a policy that aren't needed.
use crate::denials::Pasted;
use base::Refusal;
use labels::authority;
use policy::{Policy, close};
use reach::node_holders;
use sharp::close_sharply;
use std::alloc::Global;
use table::Table;
use verdict::Rules;

/// Returns a line that says how many edges of an accepted policy neither the table nor a rule requires, and which
/// command prints these edges. It returns nothing if there are none.
///
/// `table_file` and `policy_file` are what the files of the two are called.
///
/// # Errors
///
/// 40 where memory is refused.
pub fn explain_surplus(
    alloc: Global,
    table_file: &str,
    policy_file: &str,
    rules: Rules,
    table: &Table,
    policy: &Policy,
) -> Result<String, Refusal> {
    let least = least(alloc, rules, table)?;
    let mut edges = policy.edges(alloc)?;
    let all = edges.len();
    edges.retain(|edge| !least.has(*edge));
    let surplus = edges.len();
    let (are, them) = match surplus {
        0 => return Ok(String::new(alloc)),
        1 => ("isn't", "it"),
        _ => ("aren't", "them"),
    };
    let by = match rules {
        Rules::Closed => "",
        Rules::Sharp => "--rules sharp ",
    };
    let (table, policy) = (Pasted(table_file), Pasted(policy_file));
    let mut line = String::new(alloc);
    writeln!(
        line,
        "{policy_file}: note: {surplus} of its {all} edges {are} needed. \
         `confine close {by}{table} {policy} --surplus` prints {them}."
    )?;
    Ok(line)
}

/// The least policy to which a table keeps, by a set of rules.
fn least(alloc: Global, rules: Rules, table: &Table) -> Result<Policy, Refusal> {
    let edges = authority(alloc, table)?;
    let nothing = Policy::new(alloc);
    match rules {
        Rules::Closed => Ok(close(alloc, &nothing, &edges)?),
        Rules::Sharp => Ok(close_sharply(alloc, &nothing, &edges, node_holders(table))?),
    }
}

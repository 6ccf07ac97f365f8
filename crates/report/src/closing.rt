//! The command `close`: the least policy to which a table keeps, and what a policy lacks of it.
ghost use Rattle.std.specs.Prelude.{[], ◌++◌, ◌≡◌, ◌≤◌, IfOk, List};
ghost use Rattle.{base.specs.declared.edge.Edge.Edge, machine.specs.Layout.Layout};
ghost use Rattle.{reach.specs.Reach.IsReach, captext.specs.PolicyText.{edge_lines, policy_text}};
ghost use Rattle.commands.specs.{declared.answer.Answer.Answer as AnswerOf, Commands.HasTextAlone};
ghost use Rattle.report.specs.Closings as closings;

use crate::{OnClose, Rules};
use base::{Edge, Refusal};
use captext::{write_edges, write_policy};
use commands::Answer;
use kernel::each_table_has_one_boot_state;
use labels::{authority, boot_authority_joins_labels_of_its_table};
use policy::Policy;
use reach::node_holders;
use sharp::close_sharply;
use std::alloc::{AllocError, Global};
use table::Table;
use verdict::a_verdict_is_on_the_boot_state;

/// Closes a policy over a table, by a set of rules. Returns what is asked for of the least policy
/// that has the policy's edges and to which the table keeps; for [`OnClose::Surplus`], of the least
/// one to which the table keeps, whatever the policy has.
///
/// The result is closed by [`Rules::Closed`], and sharply closed by [`Rules::Sharp`].
pub(crate) fn closed(
    alloc: Global,
    rules: Rules,
    table: &Table,
    policy: &Policy,
    on_close: OnClose,
) -> Result<Answer, Refusal>
    ensures right { IfOk result
        (closings.AnswersClosing rules on_close table.now policy.now) }
    ensures exit { IfOk result (λ answer. answer.status ≤ 2) }
{
    match on_close {
        OnClose::Policy => whole_answer(alloc, rules, table, policy),
        OnClose::Missing => missing_answer(alloc, rules, table, policy),
        OnClose::Surplus => surplus_answer(alloc, rules, table, policy),
    }
}

/// The least policy by a set of rules that has a policy's edges and to which the table keeps.
fn least(alloc: Global, rules: Rules, table: &Table, policy: &Policy) -> Result<Policy, Refusal>
    ensures closing { IfOk result (λ closed. closings.IsClosing rules table.now policy.now closed) }
{
    a_verdict_is_on_the_boot_state();
    table.keeps_rules();
    let edges = authority(alloc, table)?;
    let closed = least_by(alloc, rules, table, policy, &edges)?;
    closed.edges_rise();
    Ok(closed)
}

/// The least policy by a set of rules that has a policy's edges, and these.
fn least_by(
    alloc: Global,
    rules: Rules,
    table: &Table,
    policy: &Policy,
    edges: &[Edge],
) -> Result<Policy, AllocError>
    ensures { IfOk result (λ closed. closings.IsLeastBy rules table.now (policy.now ++ edges.now) closed) }
{
    match rules {
        Rules::Closed => policy::close(alloc, policy, edges),
        Rules::Sharp => close_sharply(alloc, policy, edges, node_holders(table)),
    }
}

/// The text of the least policy.
fn whole_answer(
    alloc: Global,
    rules: Rules,
    table: &Table,
    policy: &Policy,
) -> Result<Answer, Refusal>
    ensures right { IfOk result
        (closings.AnswersClosing rules OnClose.Policy table.now policy.now) }
    ensures exit { IfOk result (λ answer. answer.status ≤ 2) }
{
    // Laws about tables and their boot states.
    each_table_has_one_boot_state();
    boot_authority_joins_labels_of_its_table();
    table.keeps_rules();
    let closed = least(alloc, rules, table, policy)?;
    Ok(Answer::plain(write_policy(alloc, &closed, table)?, 0))
}

/// The lines of the edges that the policy lacks, and whether there are any.
fn missing_answer(
    alloc: Global,
    rules: Rules,
    table: &Table,
    policy: &Policy,
) -> Result<Answer, Refusal>
    ensures right { IfOk result
        (closings.AnswersClosing rules OnClose.Missing table.now policy.now) }
    ensures exit { IfOk result (λ answer. answer.status ≤ 2) }
{
    // Laws about tables, their boot states, and verdicts on these.
    a_verdict_is_on_the_boot_state();
    each_table_has_one_boot_state();
    table.keeps_rules();
    let closed = least(alloc, rules, table, policy)?;
    lacked_answer(alloc, table, policy, &closed)
}

/// The lines of the edges that the policy has but the table and the rules don't need, and whether
/// there are any.
fn surplus_answer(
    alloc: Global,
    rules: Rules,
    table: &Table,
    policy: &Policy,
) -> Result<Answer, Refusal>
    ensures right { IfOk result
        (closings.AnswersClosing rules OnClose.Surplus table.now policy.now) }
    ensures exit { IfOk result (λ answer. answer.status ≤ 2) }
{
    // Laws about tables, their boot states, and verdicts on these.
    a_verdict_is_on_the_boot_state();
    each_table_has_one_boot_state();
    table.keeps_rules();
    let asked_for = least(alloc, rules, table, &Policy::new(alloc))?;
    lacked_answer(alloc, table, &asked_for, policy)
}

/// The lines of the edges of the second policy that the first lacks, and whether there are any.
fn lacked_answer(
    alloc: Global,
    table: &Table,
    policy: &Policy,
    other: &Policy,
) -> Result<Answer, Refusal>
    ensures text { IfOk result (λ answer. answer.text.items
        ≡ edge_lines table.now (closings.missing_edges policy.now other.now)) }
    ensures status { IfOk result (λ answer. answer.status
        ≡ closings.missing_status (closings.missing_edges policy.now other.now)) }
    ensures bare { IfOk result HasTextAlone }
    ensures exit { IfOk result (λ answer. answer.status ≤ 2) }
{
    let missing = missing_edges(alloc, policy, other)?;
    let status = if missing.is_empty() { 0 } else { 1 };
    Ok(Answer::plain(write_edges(alloc, &missing, table)?, status))
}

/// The edges of the second policy that the first lacks.
fn missing_edges(alloc: Global, policy: &Policy, other: &Policy) -> Result<Vec<Edge>, AllocError>
    ensures missing { IfOk result (λ missing. missing.items ≡ closings.missing_edges policy.now other.now) }
{
    let mut missing = other.edges(alloc)?;
    missing.retain(|edge| !policy.has(*edge));
    Ok(missing)
}

/// A law: by S1 to S8, the policy that is made for a table alone is the table's reach, and so is
/// its text.
pub fn the_sharp_policy_for_a_table_is_its_reach()
    ensures { (t : Layout) (answer : AnswerOf)
        → closings.AnswersClosing Rules.Sharp OnClose.Policy t [] answer
        → (reach : List Edge) × IsReach t reach × (answer.text.items ≡ policy_text t reach) }
{}

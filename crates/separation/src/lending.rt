//! The domains on whose time a domain may run: its own, and those that call it directly or through others.
ghost use Rattle.std.specs.{List.{list_any, range_with_len}, Prelude.{[], ◌∷◌, ◌≡◌, IfOk, filter}};
ghost use Rattle.microkit.specs.{LabelView.bytes_of, View.description_of};
ghost use Rattle.separation.specs.Lending.{all_runners, channel_lends, end_lends, is_among, is_lent, runners_by, runners_of, with_called};

use microkit::{Channel, Description, End};
use std::alloc::{AllocError, Global};

fn is_among(numbers: &[usize], number: usize) -> bool
    ensures { result ≡ is_among numbers.now number }
{
    numbers.iter().any(|one| *one == number)
}

// Whether one of these domains calls this one by an end.
#[tactic(auto, unfolding(crate::specs::Lending::end_lends))]
fn end_lends(runners: &[usize], domain: usize, end: &End, other: &End) -> bool
    ensures { result ≡ end_lends runners.now domain end.now other.now }
{
    end.may_call && other.id.domain == domain && is_among(runners, end.id.domain)
}

#[tactic(auto, unfolding(crate::specs::Lending::channel_lends))]
fn channel_lends(runners: &[usize], domain: usize, channel: &Channel) -> bool
    ensures { result ≡ channel_lends runners.now domain channel.now }
{
    let (first, second) = (&channel.first, &channel.second);
    end_lends(runners, domain, first, second) || end_lends(runners, domain, second, first)
}

#[tactic(auto, unfolding(crate::specs::Lending::is_lent))]
fn is_lent(channels: &[Channel], runners: &[usize], domain: usize) -> bool
    ensures { result ≡ is_lent channels.now runners.now domain }
{
    is_among(runners, domain) || is_called(channels, runners, domain)
}

// Whether one of these domains calls this one.
fn is_called(channels: &[Channel], runners: &[usize], domain: usize) -> bool
    ensures { result ≡ list_any (channel_lends runners.now domain) channels.now }
{
    channels
        .iter()
        .any(|channel| channel_lends(runners, domain, channel))
}

// The domains below a number that are among these, or are called by one of them.
fn lent_below(
    alloc: Global,
    channels: &[Channel],
    runners: &[usize],
    count: usize,
) -> Result<Vec<usize>, AllocError>
    ensures { IfOk result (λ found. found.items ≡ filter (is_lent channels.now runners.now) (range_with_len 0 count)) }
{
    (0..count)
        .filter(|domain| is_lent(channels, runners, *domain))
        .collect(alloc)
}

// These domains, and those that they call.
#[tactic(auto, using(importing::proofs::Items::length_seen))]
fn with_called(
    alloc: Global,
    description: &Description,
    runners: &[usize],
) -> Result<Vec<usize>, AllocError>
    ensures { IfOk result (λ found. found.items ≡ with_called (description_of description.now) runners.now) }
{
    lent_below(
        alloc,
        &description.channels,
        runners,
        description.domains.len(),
    )
}

// The domains that may run on the time of a domain.
fn runners_of(
    alloc: Global,
    description: &Description,
    domain: usize,
) -> Result<Vec<usize>, AllocError>
    ensures { IfOk result (λ found. found.items ≡ runners_of (description_of description.now) domain) }
{
    let mut runners = vec![in alloc; domain]?;
    for _calls in 0..description.domains.len() {
        runners = with_called(alloc, description, &runners)?;
    }
    Ok(runners)
}

/// Returns for each domain the domains that may run on its time.
#[tactic(auto, using(crate::proofs::Lines::shown_more, crate::proofs::Items::seen_more))]
pub(crate) fn all_runners(
    alloc: Global,
    description: &Description,
) -> Result<Vec<Vec<usize>>, AllocError>
    ensures { IfOk result (λ found. bytes_of found.items ≡ all_runners (description_of description.now)) }
{
    let mut found = Vec::new(alloc);
    for domain in 0..description.domains.len() {
        found.push(runners_of(alloc, description, domain)?)?;
    }
    Ok(found)
}

//! The labels that a description joins to the label of a domain or a virtual machine.
ghost use Rattle.std.specs.{List.list_any, Prelude.{[], ◌≡◌, slice_get, unwrap_or}};
ghost use Rattle.microkit.specs.{LabelView.bytes_of, View.description_of};
ghost use Rattle.separation.specs.Joined.{channel_calls, channel_joins, end_calls, end_joins, end_reaches, end_takes};
ghost use Rattle.separation.specs.Joined.{is_joined, is_kin, map_joins, may_wait, runs_on, users_joined};

use crate::users::{acts_for, controls, is_child_of, may_answer};
use microkit::{Channel, Description, End, Map, Subject, User};

// Whether a user, or one inside it, may call a domain by an end.
#[tactic(auto, unfolding(crate::specs::Joined::end_calls))]
fn end_calls(description: &Description, one: User, domain: usize, end: &End, far: &End) -> bool
    ensures { result ≡ end_calls (description_of description.now) one domain end.now far.now }
{
    end.may_call
        && far.id.domain == domain
        && acts_for(description, one, User::Domain(end.id.domain))
}

#[tactic(auto, unfolding(crate::specs::Joined::channel_calls))]
fn channel_calls(description: &Description, one: User, domain: usize, channel: &Channel) -> bool
    ensures { result ≡ channel_calls (description_of description.now) one domain channel.now }
{
    let (first, second) = (&channel.first, &channel.second);
    end_calls(description, one, domain, first, second)
        || end_calls(description, one, domain, second, first)
}

// Whether a user, or one inside it, may call a domain by a channel.
fn calls(description: &Description, one: User, domain: usize) -> bool
    ensures { result
        ≡ list_any (channel_calls (description_of description.now) one domain) description.now.channels.items }
{
    description
        .channels
        .iter()
        .any(|channel| channel_calls(description, one, domain, channel))
}

// Whether a user may wait at an endpoint or a notification of a domain.
#[tactic(auto, unfolding(crate::specs::Joined::may_wait))]
fn may_wait(description: &Description, one: User, domain: usize) -> bool
    ensures { result ≡ may_wait (description_of description.now) one domain }
{
    may_answer(description, one, User::Domain(domain))
        || is_child_of(description, domain, one)
        || calls(description, one, domain)
}

// Whether a user may notify another, call it, or answer it.
#[tactic(auto, unfolding(crate::specs::Joined::end_reaches))]
fn end_reaches(description: &Description, one: User, other: User, end: &End, far: &End) -> bool
    ensures { result ≡ end_reaches (description_of description.now) one other end.now far.now }
{
    let (near, there) = (User::Domain(end.id.domain), User::Domain(far.id.domain));
    (end.may_notify && acts_for(description, one, near) && acts_for(description, other, there))
        || (end.may_call
            && acts_for(description, one, near)
            && may_answer(description, other, there))
        || (far.may_call
            && may_answer(description, one, near)
            && acts_for(description, other, there))
}

// Whether a user may take away from one inside it where the other may wait.
#[tactic(auto, unfolding(crate::specs::Joined::end_takes))]
fn end_takes(description: &Description, one: User, other: User, end: &End, far: &End) -> bool
    ensures { result ≡ end_takes (description_of description.now) one other end.now far.now }
{
    (end.may_notify || end.may_call)
        && controls(description, one, User::Domain(end.id.domain))
        && may_wait(description, other, far.id.domain)
}

#[tactic(auto, unfolding(crate::specs::Joined::end_joins))]
fn end_joins(description: &Description, one: User, other: User, end: &End, far: &End) -> bool
    ensures { result ≡ end_joins (description_of description.now) one other end.now far.now }
{
    end_reaches(description, one, other, end, far) || end_takes(description, one, other, end, far)
}

#[tactic(auto, unfolding(crate::specs::Joined::channel_joins))]
fn channel_joins(description: &Description, one: User, other: User, channel: &Channel) -> bool
    ensures { result ≡ channel_joins (description_of description.now) one other channel.now }
{
    let (first, second) = (&channel.first, &channel.second);
    end_joins(description, one, other, first, second)
        || end_joins(description, one, other, second, first)
}

#[tactic(auto, unfolding(crate::specs::Joined::is_kin))]
fn is_kin(description: &Description, one: User, other: User) -> bool
    ensures { result ≡ is_kin (description_of description.now) one other }
{
    may_answer(description, one, other) || may_answer(description, other, one)
}

#[tactic(auto, unfolding(crate::specs::Joined::users_joined))]
fn users_joined(description: &Description, one: User, other: User) -> bool
    ensures { result ≡ users_joined (description_of description.now) one other }
{
    is_kin(description, one, other) || has_channel(description, one, other)
}

// Whether a channel joins one user to another.
fn has_channel(description: &Description, one: User, other: User) -> bool
    ensures { result
        ≡ list_any (channel_joins (description_of description.now) one other) description.now.channels.items }
{
    description
        .channels
        .iter()
        .any(|channel| channel_joins(description, one, other, channel))
}

// Whether a map lets a user write to a region, or take it away.
#[tactic(auto, unfolding(crate::specs::Joined::map_joins))]
fn map_joins(description: &Description, one: User, region: usize, map: &Map) -> bool
    ensures { result ≡ map_joins (description_of description.now) one region map.now }
{
    map.region == region
        && ((map.writable && acts_for(description, one, map.user))
            || controls(description, one, map.user))
}

// Whether a map joins a user to a region.
fn has_map(description: &Description, one: User, region: usize) -> bool
    ensures { result ≡ list_any (map_joins (description_of description.now) one region) description.now.maps.items }
{
    description
        .maps
        .iter()
        .any(|map| map_joins(description, one, region, map))
}

// Whether a user, or one inside it, is among those that may run on a time.
#[tactic(auto, unfolding(crate::specs::Joined::runs_on))]
fn runs_on(description: &Description, one: User, runners: &[usize]) -> bool
    ensures { result ≡ runs_on (description_of description.now) one runners.now }
{
    runners
        .iter()
        .any(|domain| acts_for(description, one, User::Domain(*domain)))
}

// The domains that may run on the time of the domain of this number.
#[tactic(auto, using(importing::proofs::Items::get_seen))]
fn runners_at(runners: &[Vec<usize>], number: usize) -> &[usize]
    ensures { result.now ≡ unwrap_or (slice_get (bytes_of runners.now) number) [] }
{
    match runners.get(number) {
        Some(found) => found,
        None => &[],
    }
}

/// Returns whether a user is joined to the subject of a label, given who may run on the time of
/// each domain.
#[tactic(auto, unfolding(crate::specs::Joined::is_joined))]
pub(crate) fn is_joined(
    description: &Description,
    runners: &[Vec<usize>],
    one: User,
    subject: Subject,
) -> bool
    ensures { result ≡ is_joined (description_of description.now) (bytes_of runners.now) one subject }
{
    match subject {
        Subject::Domain(n) => users_joined(description, one, User::Domain(n)),
        Subject::Machine(n) => users_joined(description, one, User::Machine(n)),
        Subject::Time(n) => runs_on(description, one, runners_at(runners, n)),
        Subject::Region(n) => has_map(description, one, n),
    }
}

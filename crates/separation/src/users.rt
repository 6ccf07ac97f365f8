//! Users, which are domains and virtual machines, and which of them are inside which.
ghost use Rattle.std.specs.Prelude.{◌==◌, ◌≡◌};
ghost use Rattle.{microkit.specs.View.description_of, importing.specs.Maps.is_user};
ghost use Rattle.separation.specs.Users.{acts_for, controls, family_of, has_reply, home_of, is_child_of};
ghost use Rattle.separation.specs.Users.{is_within, may_answer, parent_of, parent_of_user, top_of};
ghost use Rattle.microkit.specs.declared.description.User.TheVariants as user;

use microkit::{Description, User};

// Whether two users are the same.
fn is_user(one: User, other: User) -> bool
    ensures { result ≡ is_user one other }
{
    match (one, other) {
        (User::Domain(n), User::Domain(m)) | (User::Machine(n), User::Machine(m)) => n == m,
        _ => false,
    }
}

// The domain of a user; for a virtual machine, the domain around it.
#[tactic(auto, using(importing::proofs::Items::get_seen), unfolding(crate::specs::Users::home_of))]
fn home_of(description: &Description, user: User) -> usize
    ensures { result ≡ home_of (description_of description.now) user }
{
    match user {
        User::Domain(n) => n,
        User::Machine(n) => match description.machines.get(n) {
            Some(machine) => machine.domain,
            None => 0,
        },
    }
}

// The domain around a domain, if that is a child.
#[tactic(auto, using(importing::proofs::Items::get_seen), unfolding(crate::specs::Users::parent_of))]
fn parent_of(description: &Description, domain: usize) -> Option<usize>
    ensures { result ≡ parent_of (description_of description.now) domain }
{
    match description.domains.get(domain) {
        Some(domain) => match domain.parent {
            Some(id) => Some(id.domain),
            None => None,
        },
        None => None,
    }
}

// The domain around a user, if there is one.
#[tactic(auto, unfolding(crate::specs::Users::parent_of_user))]
fn parent_of_user(description: &Description, user: User) -> Option<usize>
    ensures { result ≡ parent_of_user (description_of description.now) user }
{
    match user {
        User::Domain(n) => parent_of(description, n),
        User::Machine(_) => Some(home_of(description, user)),
    }
}

/// Returns whether a user is a child or a virtual machine of a domain.
#[tactic(auto, unfolding(crate::specs::Users::is_child_of))]
pub(crate) fn is_child_of(description: &Description, domain: usize, one: User) -> bool
    ensures { result ≡ is_child_of (description_of description.now) domain one }
{
    match parent_of_user(description, one) {
        Some(parent) => parent == domain,
        None => false,
    }
}

// Whether a domain is another one, or at most this number of levels inside it.
#[tactic(auto, using(crate::proofs::Levels::within_last, crate::proofs::Levels::within_top))]
fn is_within(description: &Description, outer: usize, levels: usize, domain: usize) -> bool
    ensures { result ≡ is_within (description_of description.now) outer levels domain }
{
    match (levels.checked_sub(1), parent_of(description, domain)) {
        (Some(below), Some(parent)) => {
            domain == outer || is_within(description, outer, below, parent)
        }
        _ => domain == outer,
    }
}

// The outermost domain around a domain, at most this number of levels up.
#[tactic(auto, using(crate::proofs::Levels::top_last, crate::proofs::Levels::top_top, crate::proofs::Levels::top_more))]
fn top_of(description: &Description, levels: usize, domain: usize) -> usize
    ensures { result ≡ top_of (description_of description.now) levels domain }
{
    match (levels.checked_sub(1), parent_of(description, domain)) {
        (Some(below), Some(parent)) => top_of(description, below, parent),
        _ => domain,
    }
}

#[tactic(auto, unfolding(crate::specs::Users::family_of))]
fn family_of(description: &Description, user: User) -> usize
    ensures { result ≡ family_of (description_of description.now) user }
{
    top_of(
        description,
        description.domains.len(),
        home_of(description, user),
    )
}

// Whether a user is a domain, or is inside it.
#[tactic(auto, using(importing::proofs::Items::length_seen), unfolding(crate::specs::Users::acts_for))]
fn stands_in(description: &Description, outer: usize, one: User) -> bool
    ensures { result ≡ acts_for (description_of description.now) (user.Domain outer) one }
{
    let levels = description.domains.len();
    is_within(description, outer, levels, home_of(description, one))
}

/// Returns whether a user may do all that another may do.
#[tactic(auto, unfolding(crate::specs::Users::acts_for))]
pub(crate) fn acts_for(description: &Description, one: User, other: User) -> bool
    ensures { result ≡ acts_for (description_of description.now) one other }
{
    match one {
        User::Domain(n) => stands_in(description, n, other),
        User::Machine(_) => is_user(one, other),
    }
}

/// Returns whether a user holds the thread of another, or of one around that.
#[tactic(auto, unfolding(crate::specs::Users::controls))]
pub(crate) fn controls(description: &Description, one: User, other: User) -> bool
    ensures { result ≡ controls (description_of description.now) one other }
{
    acts_for(description, one, other) && !is_user(one, other)
}

// Whether a user has a reply object.
#[tactic(auto, unfolding(crate::specs::Users::has_reply))]
fn has_reply(one: User) -> bool
    ensures { result ≡ has_reply one }
{
    match one {
        User::Domain(_) => true,
        User::Machine(_) => false,
    }
}

/// Returns whether a user may answer a call to another one.
#[tactic(auto, unfolding(crate::specs::Users::may_answer))]
pub(crate) fn may_answer(description: &Description, one: User, called: User) -> bool
    ensures { result ≡ may_answer (description_of description.now) one called }
{
    has_reply(one) && family_of(description, one) == family_of(description, called)
}

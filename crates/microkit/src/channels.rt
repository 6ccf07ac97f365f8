//! Channels of a description, and how they are read.
ghost use Rattle.std.specs.{List.{list_any, position}, Prelude.{◌≡◌, is_some}, Str.bytes_eq};
ghost use Rattle.xml.specs.View.{node_of};
ghost use Rattle.microkit.specs.Channels.{calling, calls_upwards, channel_at, channel_part_at, domain_number, end_at};
ghost use Rattle.microkit.specs.Channels.{end_begun, end_domain, end_fits, end_in, go_together, is_below, is_mixed, joined_at};
ghost use Rattle.microkit.specs.{Channels.{priority_of, serves, whole_at}, Draft.Draft, Flaws.TakesAll, View.{domain_of, domains_of}};

use crate::attributes::{flag_in, flag_or, name_in};
use crate::description::{Channel, Domain, End, Id};
use crate::domains::id_in;
use crate::draft::{Begun, Draft, Taken, check_free};
use crate::flaws::{ElementFault, Flaw, ReadError, Spot};
use crate::kinds::Kind;
use xml::Element;

impl Draft {
    /// Adds what the element here says of a channel.
    ///
    /// # Errors
    ///
    /// [`ReadError::Element`] if a domain isn't known, an id is given twice, or a channel hasn't two
    /// ends or these don't go together. These last faults are faults of the channel.
    #[tactic(auto, unfolding(crate::specs::Channels::channel_part_at))]
    pub(crate) fn add_channel_part(
        &mut self,
        kind: Kind,
        spot: Spot,
        element: &Element<'_>,
    ) -> Result<(), ReadError>
        ensures { TakesAll (λ _. self.new) result (channel_part_at kind spot (node_of element.now) self.old) }
    {
        match kind {
            Kind::Channel => self.begin_channel(spot),
            Kind::End => self.add_end_of(spot, element),
            _ => Ok(()),
        }
    }

    #[tactic(auto, unfolding(crate::specs::Channels::channel_at, words::specs::Reading::bind))]
    fn begin_channel(&mut self, spot: Spot) -> Result<(), ReadError>
        ensures { TakesAll (λ _. self.new) result (channel_at spot self.old) }
    {
        check_whole(self.begun)?;
        self.begun = Some(Begun { spot, first: None });
        Ok(())
    }

    #[tactic(auto, unfolding(crate::specs::Channels::end_at, crate::specs::Flaws::of_element, words::specs::Reading::bind))]
    fn add_end_of(&mut self, spot: Spot, element: &Element<'_>) -> Result<(), ReadError>
        ensures { TakesAll (λ _. self.new) result (end_at spot (node_of element.now) self.old) }
    {
        match end_domain(&self.ids, &self.description.domains, element) {
            Ok(domain) => self.add_end(spot, end_in(domain, element)),
            Err(flaw) => Err(spot.fault(flaw)),
        }
    }

    #[tactic(auto, unfolding(crate::specs::Channels::end_begun, crate::specs::Channels::end_joined, crate::specs::Flaws::of_element, words::specs::Reading::bind))]
    fn add_end(&mut self, spot: Spot, end: End) -> Result<(), ReadError>
        ensures { TakesAll (λ _. self.new) result (end_begun spot end self.old.begun self.old) }
    {
        let Some(begun) = self.begun else {
            return Err(spot.fault(Flaw::ThirdEnd));
        };
        match begun.first {
            None => {
                self.begun = Some(Begun {
                    spot: begun.spot,
                    first: Some(end),
                });
            }
            Some(first) => {
                let channel = match joined(&self.description.domains, begun.spot.line, first, end) {
                    Ok(channel) => channel,
                    Err(flaw) => return Err(begun.spot.fault(flaw)),
                };
                self.description.channels.push(channel)?;
                self.begun = None;
            }
        }
        self.ids.push(Taken {
            id: end.id,
            line: end.line,
        })?;
        Ok(())
    }
}

/// Checks that no channel lacks an end.
///
/// # Errors
///
/// [`Flaw::FewEnds`] if one does.
#[tactic(auto, unfolding(crate::specs::Channels::whole_at, crate::specs::Flaws::of_element))]
pub(crate) fn check_whole(begun: Option<Begun>) -> Result<(), ElementFault>
    ensures { result ≡ whole_at begun }
{
    match begun {
        None => Ok(()),
        Some(begun) => Err(ElementFault {
            flaw: Flaw::FewEnds,
            spot: begun.spot,
        }),
    }
}

// The domain of an end that may follow the others.
#[tactic(auto, unfolding(crate::specs::Channels::end_domain, words::specs::Reading::bind))]
fn end_domain(ids: &[Taken], domains: &[Domain], element: &Element<'_>) -> Result<usize, Flaw>
    ensures { result ≡ end_domain ids.now (domains_of domains.now) (node_of element.now) }
{
    let domain = domain_number(domains, name_in(element, b"pd"))?;
    check_end(ids, domains, domain, element)?;
    Ok(domain)
}

#[tactic(auto, unfolding(crate::specs::Channels::end_in))]
fn end_in(domain: usize, element: &Element<'_>) -> End
    ensures { result ≡ end_in domain (node_of element.now) }
{
    End {
        id: id_in(domain, element),
        may_call: flag_or(element, b"pp", false),
        may_notify: flag_or(element, b"notify", true),
        line: element.line,
    }
}

#[tactic(auto, unfolding(crate::specs::Channels::end_fits, words::specs::Reading::bind))]
fn check_end(
    ids: &[Taken],
    domains: &[Domain],
    domain: usize,
    element: &Element<'_>,
) -> Result<(), Flaw>
    ensures { result ≡ end_fits ids.now (domains_of domains.now) domain (node_of element.now) }
{
    check_free(ids, id_in(domain, element))?;
    if is_mixed(element, domains) {
        return Err(Flaw::Mixed);
    }
    Ok(())
}

#[tactic(auto, unfolding(crate::specs::Channels::is_mixed))]
fn is_mixed(element: &Element<'_>, domains: &[Domain]) -> bool
    ensures { result ≡ is_mixed (node_of element.now) (domains_of domains.now) }
{
    flag_in(element, b"pp").is_some() && any_serves(domains)
}

fn any_serves(domains: &[Domain]) -> bool
    ensures { result ≡ list_any (λ domain. is_some domain.serves) (domains_of domains.now) }
{
    one_serves(domains)
}

// `any_serves`, stated of the domains as stored.
fn one_serves(domains: &[Domain]) -> bool
    ensures { result ≡ list_any (λ domain. is_some (domain_of domain).serves) domains.now }
{
    domains.iter().any(|domain| domain.serves.is_some())
}

#[tactic(auto, unfolding(crate::specs::Channels::joined_at, words::specs::Reading::bind))]
fn joined(domains: &[Domain], line: u64, first: End, second: End) -> Result<Channel, Flaw>
    ensures { result ≡ joined_at (domains_of domains.now) line first second }
{
    let channel = Channel {
        first: calling(domains, first, second),
        second: calling(domains, second, first),
        line,
    };
    check_ends(domains, channel)?;
    Ok(channel)
}

#[tactic(auto, unfolding(crate::specs::Channels::calling))]
fn calling(domains: &[Domain], end: End, other: End) -> End
    ensures { result ≡ calling (domains_of domains.now) end other }
{
    End {
        may_call: end.may_call || serves(domains, other.id.domain) && is_below(domains, end, other),
        ..end
    }
}

#[tactic(auto, unfolding(crate::specs::Channels::go_together, words::specs::Reading::bind))]
fn check_ends(domains: &[Domain], channel: Channel) -> Result<(), Flaw>
    ensures { result ≡ go_together (domains_of domains.now) channel }
{
    if channel.first.may_call && channel.second.may_call {
        return Err(Flaw::BothCall);
    }
    check_call(domains, channel.first, channel.second)?;
    check_call(domains, channel.second, channel.first)
}

#[tactic(auto, unfolding(crate::specs::Channels::calls_upwards))]
fn check_call(domains: &[Domain], end: End, other: End) -> Result<(), Flaw>
    ensures { result ≡ calls_upwards (domains_of domains.now) end other }
{
    if !end.may_call || is_below(domains, end, other) {
        Ok(())
    } else if end.id.domain == other.id.domain {
        Err(Flaw::CallsItself)
    } else {
        Err(Flaw::CallsDown)
    }
}

// Whether the domain of an end has a lower priority than the other end's domain.
#[tactic(auto, unfolding(crate::specs::Channels::is_below))]
fn is_below(domains: &[Domain], end: End, other: End) -> bool
    ensures { result ≡ is_below (domains_of domains.now) end other }
{
    priority_of(domains, end.id.domain) < priority_of(domains, other.id.domain)
}

#[tactic(auto, using(crate::proofs::Items::get_seen), unfolding(crate::specs::Channels::serves))]
fn serves(domains: &[Domain], number: usize) -> bool
    ensures { result ≡ serves (domains_of domains.now) number }
{
    match domains.get(number) {
        Some(domain) => domain.serves.unwrap_or(false),
        None => false,
    }
}

#[tactic(auto, using(crate::proofs::Items::get_seen), unfolding(crate::specs::Channels::priority_of))]
fn priority_of(domains: &[Domain], number: usize) -> u64
    ensures { result ≡ priority_of (domains_of domains.now) number }
{
    match domains.get(number) {
        Some(domain) => domain.schedule.priority,
        None => 0,
    }
}

/// Returns the number of the domain with this name.
///
/// # Errors
///
/// [`Flaw::NoDomain`] if no domain has it.
#[tactic(auto, unfolding(crate::specs::Channels::domain_number))]
fn domain_number(domains: &[Domain], name: &[u8]) -> Result<usize, Flaw>
    ensures { result ≡ domain_number (domains_of domains.now) name.now }
{
    position_of(domains, name).ok_or(Flaw::NoDomain)
}

fn position_of(domains: &[Domain], name: &[u8]) -> Option<usize>
    ensures { result ≡ position (λ domain. bytes_eq domain.name name.now) (domains_of domains.now) }
{
    place_of(domains, name)
}

// `position_of`, stated of the domains as stored.
fn place_of(domains: &[Domain], name: &[u8]) -> Option<usize>
    ensures { result ≡ position (λ domain. bytes_eq (domain_of domain).name name.now) domains.now }
{
    domains
        .iter()
        .position(|domain| domain.name.as_slice() == name)
}

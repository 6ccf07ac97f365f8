//! Protection domains and what stands in them, and how they are read.
ghost use Rattle.std.specs.{List.find, Option.option_map, Prelude.{[], ◌++◌, ◌==◌, ◌∷◌, ◌≡◌, IfOk, Ok, OnOk}, Str.bytes_eq};
ghost use Rattle.xml.specs.View.{node_of};
ghost use Rattle.microkit.specs.Domains.{budget_fits, domain_at, domain_fits, domain_in, domain_line, domain_part_at, guest_line};
ghost use Rattle.microkit.specs.Domains.{id_in, interrupt_at, interrupt_fits, interrupt_in, interrupt_line, is_writable, machine_at};
ghost use Rattle.microkit.specs.Domains.{machine_fits, machine_in, machine_line, map_at, own_processor_at, parent_free_at, port_at};
ghost use Rattle.microkit.specs.Domains.{processor_at, processor_fits, schedule_in, variable_at, with_domain, with_machine};
ghost use Rattle.microkit.specs.{Flaws.Takes, View.{domain_of, domains_of, machine_of, machines_of}};

use crate::attributes::{flag_in, flag_or, name_in, number_in, number_or, text_in, value_in};
use crate::description::{
    Domain, Id, Interrupt, Machine, Map, Port, Processor, Schedule, User, Variable,
};
use crate::draft::{Draft, Place, Taken, check_free};
use crate::flaws::{Flaw, Refusal};
use crate::forms::has_byte;
use crate::kinds::Kind;
use crate::regions::region_number;
use std::alloc::{AllocError, Global};
use xml::Element;

/// The number of domains that a system may have.
pub const MAX_DOMAINS: usize = 63;

impl Draft {
    /// Adds what an element says of a domain.
    ///
    /// # Errors
    /// [`Refusal::Flawed`] if a region isn't known, a name, an id or an interrupt is given twice, a
    /// budget is longer than its period, or there are too many domains.
    /// budget is longer than its period, or there are too many domains.
    #[tactic(auto, unfolding(crate::specs::Domains::domain_part_at, crate::specs::Domains::domain_part_of))]
    pub(crate) fn add_domain_part(
        &mut self,
        alloc: Global,
        place: Place,
        element: &Element<'_>,
    ) -> Result<(), Refusal>
        ensures { Takes (λ _. self.new) result (domain_part_at place (node_of element.now) self.old) }
    {
        match place.kind {
            Kind::Domain => self.add_domain(alloc, None, element),
            Kind::Child => self.add_domain(alloc, Some(id_in(place.domain, element)), element),
            Kind::Map => self.add_map(User::Domain(place.domain), element),
            Kind::MachineMap => self.add_map(User::Machine(place.machine), element),
            Kind::Interrupt => self.add_interrupt(place.domain, element),
            Kind::Port => self.add_port(place.domain, element),
            Kind::Variable => self.add_variable(place.domain, element),
            Kind::Machine => self.add_machine(alloc, place.domain, element),
            Kind::Processor => self.add_processor_of(place, element),
            _ => Ok(()),
        }
    }

    #[tactic(auto, unfolding(crate::specs::Domains::domain_at, words::specs::Reading::bind))]
    fn add_domain(
        &mut self,
        alloc: Global,
        parent: Option<Id>,
        element: &Element<'_>,
    ) -> Result<(), Refusal>
        ensures { Takes (λ _. self.new) result (domain_at parent (node_of element.now) self.old) }
    {
        let domain = domain_in(alloc, parent, element)?;
        check_domain(&self.description.domains, &self.children, &domain)?;
        self.push_domain(domain)?;
        Ok(())
    }

    #[tactic(auto, unfolding(crate::specs::Domains::with_domain))]
    fn push_domain(&mut self, domain: Domain) -> Result<(), AllocError>
        ensures { OnOk result (self.new ≡ with_domain (domain_of domain) self.old) }
    {
        let (parent, line) = (domain.parent, domain.line);
        self.description.domains.push(domain)?;
        if let Some(id) = parent {
            self.children.push(Taken { id, line })?;
        }
        Ok(())
    }

    #[tactic(auto, unfolding(crate::specs::Domains::machine_at, words::specs::Reading::bind))]
    fn add_machine(
        &mut self,
        alloc: Global,
        domain: usize,
        element: &Element<'_>,
    ) -> Result<(), Refusal>
        ensures { Takes (λ _. self.new) result (machine_at domain (node_of element.now) self.old) }
    {
        let machine = machine_in(alloc, domain, element)?;
        check_machine(&self.description.machines, &machine)?;
        let number = self.description.machines.len();
        self.description.machines.push(machine)?;
        self.add_own_processor(number_in(element, b"id"), number, domain, element.line)
    }

    // Adds the one virtual processor of a virtual machine that has an id itself.
    #[tactic(auto, unfolding(crate::specs::Domains::own_processor_at))]
    fn add_own_processor(
        &mut self,
        id: Option<u64>,
        machine: usize,
        domain: usize,
        line: u64,
    ) -> Result<(), Refusal>
        ensures { Takes (λ _. self.new) result (own_processor_at id machine domain line self.old) }
    {
        match id {
            None => Ok(()),
            Some(number) => self.add_processor(Processor {
                machine,
                id: Id { domain, number },
                core: 0,
                line,
            }),
        }
    }

    #[tactic(auto, unfolding(crate::specs::Domains::processor_at))]
    fn add_processor_of(&mut self, place: Place, element: &Element<'_>) -> Result<(), Refusal>
        ensures { Takes (λ _. self.new) result (processor_at place (node_of element.now) self.old) }
    {
        self.add_processor(Processor {
            machine: place.machine,
            id: id_in(place.domain, element),
            core: number_or(element, b"cpu", 0),
            line: element.line,
        })
    }

    #[tactic(auto, unfolding(crate::specs::Domains::processor_fits, words::specs::Reading::bind))]
    fn add_processor(&mut self, processor: Processor) -> Result<(), Refusal>
        ensures { Takes (λ _. self.new) result (processor_fits processor self.old) }
    {
        check_free(&self.children, processor.id)?;
        self.description.processors.push(processor)?;
        self.children.push(Taken {
            id: processor.id,
            line: processor.line,
        })?;
        Ok(())
    }

    #[tactic(auto, unfolding(crate::specs::Domains::map_at, words::specs::Reading::bind))]
    fn add_map(&mut self, user: User, element: &Element<'_>) -> Result<(), Refusal>
        ensures { Takes (λ _. self.new) result (map_at user (node_of element.now) self.old) }
    {
        let region = region_number(&self.description.regions, name_in(element, b"mr"))?;
        self.description.maps.push(Map {
            user,
            region,
            vaddr: number_or(element, b"vaddr", 0),
            writable: is_writable(element),
            cached: flag_or(element, b"cached", true),
            line: element.line,
        })?;
        Ok(())
    }

    #[tactic(auto, unfolding(crate::specs::Domains::variable_at, words::specs::Reading::bind))]
    fn add_variable(&mut self, domain: usize, element: &Element<'_>) -> Result<(), Refusal>
        ensures { Takes (λ _. self.new) result (variable_at domain (node_of element.now) self.old) }
    {
        let region = region_number(&self.description.regions, name_in(element, b"region_paddr"))?;
        self.description.variables.push(Variable {
            domain,
            region,
            line: element.line,
        })?;
        Ok(())
    }

    #[tactic(auto, unfolding(crate::specs::Domains::interrupt_at, words::specs::Reading::bind))]
    fn add_interrupt(&mut self, domain: usize, element: &Element<'_>) -> Result<(), Refusal>
        ensures { Takes (λ _. self.new) result (interrupt_at domain (node_of element.now) self.old) }
    {
        let interrupt = interrupt_in(domain, element);
        check_interrupt(&self.ids, &self.description.interrupts, interrupt)?;
        self.description.interrupts.push(interrupt)?;
        self.ids.push(Taken {
            id: interrupt.id,
            line: interrupt.line,
        })?;
        Ok(())
    }

    #[tactic(auto, unfolding(crate::specs::Domains::port_at))]
    fn add_port(&mut self, domain: usize, element: &Element<'_>) -> Result<(), Refusal>
        ensures { Takes (λ _. self.new) result (Ok (port_at domain (node_of element.now) self.old)) }
    {
        self.description.ports.push(Port {
            id: id_in(domain, element),
            line: element.line,
        })?;
        Ok(())
    }
}

pub(crate) fn id_in(domain: usize, element: &Element<'_>) -> Id
    ensures { result ≡ id_in domain (node_of element.now) }
{
    Id {
        domain,
        number: number_or(element, b"id", 0),
    }
}

fn interrupt_in(domain: usize, element: &Element<'_>) -> Interrupt
    ensures { result ≡ interrupt_in domain (node_of element.now) }
{
    Interrupt {
        id: id_in(domain, element),
        irq: number_or(element, b"irq", 0),
        line: element.line,
    }
}

#[tactic(auto, unfolding(crate::specs::Domains::schedule_in))]
fn schedule_in(element: &Element<'_>) -> Schedule
    ensures { result ≡ schedule_in (node_of element.now) }
{
    let budget = number_or(element, b"budget", 1000);
    Schedule {
        priority: number_or(element, b"priority", 0),
        budget,
        period: number_or(element, b"period", budget),
    }
}

#[tactic(auto, unfolding(crate::specs::Domains::domain_in))]
fn domain_in(alloc: Global, parent: Option<Id>, element: &Element<'_>) -> Result<Domain, AllocError>
    ensures { IfOk result (λ domain. domain_of domain ≡ domain_in parent (node_of element.now)) }
{
    Ok(Domain {
        name: text_in(alloc, element, b"name")?,
        parent,
        schedule: schedule_in(element),
        core: number_or(element, b"cpu", 0),
        passive: flag_or(element, b"passive", false),
        smc: flag_or(element, b"smc", false),
        serves: flag_in(element, b"pp"),
        line: element.line,
    })
}

#[tactic(auto, unfolding(crate::specs::Domains::machine_in))]
fn machine_in(alloc: Global, domain: usize, element: &Element<'_>) -> Result<Machine, AllocError>
    ensures { IfOk result (λ machine. machine_of machine ≡ machine_in domain (node_of element.now)) }
{
    Ok(Machine {
        name: text_in(alloc, element, b"name")?,
        domain,
        schedule: schedule_in(element),
        line: element.line,
    })
}

#[tactic(auto, unfolding(crate::specs::Domains::is_writable))]
fn is_writable(element: &Element<'_>) -> bool
    ensures { result ≡ is_writable (node_of element.now) }
{
    match value_in(element, b"perms") {
        Some(rights) => has_byte(b'w', rights),
        None => true,
    }
}

#[tactic(auto, unfolding(crate::specs::Domains::domain_fits, words::specs::Reading::bind))]
fn check_domain(domains: &[Domain], children: &[Taken], domain: &Domain) -> Result<(), Flaw>
    ensures { result ≡ domain_fits (domains_of domains.now) children.now (domain_of domain.now) }
{
    if let Some(line) = domain_line(domains, &domain.name) {
        return Err(Flaw::Name(line));
    }
    check_parent(children, domain.parent)?;
    check_budget(domain.schedule)?;
    if domains.len() >= MAX_DOMAINS {
        return Err(Flaw::ManyDomains);
    }
    Ok(())
}

#[tactic(auto, unfolding(crate::specs::Domains::parent_free_at))]
fn check_parent(children: &[Taken], parent: Option<Id>) -> Result<(), Flaw>
    ensures { result ≡ parent_free_at children.now parent }
{
    match parent {
        None => Ok(()),
        Some(id) => check_free(children, id),
    }
}

#[tactic(auto, unfolding(crate::specs::Domains::budget_fits))]
fn check_budget(schedule: Schedule) -> Result<(), Flaw>
    ensures { result ≡ budget_fits schedule }
{
    if schedule.budget > schedule.period {
        return Err(Flaw::Budget);
    }
    Ok(())
}

fn domain_line(domains: &[Domain], name: &[u8]) -> Option<u64>
    ensures { result ≡ domain_line (domains_of domains.now) name.now }
{
    line_of_domain(domains, name)
}

// `domain_line`, stated of the domains as stored.
fn line_of_domain(domains: &[Domain], name: &[u8]) -> Option<u64>
    ensures { result ≡ option_map
        (λ domain. (domain_of domain).line)
        (find (λ domain. bytes_eq (domain_of domain).name name.now) domains.now) }
{
    let found = domains
        .iter()
        .find(|domain| domain.name.as_slice() == name)?;
    Some(found.line)
}

#[tactic(auto, unfolding(crate::specs::Domains::machine_fits, words::specs::Reading::bind))]
fn check_machine(machines: &[Machine], machine: &Machine) -> Result<(), Flaw>
    ensures { result ≡ machine_fits (machines_of machines.now) (machine_of machine.now) }
{
    if let Some(line) = machine_line(machines, &machine.name) {
        return Err(Flaw::Name(line));
    }
    if let Some(line) = guest_line(machines, machine.domain) {
        return Err(Flaw::SecondMachine(line));
    }
    check_budget(machine.schedule)
}

fn machine_line(machines: &[Machine], name: &[u8]) -> Option<u64>
    ensures { result ≡ machine_line (machines_of machines.now) name.now }
{
    line_of_machine(machines, name)
}

// `machine_line`, stated of the virtual machines as stored.
fn line_of_machine(machines: &[Machine], name: &[u8]) -> Option<u64>
    ensures { result ≡ option_map
        (λ machine. (machine_of machine).line)
        (find (λ machine. bytes_eq (machine_of machine).name name.now) machines.now) }
{
    let found = machines
        .iter()
        .find(|machine| machine.name.as_slice() == name)?;
    Some(found.line)
}

fn guest_line(machines: &[Machine], domain: usize) -> Option<u64>
    ensures { result ≡ guest_line (machines_of machines.now) domain }
{
    line_of_guest(machines, domain)
}

// `guest_line`, stated of the virtual machines as stored.
fn line_of_guest(machines: &[Machine], domain: usize) -> Option<u64>
    ensures { result ≡ option_map
        (λ machine. (machine_of machine).line)
        (find (λ machine. (machine_of machine).domain == domain) machines.now) }
{
    let found = machines.iter().find(|machine| machine.domain == domain)?;
    Some(found.line)
}

#[tactic(auto, unfolding(crate::specs::Domains::interrupt_fits, words::specs::Reading::bind))]
fn check_interrupt(
    ids: &[Taken],
    interrupts: &[Interrupt],
    interrupt: Interrupt,
) -> Result<(), Flaw>
    ensures { result ≡ interrupt_fits ids.now interrupts.now interrupt }
{
    check_free(ids, interrupt.id)?;
    match interrupt_line(interrupts, interrupt.irq) {
        None => Ok(()),
        Some(line) => Err(Flaw::Interrupt(line)),
    }
}

fn interrupt_line(interrupts: &[Interrupt], irq: u64) -> Option<u64>
    ensures { result ≡ interrupt_line interrupts.now irq }
{
    let found = interrupts.iter().find(|interrupt| interrupt.irq == irq)?;
    Some(found.line)
}

//! Descriptions of systems: regions, domains, virtual machines and channels, each with its line.
ghost use Rattle.std.specs.Prelude.{◌<◌, ◌≡◌};
ghost use Rattle.microkit.specs.Pages.{page_bytes};

/// A description of a system.
///
/// Every list is in the order of the text. A domain stands before its children. Regions, domains
/// and virtual machines are named by their numbers in these lists, from 0.
#[derive(Drop)]
pub struct Description {
    pub regions: Vec<Region>,
    pub domains: Vec<Domain>,
    pub machines: Vec<Machine>,
    pub processors: Vec<Processor>,
    pub maps: Vec<Map>,
    pub interrupts: Vec<Interrupt>,
    pub ports: Vec<Port>,
    pub variables: Vec<Variable>,
    pub channels: Vec<Channel>,
}

/// A memory region.
#[derive(Drop)]
pub struct Region {
    pub name: Vec<u8>,
    /// The number of bytes, all of them in whole pages.
    pub size: u64,
    pub page: Page,
    /// The physical address, if the description fixes it.
    pub address: Option<u64>,
    pub line: u64,
}

/// The pages of a region.
#[derive(Clone, Copy)]
pub enum Page {
    Small,
    Large,
}

impl Page {
    /// Returns the number of bytes of such a page.
    pub fn bytes(self) -> u64
        ensures bytes { result ≡ page_bytes self }
        ensures some { 0 < result }
    {
        match self {
            Page::Small => 4096,
            Page::Large => 2_097_152,
        }
    }
}

/// The priority, budget and period by which the kernel schedules a thread.
///
/// Times are in microseconds.
#[derive(Clone, Copy)]
pub struct Schedule {
    pub priority: u64,
    pub budget: u64,
    /// At least the budget.
    pub period: u64,
}

/// An id, by which a domain knows a child, a virtual processor, an interrupt or a channel.
#[derive(Clone, Copy)]
pub struct Id {
    /// The number of the domain.
    pub domain: usize,
    /// The id itself.
    pub number: u64,
}

/// A protection domain.
#[derive(Drop)]
pub struct Domain {
    pub name: Vec<u8>,
    /// For a child, its parent and the id by which the parent knows it.
    pub parent: Option<Id>,
    pub schedule: Schedule,
    pub core: u64,
    pub passive: bool,
    /// Whether it may make secure monitor calls.
    pub smc: bool,
    /// Whether domains of lower priority may call it, if the description has the form of version 1.2.
    pub serves: Option<bool>,
    pub line: u64,
}

/// A virtual machine.
#[derive(Drop)]
pub struct Machine {
    pub name: Vec<u8>,
    /// The number of its domain, which has no other virtual machine.
    pub domain: usize,
    pub schedule: Schedule,
    pub line: u64,
}

/// A virtual processor.
#[derive(Clone, Copy)]
pub struct Processor {
    /// The number of its virtual machine.
    pub machine: usize,
    pub id: Id,
    pub core: u64,
    pub line: u64,
}

/// The domain or virtual machine into which a region is mapped, by its number.
#[derive(Clone, Copy)]
pub enum User {
    Domain(usize),
    Machine(usize),
}

/// A map of a region.
#[derive(Clone, Copy)]
pub struct Map {
    pub user: User,
    /// The number of the region.
    pub region: usize,
    /// The virtual address at which the region begins.
    pub vaddr: u64,
    /// Whether the user may write to the region. It may read the region in any case.
    pub writable: bool,
    pub cached: bool,
    pub line: u64,
}

/// An interrupt.
#[derive(Clone, Copy)]
pub struct Interrupt {
    pub id: Id,
    /// The number of the interrupt, which no other domain has.
    pub irq: u64,
    pub line: u64,
}

/// A range of I/O ports.
#[derive(Clone, Copy)]
pub struct Port {
    pub id: Id,
    pub line: u64,
}

/// A variable of a domain's program that is set to the physical address of a region.
#[derive(Clone, Copy)]
pub struct Variable {
    /// The number of the domain.
    pub domain: usize,
    /// The number of the region.
    pub region: usize,
    pub line: u64,
}

/// An end of a channel.
#[derive(Clone, Copy)]
pub struct End {
    pub id: Id,
    /// Whether the end's domain may call the domain of the other end.
    pub may_call: bool,
    /// Whether the end's domain may notify the domain of the other end.
    pub may_notify: bool,
    pub line: u64,
}

/// A channel between two ends.
#[derive(Clone, Copy)]
pub struct Channel {
    pub first: End,
    pub second: End,
    pub line: u64,
}

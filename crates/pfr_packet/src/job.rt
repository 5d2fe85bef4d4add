//! The job of a run: what its packets are evaluated by.
ghost use Rattle.std.specs.Prelude.{◌≡◌, ◌↔◌, ◌&&◌, [], nat_lt, IfOk, IfErr, OnOk, Ok, Err, IsTrue};
ghost use Rattle.std.specs.List.{list_any};
ghost use Rattle.pfr_net.specs.Networks.{holds};
ghost use Rattle.pfr_terms.specs.declared.error.ConfErrorKind.TheVariants.{Memory};
ghost use Rattle.pfr_terms.specs.Input.{Gives};
ghost use Rattle.pfr_expand.specs.Texts.{ruleset_of};
ghost use Rattle.pfr_packet.specs.Job as spec;

use pfr_conf::{ConfError, ConfErrorKind};
use pfr_criteria::is_named;
use pfr_expand::ruleset_of;
use pfr_headers::{Direction, EthernetAddress, Packet, Tap, direction_from, direction_of};
use pfr_items::Items;
use pfr_net::{IfName, InterfacePlace, Ipv4Address, Net, Timeouts};
use pfr_ruleset::{Interface, Ruleset};
use std::alloc::{AllocError, Global};
use std::marker::Model;

/// What every packet of a run is evaluated by: the ruleset's text, the interfaces, the settings that say which way
/// packets go and where they were captured, the seed, and the ruleset that the text means for the interfaces. Two jobs
/// are the same if all but the last are.
#[derive(Drop)]
pub struct Job {
    text: Items<u8>,
    interfaces: Items<Interface>,
    inside: Items<Net>,
    excepted: Items<Net>,
    link_addresses: Items<Option<EthernetAddress>>,
    tap: Tap,
    seed: [u8; 32],
    rules: Ruleset,
}

impl Model for Job {
    ghost use Rattle.std.specs.Prelude.{◌≡◌, Ok};
    ghost use Rattle.pfr_packet.specs.Job.{RunJob};
    ghost use Rattle.pfr_expand.specs.Texts.{ruleset_of};

    ghost Value = { RunJob };

    ghost view = { λ j. record { text = j.text; interfaces = j.interfaces; inside = j.inside; excepted = j.excepted; link_addresses = j.link_addresses; tap = j.tap; seed = j.seed; rules = j.rules } };

    ghost invariant = { λ j. ruleset_of j.text j.interfaces ≡ Ok j.rules };
}

/// The inputs of a job that are lists: the ruleset's text, the interfaces and the networks whose packets go out.
#[derive(Drop)]
struct Inputs {
    text: Items<u8>,
    interfaces: Items<Interface>,
    inside: Items<Net>,
}

impl Inputs {
    fn copied(
        alloc: Global,
        text: &[u8],
        interfaces: &[Interface],
        inside: &[Net],
    ) -> Result<Inputs, AllocError>
        ensures { IfOk result (λ inputs. (inputs.text ≡ text.now) × (inputs.interfaces ≡ interfaces.now) × (inputs.inside ≡ inside.now)) }
    {
        let mut inputs = Inputs {
            text: Items::new(alloc),
            interfaces: Items::new(alloc),
            inside: Items::new(alloc),
        };
        inputs.fill(text, interfaces, inside).and(Ok(inputs))
    }

    /// Puts the elements of each list in.
    fn fill(
        &mut self,
        text: &[u8],
        interfaces: &[Interface],
        inside: &[Net],
    ) -> Result<(), AllocError>
        requires { (self.old.text ≡ []) × (self.old.interfaces ≡ []) × (self.old.inside ≡ []) }
        ensures { OnOk result ((self.new.text ≡ text.now) × (self.new.interfaces ≡ interfaces.now) × (self.new.inside ≡ inside.now)) }
    {
        self.text.extend_from_slice(text)?;
        self.interfaces.extend_from_slice(interfaces)?;
        self.inside.extend_from_slice(inside)
    }
}

impl Job {
    /// A job by its inputs, or the first fault of the ruleset's text. A text of more than one MiB is refused before it
    /// is read. No network is excepted, no link-level address is known, and packets were captured on the side of the
    /// stack.
    pub fn new(
        alloc: Global,
        text: &[u8],
        interfaces: &[Interface],
        inside: &[Net],
        seed: [u8; 32],
    ) -> Result<Job, ConfError>
        ensures inputs { IfOk result (spec.HasInputs text.now interfaces.now inside.now seed) }
        ensures settings { IfOk result spec.HasDefaults }
        ensures meaning { IfOk result (λ job. ruleset_of text.now interfaces.now ≡ Ok job.rules) }
        ensures fault { IfErr result (λ fault. Gives (ruleset_of text.now interfaces.now) (Err fault)) }
        ensures memory { IfErr result (λ fault. fault.kind ≡ Memory → fault.line ≡ 0) }
    {
        let rules = ruleset_of(alloc, text, interfaces)?;
        Job::of(alloc, text, interfaces, inside, seed, rules)
    }

    /// A job with a ruleset that is read already.
    fn of(
        alloc: Global,
        text: &[u8],
        interfaces: &[Interface],
        inside: &[Net],
        seed: [u8; 32],
        rules: Ruleset,
    ) -> Result<Job, ConfError>
        requires { ruleset_of text.now interfaces.now ≡ Ok rules }
        ensures inputs { IfOk result (spec.HasInputs text.now interfaces.now inside.now seed) }
        ensures settings { IfOk result spec.HasDefaults }
        ensures meaning { IfOk result (λ job. job.rules ≡ rules) }
        ensures memory { IfErr result (λ fault. (fault.kind ≡ Memory) × (fault.line ≡ 0)) }
    {
        match Inputs::copied(alloc, text, interfaces, inside) {
            Ok(inputs) => Ok(Job::by(alloc, inputs, seed, rules)),
            Err(_) => {
                drop(rules);
                Err(no_memory())
            }
        }
    }

    /// A job with these inputs, and the ruleset that they mean.
    fn by(alloc: Global, inputs: Inputs, seed: [u8; 32], rules: Ruleset) -> Job
        requires { ruleset_of inputs.text inputs.interfaces ≡ Ok rules }
        ensures inputs { spec.HasInputs inputs.text inputs.interfaces inputs.inside seed result }
        ensures settings { spec.HasDefaults result }
        ensures meaning { result.rules ≡ rules }
    {
        Job {
            text: inputs.text,
            interfaces: inputs.interfaces,
            inside: inputs.inside,
            excepted: Items::new(alloc),
            link_addresses: Items::new(alloc),
            tap: Tap::Stack,
            seed,
            rules,
        }
    }

    /// The job for packets that were captured on the side `tap` of their translation.
    pub fn with_tap(self, tap: Tap) -> Job
        ensures { result ≡ record self { tap = tap } }
    {
        Job { tap, ..self }
    }

    /// The job with networks whose packets come in, though an inside network with a shorter prefix holds their source.
    /// If an inside and an excepted network are the same, the excepted one counts.
    pub fn with_excepted(self, alloc: Global, networks: &[Net]) -> Result<Job, AllocError>
        ensures { IfOk result (λ job. job ≡ record self { excepted = networks.now }) }
    {
        match Items::copied(alloc, networks) {
            Ok(excepted) => Ok(Job { excepted, ..self }),
            Err(refused) => {
                drop(self);
                Err(refused)
            }
        }
    }

    /// The job with the link-level addresses of the interfaces, by their places, if they are known. On an interface
    /// whose address is known, packets go out if their frames were sent from it, and all others come in.
    pub fn with_link_addresses(
        self,
        alloc: Global,
        addresses: &[Option<EthernetAddress>],
    ) -> Result<Job, AllocError>
        ensures { IfOk result (λ job. job ≡ record self { link_addresses = addresses.now }) }
    {
        match Items::copied(alloc, addresses) {
            Ok(link_addresses) => Ok(Job {
                link_addresses,
                ..self
            }),
            Err(refused) => {
                drop(self);
                Err(refused)
            }
        }
    }

    /// Whether two jobs are the same: they have the same inputs.
    pub fn is_same(&self, other: &Job) -> bool
        ensures { IsTrue result ↔ (self.now ≡ other.now) }
    {
        are_same_interfaces(self.interfaces.as_slice(), other.interfaces.as_slice())
            && is_same_bytes(&self.seed, &other.seed)
            && self.has_same_settings(other)
            && is_same_bytes(self.text.as_slice(), other.text.as_slice())
    }

    /// Whether two jobs say the same of which way packets go, and of where they were captured.
    fn has_same_settings(&self, other: &Job) -> bool
        ensures { IsTrue result ↔ spec.HaveSameSettings self.now other.now }
    {
        are_same_networks(self.inside.as_slice(), other.inside.as_slice())
            && are_same_networks(self.excepted.as_slice(), other.excepted.as_slice())
            && are_same_addresses(
                self.link_addresses.as_slice(),
                other.link_addresses.as_slice(),
            )
            && is_same_tap(self.tap, other.tap)
    }

    /// The ruleset's text.
    #[inline]
    pub fn text(&self) -> &[u8]
        ensures { result.now ≡ self.now.text }
    {
        self.text.as_slice()
    }

    /// The interfaces on which the packets were captured, by their places.
    #[inline]
    pub fn interfaces(&self) -> &[Interface]
        ensures { result.now ≡ self.now.interfaces }
    {
        self.interfaces.as_slice()
    }

    /// The ruleset that the text means.
    #[inline]
    pub fn rules(&self) -> &Ruleset
        ensures { result.now ≡ self.now.rules }
    {
        &self.rules
    }

    /// Where packets that go out were captured.
    #[inline]
    pub(crate) fn tap(&self) -> Tap
        ensures { result ≡ self.now.tap }
    {
        self.tap
    }

    /// The way of a packet of the interface at a place.
    #[inline]
    pub fn direction_of(&self, place: InterfacePlace, packet: &Packet) -> Direction
        ensures { result ≡ spec.direction_of self.now place packet.now }
    {
        match self.link_address_at(place) {
            Some(address) => direction_from(packet, address),
            None => self.direction_in(packet),
        }
    }

    /// The way of a packet by its source.
    #[inline]
    fn direction_in(&self, packet: &Packet) -> Direction
        ensures { result ≡ spec.direction_in self.now packet.now }
    {
        if self.is_excepted(packet.source) {
            return Direction::In;
        }
        direction_of(packet, self.inside.as_slice())
    }

    /// Whether an excepted network holds an address, and no inside network with a longer prefix does.
    #[inline]
    fn is_excepted(&self, address: Ipv4Address) -> bool
        ensures { result ≡ spec.is_excepted self.now address }
    {
        let inside = self.inside.as_slice();
        self.excepted.as_slice().iter().any(|other| other.holds(address)
            && !is_held_longer(inside, other.bits, address))
    }

    /// The link-level address of the interface at a place, if it is known.
    #[inline]
    fn link_address_at(&self, place: InterfacePlace) -> Option<EthernetAddress>
        ensures { result ≡ spec.link_address_at self.now place }
    {
        match self.link_addresses.as_slice().get(usize::from(place.0)) {
            Some(address) => *address,
            None => None,
        }
    }

    /// The seed of the ports that are picked.
    #[inline]
    pub(crate) fn seed(&self) -> &[u8; 32]
        ensures { result.now ≡ self.now.seed }
    {
        &self.seed
    }

    /// The name of the interface at a place.
    #[inline]
    pub fn name_in(&self, place: InterfacePlace) -> IfName
        ensures { result ≡ spec.name_in self.now place }
    {
        self.rules.name_at(place)
    }

    /// Whether packets of the interface at a place aren't filtered (pf.conf(5), "set skip on").
    pub(crate) fn is_skipped(&self, place: InterfacePlace) -> bool
        ensures { result ≡ spec.is_skipped self.now place }
    {
        let skipped = self.rules.options.skipped.as_slice();
        skipped
            .iter()
            .any(|name| is_named(name, &self.name_in(place)))
    }

    /// The timeouts of the ruleset.
    #[inline]
    pub(crate) fn timeouts(&self) -> &Timeouts
        ensures { result.now ≡ spec.timeouts_of self.now }
    {
        &self.rules.options.timeouts
    }
}

/// Whether a network with a longer prefix than this holds an address.
fn is_held_longer(networks: &[Net], bits: u8, address: Ipv4Address) -> bool
    ensures { result ≡ list_any (λ net. nat_lt bits net.bits && holds net address) networks.now }
{
    networks
        .iter()
        .any(|net| bits < net.bits && net.holds(address))
}

fn is_same_bytes(first: &[u8], second: &[u8]) -> bool
    ensures { IsTrue result ↔ (first.now ≡ second.now) }
{
    first == second
}

fn are_same_networks(first: &[Net], second: &[Net]) -> bool
    ensures { IsTrue result ↔ (first.now ≡ second.now) }
{
    first == second
}

fn are_same_interfaces(first: &[Interface], second: &[Interface]) -> bool
    ensures { IsTrue result ↔ (first.now ≡ second.now) }
{
    first == second
}

fn are_same_addresses(first: &[Option<EthernetAddress>], second: &[Option<EthernetAddress>]) -> bool
    ensures { IsTrue result ↔ (first.now ≡ second.now) }
{
    first == second
}

fn is_same_tap(first: Tap, second: Tap) -> bool
    ensures { IsTrue result ↔ (first ≡ second) }
{
    first == second
}

/// Refused memory as an error, which has no line of the text.
fn no_memory() -> ConfError
    ensures kind { result.kind ≡ Memory }
    ensures line { result.line ≡ 0 }
{
    ConfError {
        line: 0,
        kind: ConfErrorKind::Memory,
    }
}

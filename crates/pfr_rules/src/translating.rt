//! Which translation rule translates a packet.
ghost use Rattle.std.specs.Prelude.{◌≡◌, ◌++◌, IfOk, OnOk};
ghost use Rattle.std.specs.List.{find};
ghost use Rattle.std.specs.Option.{option_copied};
ghost use Rattle.pfr_rules.specs.Translating as spec;
ghost use Rattle.pfr_rules.specs.Translating.{Kind};

use crate::hit::{Hit, NewEnd, PortMapping, mapping};
use crate::searching::first_of;
use crate::visits::Visits;
use pfr_criteria::binat_holds;
use pfr_headers::Packet;
use pfr_net::{Direction, IfName, Ipv4Address, RuleNumber};
use pfr_ruleset::{FlatTranslation, HostSet, NatAddress, RdrAddress, Ruleset};
use std::alloc::{AllocError, Global};

/// A translation rule of one kind.
trait TranslationRule {
    /// How it is asked.
    ghost kind: { Kind Self };

    /// What it makes of a packet that it holds for; None if it is written behind `no`.
    fn hit(&self, packet: &Packet, direction: Direction) -> Option<Hit>
        ensures { result ≡ kind.hit packet.now direction self.now };
}

/// What a rule with this number makes of a packet.
#[inline]
fn hit_by(number: usize, passes: bool, new_end: NewEnd) -> Hit
    ensures { result ≡ record { number = record { 0 = number }; passes = passes; new_end = new_end } }
{
    Hit {
        number: RuleNumber(number),
        passes,
        new_end,
    }
}

impl TranslationRule for FlatTranslation<NatAddress> {
    ghost use Rattle.pfr_rules.specs.Translating as spec;

    ghost kind = { spec.nats };

    fn hit(&self, _packet: &Packet, _direction: Direction) -> Option<Hit> {
        Some(hit_by(self.number, self.passes, NewEnd::Picked(self.target?)))
    }
}

impl TranslationRule for FlatTranslation<RdrAddress> {
    ghost use Rattle.pfr_rules.specs.Translating as spec;

    ghost kind = { spec.rdrs };

    fn hit(&self, _packet: &Packet, _direction: Direction) -> Option<Hit> {
        let RdrAddress { address, port } = self.target?;
        let mapping = mapping(self.packet.destination_port, port);
        Some(hit_by(self.number, self.passes, NewEnd::Mapped(address, mapping)))
    }
}

/// The address of `hosts` if only one is written, else `other`.
#[inline]
fn address_or(other: Ipv4Address, hosts: HostSet) -> Ipv4Address
    ensures { result ≡ spec.address_or other hosts }
{
    match hosts {
        HostSet::Network(network) => network.address,
        _ => other,
    }
}

impl TranslationRule for FlatTranslation<Ipv4Address> {
    ghost use Rattle.pfr_rules.specs.Translating as spec;

    ghost kind = { spec.binats };

    fn hit(&self, packet: &Packet, direction: Direction) -> Option<Hit> {
        let target = self.target?;
        let address = match direction {
            Direction::In => address_or(packet.destination, self.packet.source.hosts),
            Direction::Out => target,
        };
        Some(hit_by(
            self.number,
            self.passes,
            NewEnd::Mapped(address, PortMapping::Kept),
        ))
    }
}

/// The first `binat` rule that holds for a packet. The numbers of the rules that are asked are put behind the visited
/// ones.
fn first_binat<'a>(
    rules: &'a [FlatTranslation<Ipv4Address>],
    flat: &Ruleset,
    name: &IfName,
    packet: &Packet,
    direction: Direction,
    visits: &mut Visits,
) -> Result<Option<&'a FlatTranslation<Ipv4Address>>, AllocError>
    ensures found { IfOk result (λ found. option_copied found ≡ find (spec.binat_holds flat.now name.now packet.now direction) rules.now) }
    ensures visits { OnOk result (visits.new ≡ visits.old ++ spec.asked_in spec.binats flat.now name.now packet.now direction rules.now) }
{
    for rule in rules {
        visits.ask(1);
        visits.push(rule.number)?;
        if binat_holds(rule, name, flat.tables.as_slice(), packet, direction) {
            return Ok(Some(rule));
        }
    }
    Ok(None)
}

/// What the first rule that holds makes of a packet.
fn hit_by_first<R: TranslationRule>(
    found: Option<&R>,
    packet: &Packet,
    direction: Direction,
) -> Option<Hit>
    ensures { result ≡ spec.hit_of_first (R.kind.hit packet.now direction) (option_copied found.entry) }
{
    match found {
        Some(rule) => rule.hit(packet, direction),
        None => None,
    }
}

/// What the first `binat` rule that holds makes of a packet.
fn binat_of(
    flat: &Ruleset,
    name: &IfName,
    packet: &Packet,
    direction: Direction,
    visits: &mut Visits,
) -> Result<Option<Hit>, AllocError>
    ensures hit { IfOk result (λ hit. hit ≡ spec.binat_of flat.now name.now packet.now direction) }
    ensures visits { OnOk result (visits.new ≡ visits.old ++ spec.asked_in spec.binats flat.now name.now packet.now direction flat.now.translations.binats) }
{
    let binats = flat.translations.binats.as_slice();
    let found = first_binat(binats, flat, name, packet, direction, visits)?;
    Ok(hit_by_first(found, packet, direction))
}

/// What the kind that is asked after `binat` makes of a packet: `rdr` for a packet that comes in, `nat` for one that
/// goes out.
fn other_hit(
    flat: &Ruleset,
    name: &IfName,
    packet: &Packet,
    direction: Direction,
    visits: &mut Visits,
) -> Result<Option<Hit>, AllocError>
    ensures hit { IfOk result (λ hit. hit ≡ spec.other_hit flat.now name.now packet.now direction) }
    ensures visits { OnOk result (visits.new ≡ visits.old ++ spec.others_asked flat.now name.now packet.now direction) }
{
    match direction {
        Direction::In => {
            let found = first_of(&flat.translations.rdrs, flat, name, packet, visits)?;
            Ok(hit_by_first(found, packet, direction))
        }
        Direction::Out => {
            let found = first_of(&flat.translations.nats, flat, name, packet, visits)?;
            Ok(hit_by_first(found, packet, direction))
        }
    }
}

/// What the translation rules make of a packet on the interface of this name, and which of them are visited, in the
/// order in which they are asked. In each kind the first rule that holds decides: it translates the packet, or with
/// `no` leaves it to the next kind. `binat` comes first, then `rdr` for a packet that comes in and `nat` for one that
/// goes out.
#[tactic(auto, unfolding(crate::specs::Translating::hit_of, crate::specs::Translating::translations_visited))]
pub fn translate(
    alloc: Global,
    flat: &Ruleset,
    name: &IfName,
    packet: &Packet,
    direction: Direction,
) -> Result<(Option<Hit>, Visits), AllocError>
    ensures hit { IfOk result (λ answer. answer.0 ≡ spec.hit_of flat.now name.now packet.now direction) }
    ensures visits { IfOk result (λ answer. answer.1 ≡ spec.translations_visited flat.now name.now packet.now direction) }
{
    let mut visits = Visits::new(alloc);
    let mut hit = binat_of(flat, name, packet, direction, &mut visits)?;
    if hit.is_none() {
        hit = other_hit(flat, name, packet, direction, &mut visits)?;
    }
    Ok((hit, visits))
}

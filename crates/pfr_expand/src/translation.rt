//! Translation rules as flat rules.
ghost use Rattle.std.specs.Prelude.{◌≡◌, ◌≤◌, true, Ok, OnOk};
ghost use Rattle.std.specs.Option.{option_map};
ghost use Rattle.pfr_elements.specs.Single as single;
ghost use Rattle.pfr_elements.specs.Values.{Makes};
ghost use Rattle.pfr_flat.specs.Choices as choosing;
ghost use Rattle.pfr_flat.specs.Lists.{if_written};
ghost use Rattle.pfr_expand.specs.Bodies.{Adds};
ghost use Rattle.pfr_expand.specs.Translations as spec;

use pfr_conf::{
    AddressMatch, ConfError, ConfErrorKind, NatTarget, RdrTarget, RedirectedPort, Target,
    TranslationKind, TranslationRule,
};
use pfr_elements::{Elements, Scope, single_sources, written_single};
use pfr_flat::lists::addresses_in;
use pfr_flat::{Choices, Lists, all_fit, combinations, lists_of, lists_with, put_translations};
use pfr_net::{Ipv4Address, PortMatch};
use pfr_ruleset::{
    HostCriterion, NatAddress, PacketMatch, PortChange, PortRange, RdrAddress, Translations,
};
use std::alloc::{AllocError, Global};
use std::mem::drop;

/// What a rule of each kind translates to, if it translates.
#[derive(Clone, Copy)]
pub enum Change {
    Nat(Option<NatAddress>),
    Rdr(Option<RdrAddress>),
    Binat(Option<Ipv4Address>),
}

/// The addresses of a source, of which each has to be one.
fn source_of(
    alloc: Global,
    scope: &Scope<'_>,
    line: usize,
    list: Option<&[AddressMatch<'_>]>,
) -> Result<Option<Elements<HostCriterion>>, ConfError>
    ensures { Makes (if_written (single.single_sources scope.now line) (option_map (λ l. l.now) list.entry)) result }
{
    match list {
        Some(list) => Ok(Some(single_sources(alloc, scope, line, list)?)),
        None => Ok(None),
    }
}

/// What the lists of a translation rule come to.
#[tactic(auto, unfolding(crate::specs::Translations::translation_lists))]
pub(crate) fn translation_lists(
    alloc: Global,
    scope: &Scope<'_>,
    rule: &TranslationRule<'_>,
) -> Result<Lists, ConfError>
    ensures { Makes (spec.translation_lists scope.now rule.now) result }
{
    match &rule.target {
        Some(Target::Binat(_)) => {
            let written = addresses_in(&rule.criteria.hosts.source);
            let sources = source_of(alloc, scope, rule.line, written)?;
            lists_with(alloc, scope, true, &rule.criteria, None, sources)
        }
        _ => lists_of(alloc, scope, true, &rule.criteria, None),
    }
}

fn port_range(ports: PortMatch) -> PortRange
    ensures { result ≡ spec.port_range ports }
{
    match ports {
        PortMatch::Compare(_, port) => PortRange {
            low: port,
            high: port,
        },
        PortMatch::Range(_, low, high) => PortRange { low, high },
    }
}

fn port_ranges(ports: Option<PortMatch>) -> Option<PortRange>
    ensures { result ≡ spec.port_ranges ports }
{
    Some(port_range(ports?))
}

fn nat_change(
    alloc: Global,
    scope: &Scope<'_>,
    line: usize,
    target: &NatTarget<'_>,
) -> Result<Result<Change, ConfError>, ConfError>
    ensures { Makes (spec.nat_by target.now (single.written_single true scope.now line target.now.address)) result }
{
    match written_single(alloc, scope, true, line, &target.address)? {
        Ok(address) => Ok(Ok(Change::Nat(Some(NatAddress {
            address,
            ports: port_ranges(target.ports),
            static_port: target.static_port,
        })))),
        Err(fault) => Ok(Err(fault)),
    }
}

fn port_change(port: Option<RedirectedPort>) -> PortChange
    ensures { result ≡ spec.port_change port }
{
    match port {
        None => PortChange::Kept,
        Some(RedirectedPort::Fixed(port)) => PortChange::To(port),
        Some(RedirectedPort::From(_, port)) => PortChange::From(port),
    }
}

/// The fault of ports that can't be moved by one distance.
fn port_fault(port: Option<RedirectedPort>, ports: &[Option<PortMatch>]) -> Option<ConfError>
    ensures { result ≡ spec.port_fault port ports.now }
{
    match port {
        Some(RedirectedPort::From(line, first)) if !all_fit(first, ports) => Some(ConfError {
            line,
            kind: ConfErrorKind::BadNumber,
        }),
        _ => None,
    }
}

fn rdr_change(
    alloc: Global,
    scope: &Scope<'_>,
    line: usize,
    target: &RdrTarget<'_>,
    ports: &[Option<PortMatch>],
) -> Result<Result<Change, ConfError>, ConfError>
    ensures { Makes (spec.rdr_by target.now ports.now (single.written_single true scope.now line target.now.address)) result }
{
    let address = match written_single(alloc, scope, true, line, &target.address)? {
        Ok(address) => address,
        Err(fault) => return Ok(Err(fault)),
    };
    match port_fault(target.port, ports) {
        Some(fault) => Ok(Err(fault)),
        None => Ok(Ok(Change::Rdr(Some(RdrAddress {
            address,
            port: port_change(target.port),
        })))),
    }
}

fn no_change(kind: TranslationKind) -> Change
    ensures { result ≡ spec.no_change kind }
{
    match kind {
        TranslationKind::Nat => Change::Nat(None),
        TranslationKind::Rdr => Change::Rdr(None),
        TranslationKind::Binat => Change::Binat(None),
    }
}

/// What a rule that asks for these destination ports translates to.
#[tactic(auto, unfolding(crate::specs::Translations::change_of))]
fn change_of(
    alloc: Global,
    scope: &Scope<'_>,
    rule: &TranslationRule<'_>,
    ports: &[Option<PortMatch>],
) -> Result<Result<Change, ConfError>, ConfError>
    ensures { Makes (spec.change_of scope.now rule.now ports.now) result }
{
    match &rule.target {
        None => Ok(Ok(no_change(rule.kind))),
        Some(Target::Nat(target)) => nat_change(alloc, scope, rule.line, target),
        Some(Target::Rdr(target)) => rdr_change(alloc, scope, rule.line, target, ports),
        Some(Target::Binat(target)) => {
            match written_single(alloc, scope, true, rule.line, target)? {
                Ok(address) => Ok(Ok(Change::Binat(Some(address)))),
                Err(fault) => Ok(Err(fault)),
            }
        }
    }
}

/// Puts a rule for each match behind those of its kind, numbered on from `number`.
fn put(
    out: &mut Translations,
    number: usize,
    line: usize,
    passes: bool,
    change: Change,
    matches: &[PacketMatch],
) -> Result<(), AllocError>
    requires { number ≤ 65536 }
    ensures { OnOk result (out.new ≡ spec.with_rules number line passes change matches.now out.old) }
{
    // a slice's length is a number of the machine, so numbers don't run over
    let _few = matches.len();
    match change {
        Change::Nat(target) => {
            put_translations(&mut out.nats, number, line, passes, target, matches)
        }
        Change::Rdr(target) => {
            put_translations(&mut out.rdrs, number, line, passes, target, matches)
        }
        Change::Binat(target) => {
            put_translations(&mut out.binats, number, line, passes, target, matches)
        }
    }
}

/// Puts a rule for each combination behind those of its kind.
fn put_all(
    out: &mut Translations,
    alloc: Global,
    number: usize,
    line: usize,
    passes: bool,
    change: Change,
    choices: &Choices,
) -> Result<(), AllocError>
    requires { number ≤ 65536 }
    ensures { OnOk result (out.new ≡ spec.with_rules number line passes change (choosing.combinations choices.now) out.old) }
{
    let matches = combinations(alloc, choices)?;
    put(out, number, line, passes, change, matches.as_slice())
}

/// Puts the rules of a rule behind those of its kind, by what may be chosen of its lists.
fn add_chosen(
    out: &mut Translations,
    alloc: Global,
    scope: &Scope<'_>,
    number: usize,
    rule: &TranslationRule<'_>,
    choices: &Choices,
) -> Result<(), ConfError>
    requires { number ≤ 65536 }
    ensures { Adds (spec.with_choices scope.now number rule.now (Ok choices.now) out.old) result out.new }
{
    let change = change_of(alloc, scope, rule, choices.destination_ports.as_slice())??;
    put_all(out, alloc, number, rule.line, rule.passes, change, choices)?;
    Ok(())
}

/// The same, or the fault of the rule's lists.
pub(crate) fn add_translation(
    out: &mut Translations,
    alloc: Global,
    scope: &Scope<'_>,
    number: usize,
    rule: &TranslationRule<'_>,
    choices: Result<Choices, ConfError>,
) -> Result<(), ConfError>
    requires { number ≤ 65536 }
    ensures { Adds (spec.with_choices scope.now number rule.now choices out.old) result out.new }
{
    if let Ok(chosen) = &choices {
        let added = add_chosen(out, alloc, scope, number, rule, chosen);
        drop(choices);
        return added;
    }
    choices.and(Ok(()))
}

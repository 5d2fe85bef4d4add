//! The interfaces that rules name, and those of them that a run doesn't have.
ghost use Rattle.std.specs.Prelude.{[], ◌≡◌, IfOk, OnOk, Option};
ghost use Rattle.std.specs.List.{IsDistinct};
ghost use Rattle.pfr_criteria.specs.Packets.{is_named};
ghost use Rattle.pfr_net.specs.declared.interface.IfName.{IfName};
ghost use Rattle.pfr_ruleset.specs.declared.interface.InterfaceCriterion.{InterfaceCriterion};
ghost use Rattle.pfr_notices.specs.Named as spec;

use pfr_criteria::is_named;
use pfr_net::IfName;
use pfr_ruleset::{FlatAnchor, FlatRule, FlatTranslation, Interface, InterfaceCriterion, Ruleset};
use std::alloc::{AllocError, Global};

/// What may ask for an interface behind `on`: a rule or an anchor.
trait Asks {
    /// The interface that it asks for.
    ghost criterion: { Self → Option InterfaceCriterion };
    /// The interface that it asks for, with `!` or without.
    fn interface(&self) -> Option<InterfaceCriterion>
        ensures { result ≡ criterion self.now };
}

impl Asks for FlatRule {
    ghost criterion = { λ rule. rule.packet.interface };

    fn interface(&self) -> Option<InterfaceCriterion> {
        self.packet.interface
    }
}

impl Asks for FlatAnchor {
    ghost criterion = { λ anchor. anchor.packet.interface };

    fn interface(&self) -> Option<InterfaceCriterion> {
        self.packet.interface
    }
}

impl<T> Asks for FlatTranslation<T> {
    ghost criterion = { λ rule. rule.packet.interface };

    fn interface(&self) -> Option<InterfaceCriterion> {
        self.packet.interface
    }
}

/// Whether a name is one of these.
pub(crate) fn is_among(names: &[IfName], name: &IfName) -> bool
    ensures { result ≡ spec.is_among names.now name.now }
{
    names.iter().any(|other| is_named(other, name))
}

/// Adds the interface that `asked` names, if there is one and it isn't there.
fn add(names: &mut Vec<IfName>, asked: Option<InterfaceCriterion>) -> Result<(), AllocError>
    ensures order { OnOk result (names.new.items ≡ spec.with_asked names.old.items asked) }
    ensures gained { OnOk result (spec.Gains names.old.items names.new.items (λ name. spec.asks_for name asked)) }
    ensures once { IsDistinct is_named names.old.items → OnOk result (IsDistinct is_named names.new.items) }
{
    let Some(criterion) = asked else {
        return Ok(());
    };
    if is_among(names.as_slice(), &criterion.name) {
        return Ok(());
    }
    names.push(criterion.name)?;
    Ok(())
}

/// Adds the interfaces that rules or anchors ask for.
fn add_all<T: Asks>(names: &mut Vec<IfName>, rules: &[T]) -> Result<(), AllocError>
    ensures order { OnOk result (names.new.items ≡ spec.each_once names.old.items (spec.asked_by T.criterion rules.now)) }
    ensures gained { OnOk result (spec.Gains names.old.items names.new.items (λ name. spec.one_asks_for T.criterion name rules.now)) }
    ensures once { IsDistinct is_named names.old.items → OnOk result (IsDistinct is_named names.new.items) }
{
    for rule in rules {
        add(names, rule.interface())?;
    }
    Ok(())
}

/// The interfaces that rules of a ruleset name behind `on`, with `!` or without, and those that its anchors do. Each comes once, at its
/// first place among filter rules, anchors and rules of nat, rdr and binat.
pub fn named_interfaces(alloc: Global, rules: &Ruleset) -> Result<Vec<IfName>, AllocError>
    ensures order { IfOk result (λ names. names.items ≡ spec.each_once [] (spec.asked_in rules.now)) }
    ensures named { IfOk result (λ names. (name : IfName) → spec.is_among names.items name ≡ spec.is_named_in rules.now name) }
    ensures once { IfOk result (λ names. IsDistinct is_named names.items) }
{
    let mut names = Vec::new(alloc);
    add_all(&mut names, rules.filter.rules())?;
    add_all(&mut names, rules.filter.anchors())?;
    add_all(&mut names, rules.translations.nats.as_slice())?;
    add_all(&mut names, rules.translations.rdrs.as_slice())?;
    add_all(&mut names, rules.translations.binats.as_slice())?;
    Ok(names)
}

/// Whether a run has an interface of this name.
fn has_interface(interfaces: &[Interface], name: &IfName) -> bool
    ensures { result ≡ spec.has_interface interfaces.now name.now }
{
    interfaces
        .iter()
        .any(|interface| is_named(&interface.name, name))
}

/// The names in a list that no interface of a run has.
pub(crate) fn missing(
    alloc: Global,
    interfaces: &[Interface],
    names: &[IfName],
) -> Result<Vec<IfName>, AllocError>
    ensures { IfOk result (λ missing. missing.items ≡ spec.missing interfaces.now names.now) }
{
    let mut missing = Vec::new(alloc);
    for name in names {
        if !has_interface(interfaces, name) {
            missing.push(*name)?;
        }
    }
    Ok(missing)
}

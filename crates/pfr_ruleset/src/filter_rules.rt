//! The filter rules of a ruleset, and the anchors round them.
ghost use Rattle.std.specs.Prelude.{◌≡◌, ◌≤◌, ◌+◌, ◌++◌, [], length, map, OnOk, IfOk};
ghost use Rattle.std.specs.Option.{option_copied};
ghost use Rattle.pfr_ruleset.specs.Criteria.{asked_by};
ghost use Rattle.pfr_ruleset.specs.FilterAids.{HaveOwnAids};
ghost use Rattle.pfr_ruleset.specs.Indexes.{AreFilterAids};
ghost use Rattle.pfr_ruleset.specs.Places as spec;
ghost use Rattle.pfr_ruleset.specs.Places.{AreOpened};

use crate::aids::{FilterAids, MOST_INDEXED};
use crate::criterion::Asked;
use crate::flat::{FlatAnchor, FlatRule};
use pfr_items::Items;
use std::alloc::{AllocError, Global};
use std::marker::Model;

/// Rules and the anchors round them, each in the order of the text.
#[derive(Drop)]
pub struct RuleLists {
    pub rules: Items<FlatRule>,
    pub anchors: Items<FlatAnchor>,
}

/// The filter rules of a ruleset and the anchors round them. Contracts see the two lists. Each anchor stands round
/// rules that are there; a later anchor stands in an earlier one or behind it.
#[derive(Drop)]
pub struct FilterRules {
    rules: Items<FlatRule>,
    anchors: Items<FlatAnchor>,
    /// The opening of each place: the least place from which on a hit ends a walk there.
    openings: Vec<usize>,
    /// What lets a walk skip rules, once it is made.
    aids: Option<FilterAids>,
}

impl Model for FilterRules {
    ghost use Rattle.pfr_ruleset.specs.declared.filter_rules.RuleLists.{RuleLists};
    ghost use Rattle.pfr_ruleset.specs.Places.{ArePlaced, HasOpenings};
    ghost use Rattle.pfr_ruleset.specs.FilterAids.{HaveFilterAids};

    ghost Value = { RuleLists };

    ghost view = { λ f. record { rules = f.rules; anchors = f.anchors } };

    ghost invariant = { λ f. ArePlaced f.rules f.anchors × HasOpenings f.rules f.anchors f.openings.items × HaveFilterAids f.rules f.openings.items f.aids };
}

/// Puts anchors behind others, each `place` rules further on than it says. `size` is the number of rules that they
/// stand round.
#[tactic(auto, unfolding(crate::specs::Places::AreWithin))]
pub fn put_anchors(
    out: &mut Items<FlatAnchor>,
    place: usize,
    size: usize,
    anchors: &[FlatAnchor],
) -> Result<(), AllocError>
    requires fits { place + size ≤ 18446744073709551615 }
    requires within { spec.AreWithin size anchors.now }
    ensures { OnOk result (out.new ≡ out.old ++ map (spec.moved place) anchors.now) }
{
    for anchor in anchors {
        out.push(FlatAnchor {
            first: place + anchor.first,
            last: place + anchor.last,
            ..*anchor
        })?;
    }
    Ok(())
}

/// The opening of a rule's place by the rule itself.
fn own_opening(rule: &FlatRule, place: usize) -> usize
    ensures { result ≡ spec.own_opening rule.now place }
{
    if rule.is_quick { place } else { usize::MAX }
}

/// Puts the openings of rules by themselves behind `openings`.
fn put_openings(openings: &mut Vec<usize>, rules: &[FlatRule]) -> Result<(), AllocError>
    ensures made { OnOk result (openings.new.items ≡ openings.old.items ++ spec.own_openings (length openings.old.items) rules.now) }
    ensures size { OnOk result (length openings.new.items ≡ length openings.old.items + length rules.now) }
{
    for rule in rules {
        let place = openings.len();
        openings.push(own_opening(rule, place))?;
    }
    Ok(())
}

/// Lowers the openings of the places at which quick anchors end. Each anchor stands `place` rules further on than it says.
#[tactic(auto, unfolding(crate::specs::Places::AreWithin))]
fn open_anchors(openings: &mut Vec<usize>, place: usize, size: usize, anchors: &[FlatAnchor])
    requires fits { place + size ≤ length openings.old.items }
    requires within { spec.AreWithin size anchors.now }
    ensures size { length openings.new.items ≡ length openings.old.items }
    ensures each { AreOpened openings.old.items (map (spec.moved place) anchors.now) openings.new.items }
{
    for anchor in anchors {
        if anchor.is_quick {
            let last = place + anchor.last;
            openings[last] = openings[last].min(place + anchor.first);
        }
    }
}

/// What each filter rule asks for.
fn asked_of(alloc: Global, rules: &[FlatRule]) -> Result<Vec<Asked>, AllocError>
    ensures { IfOk result (λ asked. asked.items ≡ map asked_by rules.now) }
{
    let mut asked = Vec::with_capacity(alloc, rules.len())?;
    for rule in rules {
        asked.push(rule.asked())?;
    }
    Ok(asked)
}

/// What is kept beside rules with the openings of their places.
fn aids_of(alloc: Global, rules: &[FlatRule], openings: &[usize]) -> Result<FilterAids, AllocError>
    requires few { length rules.now ≤ 4294967295 }
    requires size { length openings.now ≡ length rules.now }
    ensures { IfOk result (λ aids. AreFilterAids (map asked_by rules.now) openings.now aids) }
{
    let asked = asked_of(alloc, rules)?;
    let aids = FilterAids::over(alloc, &asked, openings)?;
    Ok(aids)
}

impl FilterRules {
    pub fn new(alloc: Global) -> FilterRules
        ensures { result ≡ record { rules = []; anchors = [] } }
    {
        FilterRules {
            rules: Items::new(alloc),
            anchors: Items::new(alloc),
            openings: Vec::new(alloc),
            aids: None,
        }
    }

    /// The same with more rules, and the anchors round these, behind the others.
    pub fn joined(
        self,
        rules: &[FlatRule],
        anchors: &[FlatAnchor],
    ) -> Result<FilterRules, AllocError>
        requires { spec.ArePlaced rules.now anchors.now }
        ensures { IfOk result (λ made. made ≡ spec.joined self rules.now anchors.now) }
    {
        let FilterRules {
            rules: mut all,
            anchors: mut round,
            mut openings,
            aids: _,
        } = self;
        let place = all.len();
        all.extend_from_slice(rules)?;
        put_openings(&mut openings, rules)?;
        put_anchors(&mut round, place, rules.len(), anchors)?;
        open_anchors(&mut openings, place, rules.len(), anchors);
        Ok(FilterRules {
            rules: all,
            anchors: round,
            openings,
            aids: None,
        })
    }

    /// Makes what lets a walk skip rules. The rules stay as they are.
    pub fn index(&mut self, alloc: Global) -> Result<(), AllocError>
        ensures { self.new ≡ self.old }
    {
        if self.rules.len() <= MOST_INDEXED {
            self.aids = Some(aids_of(alloc, self.rules.as_slice(), &self.openings)?);
        }
        Ok(())
    }

    /// The rules, in the order of the text. A rule's number is its place.
    #[inline]
    pub fn rules(&self) -> &[FlatRule]
        ensures { result.now ≡ self.now.rules }
    {
        self.rules.as_slice()
    }

    /// The anchors, in the order of the text.
    #[inline]
    pub fn anchors(&self) -> &[FlatAnchor]
        ensures value { result.now ≡ self.now.anchors }
        ensures placed { spec.ArePlaced self.now.rules result.now }
    {
        self.anchors.as_slice()
    }

    /// The opening of each place: the least place from which on a hit ends a walk there.
    #[inline]
    pub fn openings(&self) -> &[usize]
        ensures { spec.HasOpenings self.now.rules self.now.anchors result.now }
    {
        self.openings.as_slice()
    }

    /// What is kept beside the rules and the openings of their places, if it has been made.
    #[inline]
    pub fn aids(&self) -> Option<&FilterAids>
        ensures { HaveOwnAids self.now (option_copied result) }
    {
        self.aids.as_ref()
    }
}

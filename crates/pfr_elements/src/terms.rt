//! What interfaces, protocols, ports and ICMP types mean in a list.
ghost use Rattle.std.specs.Prelude.{◌≡◌};
ghost use Rattle.pfr_terms.specs.Input.{Parser, Reads};
ghost use Rattle.pfr_elements.specs.Elements.{value_item};
ghost use Rattle.pfr_elements.specs.Meanings.{IsListOf};
ghost use Rattle.pfr_elements.specs.Terms as spec;
ghost use Rattle.pfr_elements.specs.Terms.{flat_item, plain};
ghost use Rattle.pfr_elements.specs.declared.definition.ListMeaning.{ListMeaning};
ghost use Rattle.pfr_elements.specs.declared.definition.ListMeanings.{ListMeanings};

use crate::definition::{ListMeaning, ListMeanings};
use crate::element::{Element, noted};
use crate::faults::unknown_word;
use crate::scope::Scope;
use pfr_net::{IcmpMatch, IfName, PortMatch, Protocol};
use pfr_ruleset::InterfaceCriterion;
use pfr_terms::lists::Item;
use pfr_terms::{ConfError, InterfaceMatch, InterfaceName, MacroUse, Reader, Written};
use pfr_words::Bytes;
use std::alloc::Global;

/// The same use.
pub(crate) fn copied<'w>(found: &'w MacroUse<'_>) -> MacroUse<'w>
    ensures { result ≡ found.now }
{
    MacroUse {
        line: found.line,
        name: Bytes::new(found.name.as_slice()),
        suffix: Bytes::new(found.suffix.as_slice()),
    }
}

/// The macro that is used, if it is a use.
pub(crate) fn use_in<'w, T>(written: &'w Written<'_, T>) -> Option<MacroUse<'w>>
    ensures { result ≡ spec.use_in written.now }
{
    match written {
        Written::Macro(found) => Some(copied(found)),
        Written::Item(_) => None,
    }
}

/// A use within a value, which can't be.
pub(crate) fn misplaced(found: &MacroUse<'_>) -> ConfError
    ensures { result ≡ spec.misplaced found.now }
{
    unknown_word(found.line)
}

/// An item that means the same wherever it stands.
pub trait Plain: Sized {
    /// What it means.
    type Flat: Copy;

    /// How it is read.
    ghost item: { Parser Self };

    /// What it means.
    ghost flat: { Self → Self.Flat };

    /// What a macro's value means as a list of such items.
    ghost list_in: { ListMeanings → ListMeaning Self.Flat };

    fn flat(&self) -> Self::Flat
        ensures { result ≡ flat self.now };

    fn list_in(meanings: &ListMeanings) -> &ListMeaning<Self::Flat>
        ensures value { result.now ≡ list_in meanings.now }
        ensures read { IsListOf (plain item flat list_in) meanings.now result.now };

    /// Reads one, and says what it means.
    fn read_flat(alloc: Global, reader: &mut Reader<'_, '_>) -> Result<Self::Flat, ConfError>
        ensures { Reads (flat_item item flat reader.old) result reader.new };
}

fn literal<T: Plain>(written: &Written<'_, T>) -> Result<T::Flat, ConfError>
    ensures { result ≡ spec.literal T.flat written.now }
{
    match written {
        Written::Item(item) => Ok(item.flat()),
        Written::Macro(found) => Err(misplaced(found)),
    }
}

impl<'a, T: Plain> Element for Written<'a, T> {
    ghost use Rattle.pfr_elements.specs.Terms as spec;

    type Flat = T::Flat;

    ghost kind = { spec.plain T.item T.flat T.list_in };

    fn macro_use(&self) -> Option<MacroUse<'_>> {
        use_in(self)
    }

    fn is_negated(&self) -> bool {
        false
    }

    fn resolve(
        &self,
        _alloc: Global,
        _scope: &Scope<'_>,
    ) -> Result<Result<T::Flat, ConfError>, ConfError> {
        Ok(literal(self))
    }

    fn turn(flat: T::Flat) -> T::Flat
        ensures { result ≡ spec.same flat }
    {
        flat
    }

    fn tables(_flat: T::Flat) -> usize
        ensures { result ≡ spec.no_table _flat }
    {
        0
    }

    fn list_in(meanings: &ListMeanings) -> &ListMeaning<T::Flat>
        ensures value { result.now ≡ T.list_in meanings.now }
        ensures read { IsListOf (spec.plain T.item T.flat T.list_in) meanings.now result.now }
    {
        T::list_in(meanings)
    }

    #[tactic(auto, unfolding(pfr_terms::specs::Lists::written))]
    fn read_one(
        alloc: Global,
        scope: &Scope<'_>,
        reader: &mut Reader<'_, '_>,
    ) -> Result<Option<T::Flat>, ConfError>
        ensures { Reads (value_item (spec.plain T.item T.flat T.list_in) scope.now reader.old) result reader.new }
    {
        match reader.macro_ahead() {
            Some(found) => {
                reader.take();
                Ok(noted(reader, Err(misplaced(&found))))
            }
            None => Ok(Some(T::read_flat(alloc, reader)?)),
        }
    }
}

impl Plain for Protocol {
    ghost use Rattle.pfr_terms.specs.Terms as terms;
    ghost use Rattle.pfr_elements.specs.Terms as spec;

    type Flat = Protocol;

    ghost item = { terms.protocol };

    ghost flat = { spec.same };

    ghost list_in = { spec.protocol_lists };

    fn flat(&self) -> Protocol {
        *self
    }

    #[tactic(auto, unfolding(crate::specs::Meanings::list_meanings))]
    fn list_in(meanings: &ListMeanings) -> &ListMeaning<Protocol>
        ensures value { result.now ≡ spec.protocol_lists meanings.now }
        ensures read { IsListOf spec.protocol_kind meanings.now result.now }
    {
        &meanings.protocols
    }

    fn read_flat(alloc: Global, reader: &mut Reader<'_, '_>) -> Result<Protocol, ConfError>
        ensures { Reads (flat_item terms.protocol spec.same reader.old) result reader.new }
    {
        Protocol::read(alloc, reader)
    }
}

impl Plain for IcmpMatch {
    ghost use Rattle.pfr_terms.specs.Terms as terms;
    ghost use Rattle.pfr_elements.specs.Terms as spec;

    type Flat = IcmpMatch;

    ghost item = { terms.icmp_match };

    ghost flat = { spec.same };

    ghost list_in = { spec.icmp_lists };

    fn flat(&self) -> IcmpMatch {
        *self
    }

    #[tactic(auto, unfolding(crate::specs::Meanings::list_meanings))]
    fn list_in(meanings: &ListMeanings) -> &ListMeaning<IcmpMatch>
        ensures value { result.now ≡ spec.icmp_lists meanings.now }
        ensures read { IsListOf spec.icmp_kind meanings.now result.now }
    {
        &meanings.icmp_types
    }

    fn read_flat(alloc: Global, reader: &mut Reader<'_, '_>) -> Result<IcmpMatch, ConfError>
        ensures { Reads (flat_item terms.icmp_match spec.same reader.old) result reader.new }
    {
        IcmpMatch::read(alloc, reader)
    }
}

impl Plain for PortMatch {
    ghost use Rattle.pfr_terms.specs.Ports as ports;
    ghost use Rattle.pfr_elements.specs.Terms as spec;

    type Flat = PortMatch;

    ghost item = { ports.port_match };

    ghost flat = { spec.same };

    ghost list_in = { spec.port_lists };

    fn flat(&self) -> PortMatch {
        *self
    }

    #[tactic(auto, unfolding(crate::specs::Meanings::list_meanings))]
    fn list_in(meanings: &ListMeanings) -> &ListMeaning<PortMatch>
        ensures value { result.now ≡ spec.port_lists meanings.now }
        ensures read { IsListOf spec.port_kind meanings.now result.now }
    {
        &meanings.ports
    }

    fn read_flat(alloc: Global, reader: &mut Reader<'_, '_>) -> Result<PortMatch, ConfError>
        ensures { Reads (flat_item ports.port_match spec.same reader.old) result reader.new }
    {
        PortMatch::read(alloc, reader)
    }
}

impl<'a> Plain for InterfaceName<'a> {
    ghost use Rattle.pfr_terms.specs.Terms as terms;
    ghost use Rattle.pfr_elements.specs.Terms as spec;

    type Flat = IfName;

    ghost item = { terms.interface_name };

    ghost flat = { spec.name_of };

    ghost list_in = { spec.skipped_lists };

    fn flat(&self) -> IfName {
        IfName::new(self.name.text.as_slice())
    }

    #[tactic(auto, unfolding(crate::specs::Meanings::list_meanings))]
    fn list_in(meanings: &ListMeanings) -> &ListMeaning<IfName>
        ensures value { result.now ≡ spec.skipped_lists meanings.now }
        ensures read { IsListOf spec.skipped_kind meanings.now result.now }
    {
        &meanings.skipped
    }

    fn read_flat(alloc: Global, reader: &mut Reader<'_, '_>) -> Result<IfName, ConfError>
        ensures { Reads (flat_item terms.interface_name spec.name_of reader.old) result reader.new }
    {
        let found = InterfaceName::<'_>::read(alloc, reader)?;
        Ok(IfName::new(found.name.text.as_slice()))
    }
}

fn named(found: &InterfaceMatch<'_>) -> Result<InterfaceCriterion, ConfError>
    ensures { result ≡ spec.named found.now.is_negated found.now.interface }
{
    match &found.interface {
        Written::Item(written) => Ok(InterfaceCriterion {
            is_negated: found.is_negated,
            name: IfName::new(written.name.text.as_slice()),
        }),
        Written::Macro(used) => Err(misplaced(used)),
    }
}

impl<'a> Element for InterfaceMatch<'a> {
    ghost use Rattle.pfr_elements.specs.Terms as spec;

    type Flat = InterfaceCriterion;

    ghost kind = { spec.interface_kind };

    fn macro_use(&self) -> Option<MacroUse<'_>> {
        use_in(&self.interface)
    }

    fn is_negated(&self) -> bool {
        self.is_negated
    }

    fn resolve(
        &self,
        _alloc: Global,
        _scope: &Scope<'_>,
    ) -> Result<Result<InterfaceCriterion, ConfError>, ConfError> {
        Ok(named(self))
    }

    fn turn(flat: InterfaceCriterion) -> InterfaceCriterion
        ensures { result ≡ spec.interface_turned flat }
    {
        InterfaceCriterion {
            is_negated: true,
            ..flat
        }
    }

    fn tables(_flat: InterfaceCriterion) -> usize
        ensures { result ≡ spec.no_table _flat }
    {
        0
    }

    #[tactic(auto, unfolding(crate::specs::Meanings::list_meanings))]
    fn list_in(meanings: &ListMeanings) -> &ListMeaning<InterfaceCriterion>
        ensures value { result.now ≡ spec.interface_lists meanings.now }
        ensures read { IsListOf spec.interface_kind meanings.now result.now }
    {
        &meanings.interfaces
    }

    fn read_one(
        alloc: Global,
        scope: &Scope<'_>,
        reader: &mut Reader<'_, '_>,
    ) -> Result<Option<InterfaceCriterion>, ConfError>
        ensures { Reads (value_item spec.interface_kind scope.now reader.old) result reader.new }
    {
        let found = InterfaceMatch::read(alloc, reader)?;
        Ok(noted(reader, named(&found)))
    }
}

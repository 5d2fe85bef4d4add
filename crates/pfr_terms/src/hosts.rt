//! Where a packet comes from and goes to, as it is written in rules and anchors.
ghost use Rattle.pfr_terms.specs.Hosts as spec;
ghost use Rattle.pfr_terms.specs.Input.{Reads};

use crate::address::AddressMatch;
use crate::error::ConfError;
use crate::interface::InterfaceMatch;
use crate::lists::list;
use crate::name::Written;
use crate::reader::Reader;
use pfr_items::Items;
use pfr_net::{PortMatch, Protocol};
use std::alloc::Global;

/// One end of a packet: `LIST port LIST`. The addresses or the ports may be missing.
#[derive(Drop)]
pub struct Part<'a> {
    pub addresses: Option<Items<AddressMatch<'a>>>,
    pub ports: Option<Items<Written<'a, PortMatch>>>,
}

/// Both ends of a packet; `all` writes neither.
#[derive(Drop)]
pub struct Hosts<'a> {
    pub source: Option<Part<'a>>,
    pub destination: Option<Part<'a>>,
}

/// The criteria that rules, anchors and translation rules share.
#[derive(Drop)]
pub struct Criteria<'a> {
    pub interfaces: Option<Items<InterfaceMatch<'a>>>,
    pub protocols: Option<Items<Written<'a, Protocol>>>,
    pub hosts: Hosts<'a>,
}

/// `port LIST`, if it comes next.
#[tactic(auto, unfolding(crate::specs::Hosts::ports))]
pub fn ports<'a>(
    alloc: Global,
    reader: &mut Reader<'_, 'a>,
) -> Result<Option<Items<Written<'a, PortMatch>>>, ConfError>
    ensures { Reads (spec.ports reader.old) result reader.new }
{
    if reader.eat_word(b"port") {
        Ok(Some(list::<Written<'a, PortMatch>>(alloc, reader)?))
    } else {
        Ok(None)
    }
}

/// What is written behind `from` or `to`.
#[tactic(auto, unfolding(crate::specs::Hosts::one_end))]
pub fn one_end<'a>(alloc: Global, reader: &mut Reader<'_, 'a>) -> Result<Part<'a>, ConfError>
    ensures { Reads (spec.one_end reader.old) result reader.new }
{
    if let Some(found) = ports(alloc, reader)? {
        return Ok(Part {
            addresses: None,
            ports: Some(found),
        });
    }
    let addresses = list::<AddressMatch<'a>>(alloc, reader)?;
    let found = ports(alloc, reader)?;
    Ok(Part {
        addresses: Some(addresses),
        ports: found,
    })
}

/// What is written behind `word`, if that comes next.
#[tactic(auto, unfolding(crate::specs::Hosts::part_behind))]
pub fn part_behind<'a>(
    alloc: Global,
    reader: &mut Reader<'_, 'a>,
    word: &[u8],
) -> Result<Option<Part<'a>>, ConfError>
    ensures { Reads (spec.part_behind word.now reader.old) result reader.new }
{
    if reader.eat_word(word) {
        Ok(Some(one_end(alloc, reader)?))
    } else {
        Ok(None)
    }
}

/// `all`, or `from ..` and `to ..`, of which one or both may be missing.
#[tactic(auto, unfolding(crate::specs::Hosts::hosts))]
pub fn both_ends<'a>(alloc: Global, reader: &mut Reader<'_, 'a>) -> Result<Hosts<'a>, ConfError>
    ensures { Reads (spec.hosts reader.old) result reader.new }
{
    if reader.eat_word(b"all") {
        return Ok(Hosts {
            source: None,
            destination: None,
        });
    }
    let source = part_behind(alloc, reader, b"from")?;
    let destination = part_behind(alloc, reader, b"to")?;
    Ok(Hosts {
        source,
        destination,
    })
}

/// `on LIST`, if it comes next.
#[tactic(auto, unfolding(crate::specs::Hosts::interfaces))]
pub fn interfaces<'a>(
    alloc: Global,
    reader: &mut Reader<'_, 'a>,
) -> Result<Option<Items<InterfaceMatch<'a>>>, ConfError>
    ensures { Reads (spec.interfaces reader.old) result reader.new }
{
    if reader.eat_word(b"on") {
        Ok(Some(list::<InterfaceMatch<'a>>(alloc, reader)?))
    } else {
        Ok(None)
    }
}

/// `proto LIST`, if it comes next.
#[tactic(auto, unfolding(crate::specs::Hosts::protocols))]
pub fn protocols<'a>(
    alloc: Global,
    reader: &mut Reader<'_, 'a>,
) -> Result<Option<Items<Written<'a, Protocol>>>, ConfError>
    ensures { Reads (spec.protocols reader.old) result reader.new }
{
    if reader.eat_word(b"proto") {
        Ok(Some(list::<Written<'a, Protocol>>(alloc, reader)?))
    } else {
        Ok(None)
    }
}

/// `on ..`, `inet` and `proto ..`, each of which may be missing, and the hosts.
#[tactic(auto, unfolding(crate::specs::Hosts::criteria))]
pub fn packet_criteria<'a>(
    alloc: Global,
    reader: &mut Reader<'_, 'a>,
) -> Result<Criteria<'a>, ConfError>
    ensures { Reads (spec.criteria reader.old) result reader.new }
{
    let on = interfaces(alloc, reader)?;
    reader.eat_word(b"inet");
    let proto = protocols(alloc, reader)?;
    let hosts = both_ends(alloc, reader)?;
    Ok(Criteria {
        interfaces: on,
        protocols: proto,
        hosts,
    })
}

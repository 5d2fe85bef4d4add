//! Rules that differ and that no packet could have asked, and why.
use crate::asking::{interface_allows, is_allowed};
use crate::differences::{Difference, Kind, Which};
use crate::seen::could_be_asked;
use crate::traffic::{Traffic, Ways};
use pfr_net::{Direction, IfName};
use pfr_ruleset::{FilterRules, FlatTranslation, Interface, InterfaceCriterion, Ruleset};
use std::alloc::AllocError;

/// The bytes of an interface's name.
pub type Name = [u8; 16];

/// Why no packet could have asked a rule.
#[derive(Clone, Copy, PartialEq, Eq, PartialOrd, Ord)]
pub enum Why {
    /// No capture is of the interface of this name, or of any that the rule is for.
    NoCapture(Option<Name>),
    /// Packets of the interface aren't filtered.
    Unfiltered(Name),
    /// No packet goes this way there.
    NonePasses(Where),
    /// Each one has a state, or is let through by its translation.
    NoneAsks(Where),
    /// No connection begins this way there.
    NoConnection(Where),
    /// Packets that go out there are shown behind their translation.
    Translated(Where),
}

/// Which way packets go.
#[derive(Clone, Copy, PartialEq, Eq, PartialOrd, Ord)]
pub enum Way {
    In,
    Out,
    Both,
}

/// A way, and the interface, if it is one alone.
#[derive(Clone, Copy, PartialEq, Eq, PartialOrd, Ord)]
pub struct Where {
    way: Way,
    name: Option<Name>,
}

/// Interfaces on which a rule is for packets.
#[derive(Clone, Copy)]
struct Allowed {
    count: usize,
    /// The last of them.
    name: Option<Name>,
    /// Which ways packets may go there.
    in_allowed: bool,
    out_allowed: bool,
    /// Which ways they go.
    ways: Ways,
}

impl Allowed {
    fn none() -> Allowed {
        Allowed {
            count: 0,
            name: None,
            in_allowed: false,
            out_allowed: false,
            ways: Ways {
                come_in: false,
                go_out: false,
                connect_in: false,
                connect_out: false,
                connect_translated: false,
            },
        }
    }

    /// One more, on which packets may go these ways.
    fn add(&mut self, name: IfName, ways: Ways, allows_in: bool, allows_out: bool) {
        if !allows_in && !allows_out {
            return;
        }
        self.count = self.count.saturating_add(1);
        self.name = Some(name.bytes);
        self.in_allowed = self.in_allowed || allows_in;
        self.out_allowed = self.out_allowed || allows_out;
        let all = &mut self.ways;
        all.come_in = all.come_in || (allows_in && ways.come_in);
        all.go_out = all.go_out || (allows_out && ways.go_out);
        all.connect_in = all.connect_in || (allows_in && ways.connect_in);
        all.connect_out = all.connect_out || (allows_out && ways.connect_out);
        all.connect_translated = all.connect_translated || (allows_out && ways.connect_translated);
    }

    /// Where that is.
    fn place(&self) -> Where {
        Where {
            way: match (self.in_allowed, self.out_allowed) {
                (true, false) => Way::In,
                (false, true) => Way::Out,
                _ => Way::Both,
            },
            name: if self.count == 1 { self.name } else { None },
        }
    }
}

/// The name of an interface that a rule asks for, if the run doesn't have it.
fn missing(interfaces: &[Interface], asked: &Option<InterfaceCriterion>) -> Option<Name> {
    match asked {
        Some(criterion) if !criterion.is_negated => {
            for interface in interfaces {
                if interface_allows(asked, &interface.name) {
                    return None;
                }
            }
            Some(criterion.name.bytes)
        }
        _ => None,
    }
}

/// The interface that no capture is of, for a filter rule that is for packets of none of the run's.
fn missing_of_rule(rules: &Ruleset, place: usize) -> Option<Name> {
    let interfaces = rules.interfaces.as_slice();
    for anchor in rules.filter.anchors() {
        if anchor.first <= place && place <= anchor.last {
            if let Some(name) = missing(interfaces, &anchor.packet.interface) {
                return Some(name);
            }
        }
    }
    missing(
        interfaces,
        &rules.filter.rules().get(place)?.packet.interface,
    )
}

/// Where the filter rule at a place is for packets.
fn filter_allowed(traffic: &Traffic, filter: &FilterRules, place: usize) -> Allowed {
    let mut allowed = Allowed::none();
    for (seen, ways) in traffic.seen.iter().zip(&traffic.ways) {
        let allows_in = is_allowed(filter, place, &seen.name, Direction::In);
        let allows_out = is_allowed(filter, place, &seen.name, Direction::Out);
        allowed.add(seen.name, *ways, allows_in, allows_out);
    }
    allowed
}

/// The one interface on which a rule is for packets, if packets of it aren't filtered.
fn unfiltered(rules: &Ruleset, allowed: &Allowed) -> Option<Name> {
    let name = allowed.place().name?;
    for skipped in rules.options.skipped.as_slice() {
        if skipped.bytes == name {
            return Some(name);
        }
    }
    None
}

/// Why no packet could have asked the filter rule at a place, or None if one could.
fn why_not_filter(rules: &Ruleset, traffic: &Traffic, place: usize) -> Option<Why> {
    if could_be_asked(traffic.seen.as_slice(), &rules.filter, place) {
        return None;
    }
    let allowed = filter_allowed(traffic, &rules.filter, place);
    Some(if allowed.count == 0 {
        Why::NoCapture(missing_of_rule(rules, place))
    } else if let Some(name) = unfiltered(rules, &allowed) {
        Why::Unfiltered(name)
    } else if allowed.ways.come_in || allowed.ways.go_out {
        Why::NoneAsks(allowed.place())
    } else {
        Why::NonePasses(allowed.place())
    })
}

/// Why no packet could have asked a translation rule, or None if one could. It translates packets that come in, or that
/// go out, or both.
fn why_not_translation<T>(
    rules: &Ruleset,
    traffic: &Traffic,
    rule: &FlatTranslation<T>,
    is_in: bool,
    is_out: bool,
) -> Option<Why> {
    let mut allowed = Allowed::none();
    for (seen, ways) in traffic.seen.iter().zip(&traffic.ways) {
        if interface_allows(&rule.packet.interface, &seen.name) {
            allowed.add(seen.name, *ways, is_in, is_out);
        }
    }
    let decides = traffic.translations.get(rule.number).copied();
    if allowed.ways.connect_in || allowed.ways.connect_out || decides.unwrap_or(false) {
        return None;
    }
    Some(if allowed.count == 0 {
        Why::NoCapture(missing(rules.interfaces.as_slice(), &rule.packet.interface))
    } else if let Some(name) = unfiltered(rules, &allowed) {
        Why::Unfiltered(name)
    } else if allowed.ways.connect_translated {
        Why::Translated(allowed.place())
    } else {
        Why::NoConnection(allowed.place())
    })
}

/// Why no packet of a run could have asked a rule, or None if one could.
pub(crate) fn why_not(rules: &Ruleset, traffic: &Traffic, difference: &Difference) -> Option<Why> {
    let (place, translations) = (difference.place, &rules.translations);
    match difference.kind {
        Kind::Filter => why_not_filter(rules, traffic, place),
        Kind::Nat => {
            let rule = translations.nats.as_slice().get(place)?;
            why_not_translation(rules, traffic, rule, false, true)
        }
        Kind::Rdr => {
            let rule = translations.rdrs.as_slice().get(place)?;
            why_not_translation(rules, traffic, rule, true, false)
        }
        Kind::Binat => {
            let rule = translations.binats.as_slice().get(place)?;
            why_not_translation(rules, traffic, rule, true, true)
        }
    }
}

/// Whether a packet of a run names the rule.
pub(crate) fn is_met(traffic: &Traffic, difference: &Difference) -> bool {
    let marks = match difference.kind {
        Kind::Filter => traffic.filter.as_slice(),
        Kind::Nat | Kind::Rdr | Kind::Binat => traffic.translations.as_slice(),
    };
    marks.get(difference.number).copied().unwrap_or(false)
}

// ---- words

/// Appends a name without the zeros behind it.
pub(crate) fn append_name(text: &mut Vec<u8>, name: &Name) -> Result<(), AllocError> {
    for byte in name {
        if *byte != 0 {
            text.push(*byte)?;
        }
    }
    Ok(())
}

/// Appends a word, and the name of an interface, if there is one.
fn append_at(text: &mut Vec<u8>, word: &[u8], name: Option<Name>) -> Result<(), AllocError> {
    match name {
        Some(name) => {
            text.extend_from_slice(word)?;
            append_name(text, &name)
        }
        None => Ok(()),
    }
}

/// Appends ` comes in on NAME` or ` goes out of NAME`, and `otherwise` and ` on NAME` for both ways.
fn append_way(text: &mut Vec<u8>, place: Where, otherwise: &[u8]) -> Result<(), AllocError> {
    match place.way {
        Way::In => {
            text.extend_from_slice(b" comes in")?;
            append_at(text, b" on ", place.name)
        }
        Way::Out => {
            text.extend_from_slice(b" goes out")?;
            append_at(text, b" of ", place.name)
        }
        Way::Both => {
            text.extend_from_slice(otherwise)?;
            append_at(text, b" on ", place.name)
        }
    }
}

/// Appends that no packet is there.
fn append_none(text: &mut Vec<u8>, place: Where) -> Result<(), AllocError> {
    match place.way {
        Way::Both => {
            text.extend_from_slice(b"nothing")?;
            append_at(text, b" on ", place.name)?;
            text.extend_from_slice(b" is judged")
        }
        Way::In | Way::Out => {
            text.extend_from_slice(b"no packet")?;
            append_way(text, place, b"")
        }
    }
}

/// Appends that each packet has a state.
fn append_stateful(text: &mut Vec<u8>, place: Where) -> Result<(), AllocError> {
    text.extend_from_slice(b"each packet")?;
    match place.way {
        Way::In | Way::Out => text.extend_from_slice(b" that")?,
        Way::Both => {}
    }
    append_way(text, place, b"")?;
    text.extend_from_slice(b" has a state or isn't filtered")
}

impl Why {
    /// Appends why.
    pub fn append(&self, text: &mut Vec<u8>) -> Result<(), AllocError> {
        match self {
            Why::NoCapture(Some(name)) => append_at(text, b"no capture of ", Some(*name)),
            Why::NoCapture(None) => text.extend_from_slice(b"no capture fits it"),
            Why::Unfiltered(name) => {
                append_name(text, name)?;
                text.extend_from_slice(b" isn't filtered")
            }
            Why::NonePasses(place) => append_none(text, *place),
            Why::NoneAsks(place) => append_stateful(text, *place),
            Why::NoConnection(place) => {
                text.extend_from_slice(b"no connection")?;
                append_way(text, *place, b" begins")
            }
            Why::Translated(place) => {
                match place.name {
                    Some(name) => append_name(text, &name)?,
                    None => text.extend_from_slice(b"the capture")?,
                }
                text.extend_from_slice(b" shows what goes out behind its translation")
            }
        }
    }
}

//! Translation rules in words.
use crate::criteria::Wording;
use pfr_net::Ipv4Address;
use pfr_ruleset::{FlatTranslation, NatAddress, PortChange, PortRange, RdrAddress};
use pfr_texts::{append_address, append_number};
use std::alloc::AllocError;

/// What a translation rule translates to.
pub(crate) trait Target {
    /// The word for the kind of the rule.
    const KIND: &'static [u8];

    /// Appends the address, and what becomes of the port.
    fn append(&self, text: &mut Vec<u8>) -> Result<(), AllocError>;
}

/// Appends ` port LOW:HIGH`, or one port.
fn append_range(text: &mut Vec<u8>, ports: PortRange) -> Result<(), AllocError> {
    text.extend_from_slice(b" port ")?;
    append_number(text, u64::from(ports.low))?;
    if ports.low < ports.high {
        text.extend_from_slice(b":")?;
        append_number(text, u64::from(ports.high))?;
    }
    Ok(())
}

/// Appends what becomes of a destination port.
fn append_change(text: &mut Vec<u8>, change: PortChange) -> Result<(), AllocError> {
    match change {
        PortChange::Kept => Ok(()),
        PortChange::To(port) => {
            text.extend_from_slice(b" port ")?;
            append_number(text, u64::from(port))
        }
        PortChange::From(port) => {
            text.extend_from_slice(b" port ")?;
            append_number(text, u64::from(port))?;
            text.extend_from_slice(b":*")
        }
    }
}

impl Target for NatAddress {
    const KIND: &'static [u8] = b"nat";

    fn append(&self, text: &mut Vec<u8>) -> Result<(), AllocError> {
        append_address(text, self.address)?;
        if let Some(ports) = self.ports {
            append_range(text, ports)?;
        }
        if self.static_port {
            text.extend_from_slice(b" static-port")?;
        }
        Ok(())
    }
}

impl Target for RdrAddress {
    const KIND: &'static [u8] = b"rdr";

    fn append(&self, text: &mut Vec<u8>) -> Result<(), AllocError> {
        append_address(text, self.address)?;
        append_change(text, self.port)
    }
}

impl Target for Ipv4Address {
    const KIND: &'static [u8] = b"binat";

    fn append(&self, text: &mut Vec<u8>) -> Result<(), AllocError> {
        append_address(text, *self)
    }
}

/// Appends the words that begin a translation rule.
fn append_kind<T: Target>(text: &mut Vec<u8>, rule: &FlatTranslation<T>) -> Result<(), AllocError> {
    if rule.target.is_none() {
        text.extend_from_slice(b"no ")?;
    }
    text.extend_from_slice(T::KIND)?;
    if rule.passes {
        text.extend_from_slice(b" pass")?;
    }
    Ok(())
}

impl Wording<'_> {
    /// Appends a translation rule.
    pub(crate) fn append_translation<T: Target>(
        &self,
        text: &mut Vec<u8>,
        rule: &FlatTranslation<T>,
    ) -> Result<(), AllocError> {
        append_kind(text, rule)?;
        self.append_criteria(text, &rule.packet, rule.target.is_some())?;
        match &rule.target {
            Some(target) => {
                text.extend_from_slice(b" -> ")?;
                target.append(text)
            }
            None => Ok(()),
        }
    }
}

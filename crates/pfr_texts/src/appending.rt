//! Parts at the end of a text that grows.
ghost use Rattle.std.specs.Prelude.{◌≡◌, ◌++◌, OnOk};
ghost use Rattle.std.specs.Fmt.{decimal};
ghost use Rattle.pfr_texts.specs.Texts as spec;

use crate::texts::put_address;
use pfr_digits::Tail;
use pfr_net::Ipv4Address;
use std::alloc::AllocError;

/// Appends a number.
pub fn append_number(text: &mut Vec<u8>, number: u64) -> Result<(), AllocError>
    ensures { OnOk result (text.new.items ≡ text.old.items ++ decimal number) }
{
    let mut digits = Tail::new();
    digits.put_number(number);
    text.extend_from_slice(digits.as_slice())
}

/// Appends an address: `a.b.c.d`.
pub fn append_address(text: &mut Vec<u8>, address: Ipv4Address) -> Result<(), AllocError>
    ensures { OnOk result (text.new.items ≡ text.old.items ++ spec.address_text address) }
{
    let mut dotted = Tail::new();
    put_address(&mut dotted, address);
    text.extend_from_slice(dotted.as_slice())
}

//! Labels of filter rules.
use pfr_items::Items;

/// A label as it is written (pf.conf(5), `label`).
#[derive(Drop)]
pub struct Label {
    pub text: Items<u8>,
}

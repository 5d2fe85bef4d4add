//! Options.
ghost use Rattle.std.specs.Prelude.{◌≡◌};
ghost use Rattle.pfr_ruleset.specs.Options as spec;

use pfr_items::Items;
use pfr_net::{BlockPolicy, IfName, StatePolicy, Timeouts};
use std::alloc::Global;

/// What the options of a ruleset say.
#[derive(Drop)]
pub struct Options {
    pub timeouts: Timeouts,
    /// How many states there may be.
    pub state_limit: u32,
    pub block_policy: BlockPolicy,
    pub state_policy: StatePolicy,
    /// The number by which other firewalls know this one's states.
    pub host_id: u32,
    /// The interfaces whose packets aren't filtered, each as often as it is named.
    pub skipped: Items<IfName>,
}

impl Options {
    /// What holds if nothing is set.
    pub fn new(alloc: Global) -> Options
        ensures { result ≡ spec.default_options }
    {
        Options {
            timeouts: Timeouts::new(),
            state_limit: 100000,
            block_policy: BlockPolicy::Drop,
            state_policy: StatePolicy::Floating,
            host_id: 1,
            skipped: Items::new(alloc),
        }
    }
}

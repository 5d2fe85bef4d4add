//! The addresses of an interface.
ghost use Rattle.std.specs.Prelude.{◌≡◌, ◌∷◌, ◌++◌, [], OnOk};
ghost use Rattle.pfr_given.specs.Files as spec;
ghost use Rattle.pfr_given.specs.Written as written;

use crate::entry::{Given, Subject};
use crate::written::{last_address, put_address, put_network};
use pfr_digits::Tail;
use pfr_net::Net;
use std::alloc::{AllocError, Global};

impl Given {
    /// Adds an address for a word with a suffix.
    fn add_address(
        &mut self,
        alloc: Global,
        word: &[u8],
        suffix: &[u8],
        address: u64,
    ) -> Result<(), AllocError>
        ensures { OnOk result (self.new.entries ≡ self.old.entries ++ spec.form word.now suffix.now (written.address_text address) ∷ []) }
    {
        let mut text = Tail::new();
        put_address(&mut text, address);
        self.add(alloc, Subject::Address, word, suffix, text.as_slice())
    }

    /// Adds a network for a word with a suffix.
    fn add_network(
        &mut self,
        alloc: Global,
        word: &[u8],
        suffix: &[u8],
        network: &Net,
    ) -> Result<(), AllocError>
        ensures { OnOk result (self.new.entries ≡ self.old.entries ++ spec.form word.now suffix.now (written.network_text network.now) ∷ []) }
    {
        let mut text = Tail::new();
        put_network(&mut text, network);
        self.add(alloc, Subject::Address, word, suffix, text.as_slice())
    }

    /// Adds what stands for an interface, or for a group of interfaces, in the place of an address (pf.conf(5),
    /// "PARAMETERS"): `word` and `word:0` are the address, `word:network` is the network, and `word:broadcast` its last
    /// address. More than 32 bits count as 32.
    #[tactic(auto, unfolding(crate::specs::Files::forms))]
    pub fn add_forms(&mut self, alloc: Global, word: &[u8], network: &Net) -> Result<(), AllocError>
        ensures { OnOk result (self.new.entries ≡ self.old.entries ++ spec.forms word.now network.now) }
    {
        let address = u64::from(network.address.0);
        self.add_address(alloc, word, b"", address)?;
        self.add_address(alloc, word, b":0", address)?;
        self.add_network(alloc, word, b":network", network)?;
        self.add_address(alloc, word, b":broadcast", last_address(network))
    }
}

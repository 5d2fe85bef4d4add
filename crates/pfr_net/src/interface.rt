//! Interfaces: their names, their places among those of a run, and which of them a state is bound to.
ghost use Rattle.std.specs.Prelude.{◌≡◌};
ghost use Rattle.pfr_net.specs.Interfaces as spec;

/// The longest name of an interface, in bytes.
pub const LONGEST_NAME: usize = 15;

/// The name of an interface with zeros behind it, as systems keep it in `IFNAMSIZ` bytes.
#[derive(Clone, Copy, PartialEq, Eq)]
pub struct IfName {
    pub bytes: [u8; 16],
}

impl IfName {
    /// A name; of more than fifteen bytes the first fifteen.
    #[tactic(auto, unfolding(crate::specs::Interfaces::if_name))]
    pub fn new(name: &[u8]) -> IfName
        ensures { result ≡ spec.if_name name.now }
    {
        let len = name.len().min(LONGEST_NAME);
        let mut bytes = [0; 16];
        bytes[..len].copy_from_slice(&name[..len]);
        IfName { bytes }
    }
}

/// An interface by its place among those of a run, the first of which is 0.
#[derive(Clone, Copy, Debug, PartialEq, Eq, Hash)]
pub struct InterfacePlace(pub u8);

/// The interfaces on which packets belong to a state, and those for which a state is looked up (pf.conf(5), "state-policy").
#[derive(Clone, Copy, Debug, PartialEq, Eq, Hash)]
pub enum Binding {
    /// All of them (`floating`).
    All,
    /// One alone (`if-bound`).
    To(InterfacePlace),
}

impl Binding {
    /// Whether there is an interface that both have.
    #[inline]
    pub fn meets(self, other: Binding) -> bool
        ensures { result ≡ spec.meets self other }
    {
        match (self, other) {
            (Binding::To(place), Binding::To(other)) => place.0 == other.0,
            _ => true,
        }
    }
}

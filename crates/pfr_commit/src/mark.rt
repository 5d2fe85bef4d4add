//! What lines say of interfaces.
ghost use Rattle.std.specs.Prelude.{◌≡◌, ◌+◌, ◌≤◌, ◌++◌, length};
ghost use Rattle.pfr_commit.specs.Lines as spec;

use pfr_digits::Tail;
use pfr_net::Binding;
use pfr_ruleset::Interface;
use pfr_sync::letters;

/// Puts the name of an interface before the rest of a line, or `-` for all interfaces.
#[tactic(auto, unfolding(pfr_net::specs::Interfaces::if_name))]
fn put_binding(line: &mut Tail, interfaces: &[Interface], binding: Binding)
    requires room { length line.old + 16 ≤ 128 }
    ensures text { line.new ≡ spec.binding_text interfaces.now binding ++ line.old }
    ensures long { length line.new ≤ length line.old + 16 }
{
    match binding {
        Binding::All => line.put_word(b"-"),
        Binding::To(place) => {
            if let Some(interface) = interfaces.get(usize::from(place.0)) {
                line.put_word(letters(&interface.name));
            }
        }
    }
}

/// Puts ` i=NAME`, or ` i=-` for all interfaces, before the rest of a line, if the run has several interfaces.
pub(crate) fn put_mark(line: &mut Tail, interfaces: &[Interface], binding: Binding)
    requires room { length line.old + 19 ≤ 128 }
    ensures text { line.new ≡ spec.mark interfaces.now binding ++ line.old }
    ensures long { length line.new ≤ length line.old + 19 }
{
    if interfaces.len() > 1 {
        put_binding(line, interfaces, binding);
        line.put_word(b" i=");
    }
}

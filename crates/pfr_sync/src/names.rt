//! Names of interfaces as messages have them.
ghost use Rattle.std.specs.Prelude.{◌≡◌, ◌≤◌, length};
ghost use Rattle.pfr_sync.specs.Queues as spec;

use crate::origin::MOST_INTERFACES;
use pfr_net::IfName;

/// The letters of a name: its bytes before the first zero, at most sixteen.
pub fn letters(name: &IfName) -> &[u8]
    ensures letters { result.now ≡ spec.before_zero name.now.bytes }
    ensures long { length result.now ≤ 16 }
{
    let mut end = 0;
    while end < name.bytes.len() && name.bytes[end] != 0 {
        end += 1;
    }
    &name.bytes[..end]
}

/// A name with nothing but zeros behind its letters.
fn plain_name(name: &IfName) -> IfName
    ensures { result ≡ spec.plain_name name.now }
{
    IfName::new(letters(name))
}

/// The names of a run's first eight interfaces by their places, and names without letters if there are fewer.
pub fn plain_names(names: &[IfName]) -> [IfName; MOST_INTERFACES]
    ensures { result ≡ spec.plain_names names.now }
{
    let mut plain = [IfName::new(&[]); MOST_INTERFACES];
    for place in 0..names.len().min(MOST_INTERFACES) {
        plain[place] = plain_name(&names[place]);
    }
    plain
}

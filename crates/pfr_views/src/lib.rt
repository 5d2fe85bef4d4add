//! The commands of the program that show something of what was run: `rules`, `diff`, `show`, `report` and `states`.
//!
//! Each command works over any files, words and streams, and answers the status to end with.
#![tactic(auto)]

mod changes;
mod joined;
mod reporting;
mod rules;
mod rules_json;
mod show;
mod states;

pub use changes::tell_changes;
pub use reporting::report_on;
pub use rules::tell_rules;
pub use show::show_packets;
pub use states::list_states;

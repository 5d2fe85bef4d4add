//! The rules of a ruleset, one by one, in the words of pf.conf(5).
//!
//! A helper of `pfr_diff`, `pfr_show`, `pfr_report` and `pfr_views`. [`in_words`] writes each rule that the lists of a
//! text make, and each anchor round them, on a line of its own. The result is the text of a ruleset. It is read again
//! and compared with the rules that were written, so it is proved that it means just those: whatever writes it, no rule
//! is told otherwise than it is. It is tested that each rule which a text can mean is written (`tests/telling`), and
//! how [`Rules`] are printed: with their numbers, the lines of their file and what a run counted.
#![tactic(auto)]

mod again;
mod counts;
mod criteria;
mod filter;
mod logged;
mod names;
mod same;
mod told;
mod translation;
mod worded;

pub use counts::{Counted, RuleCounts};
pub use filter::append_letters;
pub use names::table_names;
pub use told::{RuleTold, Rules, RulesTold, Said, Untold, counted_at, shadow_at};
pub use worded::{Worded, in_words};

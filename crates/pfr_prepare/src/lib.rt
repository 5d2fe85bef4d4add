//! The text of a ruleset as the strict reader is to read it, with what stands between a ruleset's file and that text.
//!
//! [`prepared_text`] reads the file, and if its text is to be rewritten, the files that [`Flag`]s name too. It puts
//! included files in the place of the statements that name them, rewrites the text, and says what it did.
//! [`say_faults`] says what is still refused.
//!
//! Contracts cover what is made of the texts that were read: what flags give for the words of a ruleset, the new text,
//! and where each of its lines comes from. What files hold, and what is said, has no contract.
#![tactic(auto)]

mod around;
mod files;
mod flag;
mod hints;
mod making;
mod prepared;
mod preparing;
mod saying;
mod source;

pub use files::Refusal;
pub use flag::{Flag, FlagKind, network_of};
pub use prepared::Prepared;
pub use preparing::{Request, held_text, prepared_from, prepared_text, say_faults};

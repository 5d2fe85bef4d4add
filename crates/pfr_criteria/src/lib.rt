//! Whether a packet meets all criteria of a flat rule or an anchor (pf.conf(5), "Parameters").
//!
//! A helper of `pfr_rules`, `pfr_packet`, `pfr_shadows` and `pfr_notices`.
//!
//! [`rule_holds`] and [`anchor_holds`] test one packet on one interface, by the entries of the ruleset's tables.
//! [`ask_rule`] and [`ask_translation`] also say at which criterion a rule fails, and [`pins_in`] which values a packet
//! has of the parts that rules pin. Nothing here allocates memory. A fragment has neither ports nor flags nor an ICMP
//! type, so it meets no criterion of them.
#![tactic(auto)]

pub mod asking;
pub mod hosts;
pub mod laws;
pub mod packets;
pub mod pins;
pub mod translations;
pub mod transports;

pub use asking::{Answer, ask_rule, ask_translation};
pub use hosts::host_holds;
pub use packets::{anchor_holds, is_named, match_holds, rule_holds};
pub use pins::pins_in;
pub use translations::{binat_holds, translation_holds};
pub use transports::opens_connection;

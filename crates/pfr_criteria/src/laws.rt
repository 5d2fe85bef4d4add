//! Laws of the definitions, each the contract of a function that does nothing.
ghost use Rattle.pfr_criteria.specs.Laws.{BinatHoldsBothWays, KeysAgree, OwnAddressesAreHeld, PinsAgree, RulesFailUpToSkips};
ghost use Rattle.pfr_criteria.specs.Laws.{TablesHoldByTheirEntries, TranslationsFailUpToSkips};

/// Which addresses a table holds depends on its entries alone, and neither on their order nor on how often one is
/// written.
pub fn tables_hold_by_their_entries()
    ensures { TablesHoldByTheirEntries }
{}

/// If the first table has the addresses of the run's interfaces, `self` of several interfaces holds these addresses and
/// no others.
pub fn own_addresses_are_those_of_the_interfaces()
    ensures { OwnAddressesAreHeld }
{}

/// If a filter rule fails at a criterion, so does each rule up to its skip: the next that may write something else
/// there.
pub fn rules_fail_up_to_skips()
    ensures { RulesFailUpToSkips }
{}

/// If a translation rule fails at a criterion, so does each rule up to its skip: the next that may write something else
/// there.
pub fn translations_fail_up_to_skips<T>()
    ensures { TranslationsFailUpToSkips T }
{}

/// A packet for which a rule holds has what the rule pins.
pub fn pins_agree()
    ensures { PinsAgree }
{}

/// A packet for which a rule holds has the rule's key, by the shape to which the rule belongs.
pub fn keys_agree()
    ensures { KeysAgree }
{}

/// A `binat` rule from one address to another one holds for a packet that goes out exactly if the packet comes from the
/// first address, and the rule holds for the answer that comes in to the second.
pub fn binat_holds_both_ways()
    ensures { BinatHoldsBothWays }
{}

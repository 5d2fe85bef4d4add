//! Laws of the definitions, each the contract of a function that does nothing.
ghost use Rattle.pfr_expand.specs.Laws.{AtMostAllRules, CountsAreLengths, EveryRuleIsOfOneStatement, EveryTranslationIsOfAStatement};
ghost use Rattle.pfr_expand.specs.Laws.{OwnAddressesAreFirst, TranslationsHaveOwnNumbers};

/// A ruleset that statements mean has at most 65536 rules of the filter and of translation together, so their counts
/// are the lengths of the lists, and no limit of the counts is met.
pub fn counts_are_lengths()
    ensures counted { CountsAreLengths }
    ensures most { AtMostAllRules }
{}

/// The filter rules of a ruleset are those of its statements, one after the other. A filter rule makes flat rules that
/// do and ask for what is written, an anchor copies of the rules of its body, and any other statement none. If the
/// lists of a rule or an anchor use no macro, there is one flat rule or copy for each combination of their elements.
/// Each flat rule has the line and the label of its filter rule.
pub fn every_flat_rule_is_of_one_statement()
    ensures { EveryRuleIsOfOneStatement }
{}

/// Each translation rule of a ruleset is of a statement that is a translation rule, and has its line. If a `rdr` rule
/// moves ports by one distance, all of them stay ports.
pub fn every_translation_is_of_a_statement()
    ensures { EveryTranslationIsOfAStatement }
{}

/// In a ruleset that a text means no two translation rules have the same number, be they of one kind or of two.
pub fn translations_have_numbers_of_their_own()
    ensures { TranslationsHaveOwnNumbers }
{}

/// A ruleset that a text means is for the interfaces of the run, and the first of its tables is that of their addresses: no
/// statement changes it, and each table that the text defines stands behind it.
pub fn the_first_table_is_of_the_interfaces()
    ensures { OwnAddressesAreFirst }
{}

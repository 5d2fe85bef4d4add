//! Laws of the definitions, each the contract of a function that does nothing.
ghost use Rattle.pfr_flat.specs.Laws.{AsManyAsTheProduct, ChoicesStandAtTheirDigits, DigitsAreTheChoices, ListByMacro, NegatedIsTheNegation};

use pfr_elements::Element;
use pfr_elements::definition::ListMeanings;

/// There are as many combinations as the lengths of the lists multiply to.
pub fn rules_are_as_many_as_combinations()
    ensures { AsManyAsTheProduct }
{}

/// A match stands at the place whose digits are the places of its parts in their lists, the outermost list's first. A
/// digit counts in steps of as many combinations as the lists within it make.
pub fn choices_stand_at_their_digits()
    ensures { ChoicesStandAtTheirDigits }
{}

/// The combination at a place has the choices that the digits of the place say, the innermost list's last. The
/// remainder by the length of that list is its choice's place there, and the quotient's digits are the other places.
pub fn digits_of_a_place_are_its_choices()
    ensures { DigitsAreTheChoices }
{}

/// `!<NAME>` asks for just the addresses that `<NAME>` doesn't. If the table is defined, both have a meaning; whatever
/// the tables hold, each address is held by one of the two and not by the other.
pub fn negated_table_is_the_negation()
    ensures { NegatedIsTheNegation }
{}

/// A list of one use of a macro with no `!` comes to the same as a list without macros whose elements say the same
/// things as the words of the macro's text. The tables that the text names have to be defined.
pub fn list_by_a_macro_is_the_list<T: Element>(meanings: &ListMeanings)
    ensures { ListByMacro T.kind meanings.now }
{
    // the call's clauses say what a macro's value means as such a list
    let _meant = T::list_in(meanings);
}

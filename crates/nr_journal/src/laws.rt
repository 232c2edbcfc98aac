//! Consequences of the rule: laws that hold at every moment.

ghost use Rattle.std.specs.Prelude.{◌≡◌};
ghost use Rattle.nr_journal.specs.Laws.{AnOnlyPassSeesAll, BeginsEmpty, EachWordHasItsPass, EmptyLookSeesAll, NothingIsHidden};
ghost use Rattle.nr_journal.specs.declared.rule.TheConstants.{GREATEST_OPCODE, MOST_PASSES, MOST_WORDS};

/// A new journal has no words. No word is placed before the first seat is used or, if all passes are made at once,
/// before the first pass is taken.
pub fn begins_empty()
    ensures { BeginsEmpty }
{}

/// If a pass looks and finds no word, the journal has exactly the words that the pass has read.
pub fn empty_look_sees_all()
    ensures { EmptyLookSeesAll }
{}

/// If a journal may have only one pass, that pass has read all words.
pub fn an_only_pass_sees_all()
    ensures { AnOnlyPassSeesAll }
{}

/// Each word comes from a pass: a pass with the word's tag exists and has read the word, at its
/// index. A pass reads a word with its own tag only when it places that word by an offer.
pub fn each_word_has_its_pass()
    ensures { EachWordHasItsPass }
{}

/// Contracts describe all run-time state of passes, seats and journals, so no call can depend on any other state.
pub fn nothing_is_hidden()
    ensures { NothingIsHidden }
{}

/// The greatest opcode of a word, and the maximum numbers of passes and of words of a journal.
pub fn the_numbers()
    ensures opcode { GREATEST_OPCODE ≡ 12 }
    ensures passes { MOST_PASSES ≡ 64 }
    ensures words { MOST_WORDS ≡ 1000000 }
{}

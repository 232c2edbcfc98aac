//! The steps on a journal's table, and what each step tells the thread that makes it.

use crate::view::View;
use atomic_table::{Join, Play, Split};

/// A pass reads the word after those that it has read.
pub(crate) struct Look;

impl Play<(), View> for Look {
    ghost use Rattle.nr_journal.specs.Step.{Looked};

    ghost then = { Looked };
}

/// A pass places a word of its own if the word there is 0.
pub(crate) struct Offer;

impl Play<(), View> for Offer {
    ghost use Rattle.nr_journal.specs.Step.{Offers};

    ghost then = { Offers };
}

/// A seat sets the bit of the next tag.
pub(crate) struct Draw;

impl Play<(), View> for Draw {
    ghost use Rattle.nr_journal.specs.Step.{Draws};

    ghost then = { Draws };
}

/// A pass rereads a word.
pub(crate) struct Reread;

impl Play<(), View> for Reread {
    ghost use Rattle.nr_journal.specs.Step.{Rereads};

    ghost then = { Rereads };
}

/// A pass compares the words that it has read with those that it learned from another pass.
pub(crate) struct Compare;

impl Play<(), View> for Compare {
    ghost use Rattle.nr_journal.specs.Step.{Compares};

    ghost then = { Compares };
}

/// A second seat is made, with the same view as the first.
pub(crate) struct Twin;

impl Split<View> for Twin {
    ghost left = { λ v. v };

    ghost right = { λ v. v };
}

/// The next of the remaining passes is handed out.
pub(crate) struct Give;

impl Split<View> for Give {
    ghost use Rattle.nr_journal.specs.Step.{given_by, left_of};

    ghost left = { left_of };

    ghost right = { given_by };
}

/// A pass writes a note of the words that it has read.
pub(crate) struct Tell;

impl Split<View> for Tell {
    ghost use Rattle.nr_journal.specs.Step.{note_of};

    ghost left = { λ v. v };

    ghost right = { note_of };
}

/// A pass learns from a note which words another pass has read.
pub(crate) struct Learn;

impl Join<View> for Learn {
    ghost use Rattle.nr_journal.specs.Step.{learned_from};
    ghost use Rattle.nr_journal.specs.declared.view.View.TheVariants.{Spent};

    ghost both = { learned_from };

    ghost spent = { Spent };
}

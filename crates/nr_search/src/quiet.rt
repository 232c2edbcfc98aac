//! Positions at which no mark can hit, according to the kinds of the steps before and after them.

ghost use Rattle.std.specs.Prelude.{◌≡◌, true};
ghost use Rattle.nr_rev.specs.Kind.{kind_number};
ghost use Rattle.nr_rev.specs.declared.kind.Kind.{Kind};
ghost use Rattle.nr_search.specs.Quiet.{AreChanging, IsOutlook, IsQuiet, any_break, any_changed, any_stopped, is_changed_by, is_stopped_by};

use nr_marks::{Mark, NextStep, NumberedMark};
use nr_rev::Kind;

/// The number of entries in a table of kinds: one for each kind's number, and one for 0, which is
/// no kind's number.
pub(crate) const NUMBERS: usize = 32;

/// A table with an entry for each kind of step: whether a mark watches a cell that such a step can
/// change. The kind's number is the index.
pub(crate) type Changing = [bool; NUMBERS];

/// Facts about the marks, computed once at the beginning of a stretch.
#[derive(Drop)]
pub(crate) struct Outlook {
    pub(crate) changing: Changing,
    /// Whether a mark is a break.
    pub(crate) any_break: bool,
}

// Returns whether a mark watches a cell that a step of this kind can change.
fn is_changed_by(mark: Mark, kind: Kind) -> bool
    ensures { result ≡ is_changed_by kind mark }
{
    match mark {
        Mark::Break(_) | Mark::TemporaryBreak(_) => false,
        Mark::Watch(cell) => kind.can_change(cell),
    }
}

// Returns whether a mark is a break that names the next step.
fn is_stopped_by(mark: Mark, next: Option<NextStep>) -> bool
    ensures { result ≡ is_stopped_by next mark }
{
    match mark {
        Mark::Break(wanted) | Mark::TemporaryBreak(wanted) => wanted.hits(next),
        Mark::Watch(_) => false,
    }
}

// Returns whether one of the marks watches a cell that a step of this kind can change.
fn any_changed(marks: &[NumberedMark], kind: Kind) -> bool
    ensures { result ≡ any_changed kind marks.now }
{
    marks.iter().any(|mark| is_changed_by(mark.item, kind))
}

// Returns whether one of the marks is a break that names the next step.
fn any_stopped(marks: &[NumberedMark], next: Option<NextStep>) -> bool
    ensures { result ≡ any_stopped next marks.now }
{
    marks.iter().any(|mark| is_stopped_by(mark.item, next))
}

// Takes the number of a kind. Returns whether one of the marks watches a cell that a step of that kind can change.
fn is_changing(marks: &[NumberedMark], number: u8) -> bool
    ensures { (kind : Kind) → number ≡ kind_number kind → result ≡ any_changed kind marks.now }
{
    match Kind::numbered(number) {
        Some(kind) => any_changed(marks, kind),
        None => false,
    }
}

// Returns the table for these marks.
fn changing_kinds(marks: &[NumberedMark]) -> Changing
    ensures { AreChanging marks.now result }
{
    let mut changing = [false; NUMBERS];
    for number in 0..NUMBERS {
        changing[number] = is_changing(marks, number as u8);
    }
    changing
}

// Returns whether one of the marks is a break.
fn any_break(marks: &[NumberedMark]) -> bool
    ensures { result ≡ any_break marks.now }
{
    marks.iter().any(|mark| !mark.item.is_watch())
}

/// Computes facts about the marks, for use in the search of a stretch.
pub(crate) fn outlook_of(marks: &[NumberedMark]) -> Outlook
    ensures { IsOutlook marks.now result }
{
    Outlook {
        changing: changing_kinds(marks),
        any_break: any_break(marks),
    }
}

/// Returns true only if no mark can hit at the position between these two steps.
#[inline(always)]
pub(crate) fn is_quiet(
    marks: &[NumberedMark],
    outlook: &Outlook,
    made: Option<NextStep>,
    next: Option<NextStep>,
) -> bool
    requires { IsOutlook marks.now outlook.now }
    ensures { result ≡ true → IsQuiet marks.now made next }
{
    let Some(step) = made else {
        return false;
    };
    if outlook.changing[step.kind.number() as usize] {
        return false;
    }
    if outlook.any_break {
        return !any_stopped(marks, next);
    }
    true
}

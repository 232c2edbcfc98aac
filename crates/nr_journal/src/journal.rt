//! The journal: words that are written once each, by a compare-exchange, and read in one order.

ghost use Rattle.std.specs.Prelude.{◌≡◌, ◌≢◌, ◌⊎◌, ℕ, ◌+◌, ◌^◌, ◌<◌, ◌≤◌, false, length, IfSome, IfNone, IfOk, IfErr, slice_index};
ghost use Rattle.std.specs.Ordering.{nat_cmp};
ghost use Rattle.std.specs.List.{All};
ghost use Rattle.nr_journal.specs.Rule.{journal_room, StartsWith, IsOthers, tag_of};
ghost use Rattle.nr_journal.specs.Auxiliary.Rule.{AreDrawn, AreFew, entering, entering_alone, informed, looked, having_seen, HasOpcode, HasTagBelow};
ghost use Rattle.nr_journal.specs.Pass.{WasOffered, AreInLine, SeesOthers, CatchesUp};
ghost use Rattle.nr_journal.specs.declared.rule.TheConstants.{MOST_PASSES, MOST_WORDS};

use crate::pass::{Offered, Pass};
use crate::passes::Passes;
use crate::rule::{InOneOrder, MOST_PASSES, MOST_WORDS, Purpose};
use crate::seat::{NoTag, Seat};
use crate::step::{Compare, Draw, Give, Learn, Look, Offer, Reread, Tell, Twin};
use crate::view::View;
use atomic_table::Table;
use nr_rev::Memory;
use std::alloc::Global;
use std::cmp::Ordering;
use std::marker::Model;

/// A list of words that all passes read in the same order. Each word is written once. Up to a fixed number of passes,
/// each in a thread of its own, place and read words without a lock. In contracts, a journal is its identity: a seat or
/// a pass can only be used with the journal that made it. No call waits.
#[derive(Drop)]
pub struct Journal {
    alloc: Global,
    table: Table<(), View, Purpose, InOneOrder, Global>,
    words: usize,
}

impl Model for Journal {
    ghost use Rattle.std.specs.Prelude.{◌≡◌, ◌+◌, ◌≤◌};
    ghost use Rattle.atomic_table.specs.Seated.{TableId};
    ghost use Rattle.nr_journal.specs.declared.rule.TheConstants.{MOST_WORDS};

    ghost Value = { TableId };

    ghost view = { λ j. j.table.shared.table_id };

    ghost invariant = { λ j. (j.table.shared.key.words ≡ j.words)
        × (j.table.shared.table_id.words ≡ j.words + 1)
        × (j.table.shared.table_id.slots ≡ 0) × (j.words ≤ MOST_WORDS) };
}

impl Journal {
    /// Makes an empty journal with room for `words` words, for up to `MOST_PASSES` passes, and its first seat.
    ///
    /// Fails only for lack of memory; nothing remains allocated then.
    #[tactic(auto, using(crate::proofs::RuleLemmas::begins_for))]
    pub fn new(alloc: Global, words: usize) -> Result<(Journal, Seat), Memory>
        requires { (1 ≤ words) × (words ≤ MOST_WORDS) }
        ensures { IfOk result (λ r. (journal_room r.0 ≡ words) × (r.1.table ≡ r.0) × (r.1.tried ≡ 0)
            × (r.1.passes ≡ MOST_PASSES)) }
    {
        let zeros = Vec::from_elem(alloc, 0u64, words + 1)?;
        let shared = Purpose {
            words,
            passes: MOST_PASSES,
            drawn: false,
        };
        let (table, seat) = Table::of_words(alloc, zeros.as_slice(), &shared)?;
        let journal = Journal {
            alloc,
            table,
            words,
        };
        let first = Seat {
            seat,
            tried: 0,
            passes: MOST_PASSES,
        };
        Ok((journal, first))
    }

    /// Makes an empty journal with room for `words` words, and its `passes` passes. No other passes
    /// can be made. Their tags are the numbers below `passes`.
    ///
    /// Fails only for lack of memory; nothing remains allocated then.
    #[tactic(auto, using(crate::proofs::GiveLemmas::begins_drawn))]
    pub fn of_passes(alloc: Global, words: usize, passes: u32) -> Result<(Journal, Passes), Memory>
        requires words { (1 ≤ words) × (words ≤ MOST_WORDS) }
        requires passes { passes ≤ MOST_PASSES }
        ensures { IfOk result (λ r. (journal_room r.0 ≡ words) × (r.1.table ≡ r.0) × (r.1.next ≡ 0)
            × (r.1.passes ≡ passes)) }
    {
        let mut row = Vec::from_elem(alloc, 0u64, words + 1)?;
        row[0] = tag_bits(passes);
        let shared = Purpose {
            words,
            passes,
            drawn: true,
        };
        let (table, seat) = Table::of_words(alloc, row.as_slice(), &shared)?;
        let journal = Journal {
            alloc,
            table,
            words,
        };
        let left = Passes {
            seat,
            next: 0,
            passes,
        };
        Ok((journal, left))
    }

    /// Makes an empty journal with room for `words` words, and its only pass, which has tag 0. So the pass has placed
    /// every word that it reads.
    ///
    /// Fails only for lack of memory; nothing remains allocated then.
    pub fn alone(alloc: Global, words: usize) -> Result<(Journal, Pass), Memory>
        requires { (1 ≤ words) × (words ≤ MOST_WORDS) }
        ensures { IfOk result (λ r. (journal_room r.0 ≡ words) × (r.1.table ≡ r.0)
            × (r.1.pass_state ≡ entering_alone)) }
    {
        let (journal, mut passes) = Journal::of_passes(alloc, words, 1)?;
        let pass = journal.take(&mut passes);
        Ok((journal, pass))
    }

    /// Takes the next of the remaining passes, which has read nothing yet.
    pub fn take(&self, passes: &mut Passes) -> Pass
        requires table { passes.old.table ≡ self.now }
        requires next { passes.old.next < passes.old.passes }
        ensures pass { (result.table ≡ self.now) × (result.pass_state ≡ entering passes.old.passes passes.old.next) }
        ensures left { passes.new ≡ record passes.old { next = passes.old.next + 1 } }
    {
        let pass = Pass {
            seat: self.table.shared.split_seat::<Give>(&mut passes.seat),
            place: 0,
            tag: passes.next as u8,
        };
        passes.next += 1;
        pass
    }

    /// Makes a second seat of this journal, which has tried the same tags as the first.
    pub fn split(&self, seat: &mut Seat) -> Seat
        requires { seat.old.table ≡ self.now }
        ensures same { seat.new ≡ seat.old }
        ensures new { result ≡ seat.old }
    {
        Seat {
            seat: self.table.shared.split_seat::<Twin>(&mut seat.seat),
            tried: seat.tried,
            passes: seat.passes,
        }
    }

    /// Takes the first free tag, and makes a pass with that tag. The pass has read nothing yet.
    ///
    /// Fails with `NoTag` only if every tag of the journal was taken. It then returns the seat, which has tried all
    /// tags.
    pub fn enter(&self, seat: Seat) -> Result<Pass, (Seat, NoTag)>
        requires { seat.table ≡ self.now }
        ensures ok { IfOk result (λ p. (p.table ≡ seat.table) × (p.pass_state ≡ entering seat.passes p.pass_state.tag)
            × (seat.tried ≤ p.pass_state.tag) × (p.pass_state.tag < seat.passes)) }
        ensures err { IfErr result (λ e. (e.0.table ≡ seat.table) × (e.0.tried ≡ seat.passes)
            × (e.0.passes ≡ seat.passes)) }
    {
        let Seat {
            mut seat,
            mut tried,
            passes,
        } = seat;
        while tried < passes {
            let found = self
                .table
                .shared
                .fetch_or::<Draw>(&mut seat, 0, 1u64 << tried);
            if (found >> tried) % 2 == 0 {
                return Ok(Pass {
                    seat,
                    place: 0,
                    tag: tried as u8,
                });
            }
            tried += 1;
        }
        let back = Seat {
            seat,
            tried,
            passes,
        };
        Err((back, NoTag))
    }

    /// Reads the word after those that the pass has read. Another pass has placed that word. Returns `None` if that
    /// place has no word yet (an empty look), or if the pass has read as many words as the journal has room for.
    pub fn next(&self, pass: &mut Pass) -> Option<u64>
        requires { pass.old.table ≡ self.now }
        ensures table { pass.new.table ≡ pass.old.table }
        ensures room { IfSome result (λ v. length pass.old.pass_state.seen < journal_room self.now) }
        ensures some { IfSome result (λ v. (pass.new.pass_state ≡ having_seen pass.old.pass_state v)
            × HasOpcode v × IsOthers pass.old.pass_state.tag v × (pass.old.pass_state.passes ≢ 1)) }
        // only a body that reads the journal can prove that the pass has read all words that it learned from another
        // pass
        ensures none { IfNone result (
            ((pass.new.pass_state ≡ looked pass.old.pass_state)
            × StartsWith pass.old.pass_state.seen pass.old.pass_state.learned)
            ⊎ ((pass.new.pass_state ≡ pass.old.pass_state)
            × (length pass.old.pass_state.seen ≡ journal_room self.now))) }
    {
        if pass.place >= self.words {
            return None;
        }
        let found = self
            .table
            .shared
            .load::<Look>(&mut pass.seat, pass.place + 1);
        if found == 0 {
            return None;
        }
        pass.place += 1;
        Some(found)
    }

    /// Places the word after all words that the pass has read, or returns the word that another
    /// pass has placed there. The pass has then read the word at that place. The word must have an
    /// opcode from 1 to `GREATEST_OPCODE` and the pass's tag.
    pub fn offer(&self, pass: &mut Pass, word: u64) -> Offered
        requires table { pass.old.table ≡ self.now }
        requires word { HasOpcode word × (tag_of word ≡ pass.old.pass_state.tag) }
        ensures table { pass.new.table ≡ pass.old.table }
        ensures offered { WasOffered word (journal_room self.now) pass.old.pass_state pass.new.pass_state result }
    {
        if pass.place >= self.words {
            return Offered::Full;
        }
        let found = self
            .table
            .shared
            .compare_exchange::<Offer>(&mut pass.seat, pass.place + 1, 0, word);
        pass.place += 1;
        if found == 0 {
            Offered::Placed
        } else {
            Offered::Lost(found)
        }
    }

    /// Compares how many words the two passes have read. The shorter list of words is a prefix of the longer one. If
    /// one of the passes finds no word afterwards, it has read everything that the other pass had read before this
    /// call.
    pub fn meet(&self, one: &mut Pass, other: &mut Pass) -> Ordering
        requires { (one.old.table ≡ self.now) × (other.old.table ≡ self.now) }
        ensures tables { (one.new.table ≡ one.old.table) × (other.new.table ≡ other.old.table) }
        ensures learned { (one.new.pass_state ≡ informed one.old.pass_state other.old.pass_state.seen)
            × (other.new.pass_state ≡ informed other.old.pass_state one.old.pass_state.seen) }
        ensures order { result ≡ nat_cmp (length one.old.pass_state.seen) (length other.old.pass_state.seen) }
        ensures line { AreInLine one.old.pass_state.seen other.old.pass_state.seen }
        ensures room { (length one.old.pass_state.seen ≤ journal_room self.now)
            × (length other.old.pass_state.seen ≤ journal_room self.now) }
    {
        self.learn(one, other);
        self.learn(other, one);
        self.compare(one);
        one.place.cmp(&other.place)
    }

    /// Compares the passes as `meet` does. The first pass then reads until it finds no word, and so has read everything
    /// that the other pass had read.
    pub fn see_all_of(&self, one: &mut Pass, other: &mut Pass)
        requires { (one.old.table ≡ self.now) × (other.old.table ≡ self.now) }
        ensures tables { (one.new.table ≡ one.old.table) × (other.new.table ≡ other.old.table) }
        ensures all { StartsWith one.new.pass_state.seen other.old.pass_state.seen }
        ensures sees_others { SeesOthers (informed one.old.pass_state other.old.pass_state.seen) one.new.pass_state }
        ensures caught { CatchesUp (journal_room self.now)
            (informed one.old.pass_state other.old.pass_state.seen) one.new.pass_state }
        ensures other { other.new.pass_state ≡ informed other.old.pass_state one.old.pass_state.seen }
    {
        self.meet(one, other);
        self.catch_up(one);
        self.compare(one);
    }

    /// Reads until no further word is found, or all words are read; then reads all words again and
    /// returns them in order. Each word has a tag below the maximum number of passes.
    ///
    /// Fails only for lack of memory, after reading, so the pass may have read more words.
    pub fn finish(&self, pass: &mut Pass) -> Result<Vec<u64>, Memory>
        requires { pass.old.table ≡ self.now }
        ensures table { pass.new.table ≡ pass.old.table }
        ensures sees_others { SeesOthers pass.old.pass_state pass.new.pass_state }
        ensures caught { CatchesUp (journal_room self.now) pass.old.pass_state pass.new.pass_state }
        ensures words { IfOk result (λ words. words.items ≡ pass.new.pass_state.seen) }
        ensures tags { All (HasTagBelow pass.new.pass_state.passes) pass.new.pass_state.seen }
    {
        self.catch_up(pass);
        self.compare(pass);
        let mut words = Vec::with_capacity(self.alloc, pass.seen())?;
        for at in 0..pass.seen() {
            words.push(self.reread(pass, at))?;
        }
        Ok(words)
    }

    // Reads until no further word is found.
    fn catch_up(&self, pass: &mut Pass)
        requires { pass.old.table ≡ self.now }
        ensures table { pass.new.table ≡ pass.old.table }
        ensures sees_others { SeesOthers pass.old.pass_state pass.new.pass_state }
        ensures caught { CatchesUp (journal_room self.now) pass.old.pass_state pass.new.pass_state }
    {
        while let Some(_) = self.next(pass) {}
    }

    // Reads a word again.
    fn reread(&self, pass: &mut Pass, at: usize) -> u64
        requires table { pass.old.table ≡ self.now }
        requires seen { at < length pass.old.pass_state.seen }
        ensures same { pass.new ≡ pass.old }
        ensures word { result ≡ slice_index pass.old.pass_state.seen at }
    {
        self.table.shared.load::<Reread>(&mut pass.seat, at + 1)
    }

    // Lets the pass learn what another pass has read.
    fn learn(&self, pass: &mut Pass, from: &mut Pass)
        requires { (pass.old.table ≡ self.now) × (from.old.table ≡ self.now) }
        ensures from { from.new ≡ from.old }
        ensures learned { (pass.new.table ≡ pass.old.table)
            × (pass.new.pass_state ≡ informed pass.old.pass_state from.old.pass_state.seen) }
        ensures room { length from.old.pass_state.seen ≤ journal_room self.now }
    {
        let shared = &self.table.shared;
        let note = shared.split_seat::<Tell>(&mut from.seat);
        shared.join_seat::<Learn>(&mut pass.seat, note);
    }

    // Compares the words that the pass has read with those that it learned from another pass.
    fn compare(&self, pass: &mut Pass)
        requires { pass.old.table ≡ self.now }
        ensures same { pass.new ≡ pass.old }
        ensures line { AreInLine pass.old.pass_state.seen pass.old.pass_state.learned }
        ensures tags { All (HasTagBelow pass.old.pass_state.passes) pass.old.pass_state.seen }
    {
        self.table.shared.load::<Compare>(&mut pass.seat, 0);
    }
}

// Returns a word with the bits of this many tags set, from tag 0 on.
fn tag_bits(passes: u32) -> u64
    requires { passes ≤ MOST_PASSES }
    ensures drawn { AreDrawn result passes }
    ensures few { AreFew passes result }
{
    let mut tags = 0u64;
    for tag in 0..passes {
        tags |= 1u64 << tag;
    }
    tags
}

//! The values of all cells but the clock, the waiters and the firings.

ghost use Rattle.std.specs.Prelude.{◌≡◌, length, slice_get};
ghost use Rattle.nr_rev.specs.Cell.{cell, descriptor_value, socket_value};
ghost use Rattle.nr_rev.specs.Descriptor.{summary};
ghost use Rattle.nr_rev.specs.Lock.{bit, lock_number};
ghost use Rattle.nr_rev.specs.Sides.{of_side};
ghost use Rattle.nr_rev.specs.declared.cell.Cell.TheVariants as cell;
ghost use Rattle.nr_rev.specs.declared.cell_value.CellValue.TheVariants as value;
ghost use Rattle.nr_machine.specs.Fits.{IsWorld};
ghost use Rattle.nr_machine.specs.World.{meant};

use crate::world::World;
use nr_desc::Desc;
use nr_rev::{CellValue, Side};
use nr_timers::laws::entries_are_the_descriptors;

impl World {
    /// Returns the number of armed timers.
    pub(crate) fn timers_value(&self) -> CellValue
        requires { IsWorld self.now }
        ensures { result ≡ cell (meant self.now) cell.Timers }
    {
        // This call only states a law: the heap has as many entries as the descriptors have timers.
        entries_are_the_descriptors();
        CellValue::Number(self.core.timers.len() as u64)
    }

    /// Returns the due time of the first timer.
    pub(crate) fn least_value(&self) -> CellValue
        requires { IsWorld self.now }
        ensures { result ≡ cell (meant self.now) cell.Least }
    {
        // This call only states a law: the heap's first entry is the least of all descriptors'
        // timers.
        entries_are_the_descriptors();
        match self.core.timers.least() {
            None => CellValue::Absent,
            Some(entry) => CellValue::Time(entry.timer.due),
        }
    }

    /// Returns the status of a goroutine.
    pub(crate) fn goroutine_value(&self, goroutine: u32) -> CellValue
        ensures { result ≡ cell (meant self.now) (cell.Goroutine goroutine) }
    {
        match self.core.goroutines.status(goroutine) {
            None => CellValue::Absent,
            Some(status) => CellValue::Status(status),
        }
    }

    /// Returns the number of a socket's lock word.
    #[tactic(auto, using(crate::proofs::CellLemmas::socket_absent, crate::proofs::CellLemmas::socket_value_is))]
    pub(crate) fn lock_value(&self, socket: u32) -> CellValue
        ensures { result
            ≡ socket_value socket (meant self.now) (λ x. value.Number (lock_number x.lock)) }
    {
        match self.core.locks.get(socket as usize) {
            None => CellValue::Absent,
            Some(word) => CellValue::Number(word.number()),
        }
    }

    /// Returns the count of a socket's semaphore.
    pub(crate) fn count_value(&self, socket: u32, side: Side) -> CellValue
        requires { IsWorld self.now }
        ensures { result
            ≡ socket_value socket (meant self.now)
            (λ x. value.Number (of_side side x.semaphores).count) }
    {
        if socket as usize >= self.core.locks.len() {
            return CellValue::Absent;
        }
        match self.core.goroutines.count(socket, side) {
            None => CellValue::Absent,
            Some(count) => CellValue::Number(u64::from(count)),
        }
    }

    /// Returns the number of bytes in a socket's buffer.
    pub(crate) fn length_value(&self, socket: u32, side: Side) -> CellValue
        requires { IsWorld self.now }
        ensures { result
            ≡ socket_value socket (meant self.now)
            (λ x. value.Number (length (of_side side x.buffers).bytes)) }
    {
        if socket as usize >= self.core.locks.len() {
            return CellValue::Absent;
        }
        CellValue::Number(u64::from(self.socks[socket as usize].len(side)))
    }

    /// Returns whether a socket's write side is shut.
    pub(crate) fn shut_value(&self, socket: u32) -> CellValue
        requires { IsWorld self.now }
        ensures { result ≡ socket_value socket (meant self.now) (λ x. value.Number (bit x.shut)) }
    {
        if socket as usize >= self.core.locks.len() {
            return CellValue::Absent;
        }
        CellValue::Number(u64::from(self.socks[socket as usize].shut()))
    }

    /// Returns the wait word of a descriptor's side.
    #[tactic(auto, using(crate::proofs::CellLemmas::descriptor_value_is))]
    pub(crate) fn word_value(&self, descriptor: u32, side: Side) -> CellValue
        ensures { result
            ≡ descriptor_value descriptor (meant self.now)
            (λ x. value.WaitWord (of_side side x.words)) }
    {
        match self.desc(descriptor) {
            None => CellValue::Absent,
            Some(desc) => CellValue::WaitWord(desc.word(side)),
        }
    }

    /// Returns the deadline of a descriptor's side.
    #[tactic(auto, using(crate::proofs::CellLemmas::descriptor_value_is))]
    pub(crate) fn deadline_value(&self, descriptor: u32, side: Side) -> CellValue
        ensures { result
            ≡ descriptor_value descriptor (meant self.now)
            (λ x. value.Time (of_side side x.deadlines)) }
    {
        match self.desc(descriptor) {
            None => CellValue::Absent,
            Some(desc) => CellValue::Time(desc.deadline(side)),
        }
    }

    /// Returns the sequence of a descriptor's side.
    #[tactic(auto, using(crate::proofs::CellLemmas::descriptor_value_is))]
    pub(crate) fn sequence_value(&self, descriptor: u32, side: Side) -> CellValue
        ensures { result
            ≡ descriptor_value descriptor (meant self.now)
            (λ x. value.Number (of_side side x.sequences)) }
    {
        match self.desc(descriptor) {
            None => CellValue::Absent,
            Some(desc) => CellValue::Number(desc.sequence(side)),
        }
    }

    /// Returns the tag of a descriptor.
    #[tactic(auto, using(crate::proofs::CellLemmas::descriptor_value_is))]
    pub(crate) fn fdseq_value(&self, descriptor: u32) -> CellValue
        ensures { result
            ≡ descriptor_value descriptor (meant self.now) (λ x. value.Number x.fdseq) }
    {
        match self.desc(descriptor) {
            None => CellValue::Absent,
            Some(desc) => CellValue::Number(desc.fdseq()),
        }
    }

    /// Returns the summary of a descriptor.
    #[tactic(auto, using(crate::proofs::CellLemmas::descriptor_value_is))]
    pub(crate) fn summary_value(&self, descriptor: u32) -> CellValue
        ensures { result
            ≡ descriptor_value descriptor (meant self.now) (λ x. value.Number (summary x)) }
    {
        match self.desc(descriptor) {
            None => CellValue::Absent,
            Some(desc) => CellValue::Number(desc.summary()),
        }
    }

    /// Returns the descriptor, if it exists.
    fn desc(&self, descriptor: u32) -> Option<Desc>
        ensures { result ≡ slice_get self.now.core.descriptors.items descriptor }
    {
        self.core.descriptors.get(descriptor as usize)
    }
}

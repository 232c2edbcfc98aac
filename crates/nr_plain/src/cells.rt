//! The values of cells that the world doesn't store as a single number.

ghost use Rattle.std.specs.Prelude.{◌≡◌, ◌^◌, ◌<◌, ◌≤◌, length, slice_get, option_map};
ghost use Rattle.nr_rev.specs.Cell.{descriptor_value, socket_value};
ghost use Rattle.nr_rev.specs.Lock.{bit, lock_number};
ghost use Rattle.nr_rev.specs.Sides.{of_side};
ghost use Rattle.nr_rev.specs.WellFormed.{LockFits, WellFormed};
ghost use Rattle.nr_rev.specs.World.{entries_of};
ghost use Rattle.nr_rev.specs.declared.cell_value.CellValue.TheVariants as value;
ghost use Rattle.nr_rev.specs.declared.descriptor.DescriptorRow.{DescriptorRow as Row};

use crate::world::PlainWorld;
use nr_rev::{CellValue, Descriptor, DescriptorRow, Lock, Side};

impl PlainWorld {
    /// Returns the number of a socket's lock.
    pub(crate) fn lock_value(&self, socket: u32) -> CellValue
        requires { WellFormed self.now }
        ensures { result
            ≡ socket_value socket self.now (λ row. value.Number (lock_number row.lock)) }
    {
        match self.sockets.get(socket) {
            None => CellValue::Absent,
            Some(row) => CellValue::Number(number(row.state().lock)),
        }
    }

    /// Returns the count of a socket's semaphore.
    pub(crate) fn count_value(&self, socket: u32, side: Side) -> CellValue
        ensures { result
            ≡ socket_value socket self.now
            (λ row. value.Number (of_side side row.semaphores).count) }
    {
        match self.sockets.get(socket) {
            None => CellValue::Absent,
            Some(row) => CellValue::Number(u64::from(row.semaphore(side).count)),
        }
    }

    /// Returns the number of bytes in a socket's buffer.
    pub(crate) fn length_value(&self, socket: u32, side: Side) -> CellValue
        ensures { result
            ≡ socket_value socket self.now
            (λ row. value.Number (length (of_side side row.buffers).bytes)) }
    {
        match self.sockets.get(socket) {
            None => CellValue::Absent,
            Some(row) => CellValue::Number(row.buffer(side).bytes.len() as u64),
        }
    }

    /// Returns whether a socket's write side is shut.
    pub(crate) fn shut_value(&self, socket: u32) -> CellValue
        ensures { result ≡ socket_value socket self.now (λ row. value.Number (bit row.shut)) }
    {
        match self.sockets.get(socket) {
            None => CellValue::Absent,
            Some(row) => CellValue::Number(bit(row.state().shut)),
        }
    }

    /// Returns the wait word of a descriptor's side.
    pub(crate) fn word_value(&self, descriptor: u32, side: Side) -> CellValue
        ensures { result
            ≡ descriptor_value descriptor self.now (λ x. value.WaitWord (of_side side x.words)) }
    {
        match self.descriptor(descriptor) {
            None => CellValue::Absent,
            Some(x) => CellValue::WaitWord(x.words.of(side)),
        }
    }

    /// Returns the deadline of a descriptor's side.
    pub(crate) fn deadline_value(&self, descriptor: u32, side: Side) -> CellValue
        ensures { result
            ≡ descriptor_value descriptor self.now (λ x. value.Time (of_side side x.deadlines)) }
    {
        match self.descriptor(descriptor) {
            None => CellValue::Absent,
            Some(x) => CellValue::Time(x.deadlines.of(side)),
        }
    }

    /// Returns the sequence of a descriptor's side.
    pub(crate) fn sequence_value(&self, descriptor: u32, side: Side) -> CellValue
        ensures { result
            ≡ descriptor_value descriptor self.now (λ x. value.Number (of_side side x.sequences)) }
    {
        match self.descriptor(descriptor) {
            None => CellValue::Absent,
            Some(x) => CellValue::Number(x.sequences.of(side)),
        }
    }

    /// Returns the descriptor, if it exists.
    pub(crate) fn descriptor(&self, descriptor: u32) -> Option<Descriptor>
        ensures { result
            ≡ option_map (λ (row : Row). row.descriptor)
            (slice_get self.now.descriptors descriptor) }
    {
        match self.descriptors.get(descriptor as usize) {
            None => None,
            Some(row) => Some(row.descriptor),
        }
    }
}

/// The amount that a waiter for the read lock adds to a lock's word.
const READ_WAITER: u64 = 8_388_608;

/// The amount that a waiter for the write lock adds to a lock's word.
const WRITE_WAITER: u64 = 8_796_093_022_208;

/// Returns a lock as Go's 64-bit word: bit 0 is the closed mark, bit 1 the read lock and bit 2 the
/// write lock. The references start at bit 3, the read waiters at bit 23 and the write waiters at
/// bit 43.
pub(crate) fn number(lock: Lock) -> u64
    requires { LockFits lock }
    ensures { result ≡ lock_number lock }
{
    bit(lock.closed)
        + 2 * bit(lock.locked.read)
        + 4 * bit(lock.locked.write)
        + 8 * u64::from(lock.references)
        + READ_WAITER * u64::from(lock.waiters.read)
        + WRITE_WAITER * u64::from(lock.waiters.write)
}

/// Returns 1 for true, 0 for false.
fn bit(flag: bool) -> u64
    ensures is { result ≡ bit flag }
    ensures small { result ≤ 1 }
{
    if flag { 1 } else { 0 }
}

/// Returns the number of armed timers in these rows.
pub(crate) fn armed_in(rows: &[DescriptorRow]) -> u64
    requires { length rows.now < 2 ^ 32 }
    ensures { result ≡ length (entries_of rows.now) }
{
    let mut armed = 0u64;
    let mut d = rows.len();
    while d > 0 {
        d -= 1;
        let timers = rows[d].timers;
        armed += u64::from(timers.read.is_some()) + u64::from(timers.write.is_some());
    }
    armed
}

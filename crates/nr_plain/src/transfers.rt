//! The steps that open sockets, and move bytes into and out of their buffers.

ghost use Rattle.std.specs.Prelude.{◌≡◌, ◌+◌, ◌/◌, ◌^◌, ◌<◌, ◌≤◌, true, IfOk, OnErr, length, min, take};
ghost use Rattle.nr_rev.specs.declared.step.Step.TheVariants as steps;
ghost use Rattle.nr_rev.specs.Socket.{output_room};
ghost use Rattle.nr_rev.specs.Step as step;
ghost use Rattle.nr_rev.specs.Auxiliary.Reversible.{IfKept};
ghost use Rattle.nr_rev.specs.WellFormed.{WellFormed};
ghost use Rattle.nr_plain.specs.Buffer.{buffer_view};
ghost use Rattle.nr_plain.specs.declared.delta.TheConstants.{MOST_WORDS};
ghost use Rattle.nr_plain.specs.Making.{IsFrontOf, LeadsBackWithin, Makes, after_taking};
ghost use Rattle.nr_plain.specs.Plan.{Plans};

use crate::buffer::PlainBuffer;
use crate::delta::PlainDelta;
use crate::edit::{Edit, Undo};
use crate::plan::Plan;
use crate::socket_edit::{SocketEdit, SocketUndo};
use crate::world::PlainWorld;
use nr_rev::{Answer, Bytes, Keeper, KeptBytes, Memory, Refusal, Side};
use std::alloc::Global;

impl PlainWorld {
    /// Returns the plan of `sockopen`.
    pub(crate) fn sockopen<'a>(
        &self,
        read_capacity: u32,
        write_capacity: u32,
    ) -> Result<Plan<'a>, Refusal>
        ensures { Plans (steps.SockOpen read_capacity write_capacity) self.now result }
    {
        let opened = self.sockets.len();
        if opened >= self.limits.sockets as usize {
            return Err(Refusal::TableFull);
        }
        self.sized(read_capacity)?;
        self.sized(write_capacity)?;
        Ok(Plan::new(Answer::Number(opened as u32)).then(Edit::AddSocket {
            read_capacity,
            write_capacity,
        }))
    }

    /// Returns the plan of `arrive`.
    #[tactic(auto, using(crate::proofs::BufferLemmas::capacity_within))]
    pub(crate) fn arrive<'a>(&self, socket: u32, bytes: &'a Bytes) -> Result<Plan<'a>, Refusal>
        requires { WellFormed self.now }
        ensures { Plans (steps.Arrive socket bytes.now) self.now result }
    {
        let row = self.socket_of(socket)?;
        if bytes.is_empty() {
            return Err(Refusal::SizeOutOfRange);
        }
        if row.state().peer_closed {
            return Err(Refusal::PeerClosed);
        }
        if bytes.len() > row.buffer(Side::Read).room() {
            return Err(Refusal::NoRoom);
        }
        let edit = SocketEdit::Append {
            side: Side::Read,
            bytes: bytes.as_slice(),
        };
        Ok(Plan::new(Answer::Done).then(Edit::Socket { socket, edit }))
    }

    /// Returns the plan of `peerclose`.
    pub(crate) fn peerclose<'a>(&self, socket: u32) -> Result<Plan<'a>, Refusal>
        ensures { Plans (steps.PeerClose socket) self.now result }
    {
        let row = self.socket_of(socket)?;
        if row.state().peer_closed {
            return Err(Refusal::PeerClosed);
        }
        let edit = SocketEdit::ClosePeer;
        Ok(Plan::new(Answer::Done).then(Edit::Socket { socket, edit }))
    }

    /// Returns the plan of `syswrite`.
    #[tactic(auto, using(crate::proofs::BufferLemmas::written_fits))]
    pub(crate) fn syswrite<'a>(
        &self,
        goroutine: u32,
        socket: u32,
        bytes: &'a Bytes,
    ) -> Result<Plan<'a>, Refusal>
        requires { WellFormed self.now }
        ensures { Plans (steps.SysWrite goroutine socket bytes.now) self.now result }
    {
        self.idle(goroutine)?;
        let row = self.socket_of(socket)?;
        if bytes.is_empty() {
            return Err(Refusal::SizeOutOfRange);
        }
        let shut = row.state().shut;
        let bytes = writable(shut, row.buffer(Side::Write), bytes.as_slice());
        let answer = write_answer(bytes.len() as u32, shut);
        let edit = SocketEdit::Append {
            side: Side::Write,
            bytes,
        };
        Ok(Plan::new(answer).then(Edit::Socket { socket, edit }))
    }

    /// Returns the plan of `closewrite`.
    pub(crate) fn closewrite<'a>(&self, goroutine: u32, socket: u32) -> Result<Plan<'a>, Refusal>
        ensures { Plans (steps.CloseWrite goroutine socket) self.now result }
    {
        self.idle(goroutine)?;
        let _ = self.socket_of(socket)?;
        let edit = SocketEdit::Shut(true);
        Ok(Plan::new(Answer::Done).then(Edit::Socket { socket, edit }))
    }
}

/// The steps that remove bytes from a buffer. Only these steps allocate memory, for a copy of the
/// bytes, and only if an undo is kept.
impl PlainWorld {
    /// Applies a `sysread`, and stores its undo.
    pub(crate) fn sysread<K: Keeper<PlainDelta>>(
        &mut self,
        goroutine: u32,
        socket: u32,
        count: u32,
        way: &mut K,
    ) -> Result<Answer, Refusal>
        ensures { Makes K.KEEPS K.holds way.new (steps.SysRead goroutine socket count)
            self.old result self.new }
    {
        self.idle(goroutine)?;
        let row = self.socket_of(socket)?;
        self.sized(count)?;
        let buffer = row.buffer(Side::Read);
        let count = (count as usize).min(buffer.bytes.len());
        let answer = read_answer(count as u32, row.state().peer_closed);
        let bytes = kept_front::<K>(self.alloc, buffer.bytes, count)?;
        self.take(socket, Side::Read, count, bytes, way);
        Ok(answer)
    }

    /// Applies a `drain`, and stores its undo.
    pub(crate) fn drain<K: Keeper<PlainDelta>>(
        &mut self,
        socket: u32,
        count: u32,
        way: &mut K,
    ) -> Result<Answer, Refusal>
        ensures { Makes K.KEEPS K.holds way.new (steps.Drain socket count) self.old result self.new }
    {
        let row = self.socket_of(socket)?;
        if count == 0 {
            return Err(Refusal::SizeOutOfRange);
        }
        let buffer = row.buffer(Side::Write);
        let count = count as usize;
        if buffer.bytes.len() < count {
            return Err(Refusal::TooFewBytes);
        }
        let bytes = kept_front::<K>(self.alloc, buffer.bytes, count)?;
        self.take(socket, Side::Write, count, bytes, way);
        Ok(Answer::Done)
    }

    /// Removes this many bytes from the front of a socket's buffer, and stores the undo with these bytes, if it is
    /// kept.
    fn take<K: Keeper<PlainDelta>>(
        &mut self,
        socket: u32,
        side: Side,
        count: usize,
        bytes: KeptBytes,
        way: &mut K,
    )
        requires { K.KEEPS ≡ true → IsFrontOf socket side count self.old bytes }
        ensures after { self.new ≡ after_taking socket side count self.old }
        ensures back { IfKept K.KEEPS K.holds way.new
            (LeadsBackWithin (MOST_WORDS + (count + 7) / 8) self.new self.old) }
    {
        self.sockets.lose(socket, side, count);
        let undo = SocketUndo::Restore { side, bytes };
        way.put(PlainDelta::of(Undo::Socket { socket, undo }));
    }
}

/// Returns a copy of this many bytes from the front if an undo is kept. Otherwise returns an empty
/// copy, which isn't used. Fails with `Memory` if memory runs out.
fn kept_front<K: Keeper<PlainDelta>>(
    alloc: Global,
    bytes: &[u8],
    count: usize,
) -> Result<KeptBytes, Memory>
    requires { count ≤ length bytes.now }
    ensures bytes { IfOk result (λ kept. K.KEEPS ≡ true → kept ≡ take count bytes.now) }
    ensures err { OnErr result ((K.KEEPS ≡ true) × (0 < count)) }
{
    if K::KEEPS {
        KeptBytes::copy_of(alloc, &bytes[..count])
    } else {
        Ok(KeptBytes::none(alloc))
    }
}

/// Returns the answer of a `sysread` that read this many bytes.
fn read_answer(count: u32, peer_closed: bool) -> Answer
    ensures { result ≡ step.read_answer count peer_closed }
{
    if count > 0 {
        Answer::Got(count)
    } else if peer_closed {
        Answer::Eof
    } else {
        Answer::Again
    }
}

/// Returns the bytes for which the buffer has room, or none if the write side is shut.
fn writable<'a>(shut: bool, buffer: PlainBuffer, bytes: &'a [u8]) -> &'a [u8]
    ensures bytes { result.now
        ≡ take (min (output_room shut (buffer_view buffer.entry)) (length bytes.now)) bytes.now }
    ensures len { length result.now
        ≡ min (output_room shut (buffer_view buffer.entry)) (length bytes.now) }
    ensures small { length result.now < 2 ^ 32 }
{
    let room = if shut { 0 } else { buffer.room() };
    let count = room.min(bytes.len());
    &bytes[..count]
}

/// Returns the answer of a `syswrite` that wrote this many bytes.
fn write_answer(count: u32, shut: bool) -> Answer
    ensures { result ≡ step.write_answer count shut }
{
    if shut {
        Answer::Pipe
    } else if count > 0 {
        Answer::Put(count)
    } else {
        Answer::Again
    }
}

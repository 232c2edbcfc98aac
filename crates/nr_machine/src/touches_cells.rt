//! Finds the parts of a world that a step will touch.

ghost use Rattle.std.specs.Prelude.{◌≡◌, ◌<◌, ◌≤◌, [], ◌∷◌, ◌++◌, length, slice_get};
ghost use Rattle.nr_changes.specs.Touched.{descriptor_at, front_for, held_at, held_by, next_descriptor, released_by, socket_at, touched_by_firing};
ghost use Rattle.nr_machine.specs.Fits.{IsWorld};
ghost use Rattle.nr_machine.specs.World.{meant};

use crate::world::World;
use arrayvec::ArrayVec;
use nr_changes::{MOST_TOUCHED, Touched, TouchesCells};
use nr_rev::{Side, Status, Step, WaitWord};

/// The numbers of goroutines.
type Numbers = ArrayVec<u32, MOST_TOUCHED>;

// Returns a list of one goroutine.
fn one(goroutine: u32) -> Numbers
    ensures { result.items ≡ goroutine ∷ [] }
{
    let mut numbers = ArrayVec::new();
    numbers.push(goroutine);
    numbers
}

// Appends the goroutine that a word holds, if any.
fn push_held(numbers: &mut Numbers, word: WaitWord)
    requires { length numbers.old.items < 3 }
    ensures { numbers.new.items ≡ numbers.old.items ++ held_by word }
{
    if let WaitWord::Held(goroutine) = word {
        numbers.push(goroutine);
    }
}

impl World {
    // Returns the socket whose lock or semaphore a goroutine's status names, if any.
    fn socket_at(&self, goroutine: u32) -> Option<u32>
        ensures { result ≡ socket_at goroutine (meant self.now) }
    {
        match self.core.goroutines.status(goroutine)? {
            Status::Acquiring { socket, .. }
            | Status::Queued { socket, .. }
            | Status::Relock { socket, .. }
            | Status::Owing { socket, .. } => Some(socket),
            _ => None,
        }
    }

    // Returns the descriptor for which a goroutine is inside a wait, if any.
    fn descriptor_at(&self, goroutine: u32) -> Option<u32>
        ensures { result ≡ descriptor_at goroutine (meant self.now) }
    {
        let (descriptor, _) = self.core.goroutines.status(goroutine)?.wait()?;
        Some(descriptor)
    }

    // Returns, for a goroutine that owes releases, the first goroutine in the queue of the next
    // semaphore, if any.
    fn front_for(&self, status: Status) -> Option<u32>
        requires { IsWorld self.now }
        ensures { result ≡ front_for status (meant self.now) }
    {
        let Status::Owing { socket, reads, .. } = status else {
            return None;
        };
        if socket as usize >= self.core.locks.len() {
            return None;
        }
        let side = if reads > 0 { Side::Read } else { Side::Write };
        self.core.goroutines.front_of(socket, side)
    }

    // Returns this goroutine and, if it owes a release, the first goroutine in the queue of the
    // next semaphore. The release lets that goroutine try again.
    fn with_released(&self, goroutine: u32) -> Numbers
        requires { IsWorld self.now }
        ensures { result.items ≡ goroutine ∷ released_by goroutine (meant self.now) }
    {
        let mut numbers = one(goroutine);
        if let Some(status) = self.core.goroutines.status(goroutine) {
            if let Some(front) = self.front_for(status) {
                numbers.push(front);
            }
        }
        numbers
    }

    // Appends the goroutines that the words of a descriptor hold.
    fn with_held(&self, mut numbers: Numbers, descriptor: u32) -> Numbers
        requires { length numbers.items ≤ 1 }
        ensures { result.items ≡ numbers.items ++ held_at descriptor (meant self.now) }
    {
        if let Some(desc) = self.core.descriptors.get(descriptor as usize) {
            push_held(&mut numbers, desc.word(Side::Read));
            push_held(&mut numbers, desc.word(Side::Write));
        }
        numbers
    }

    // Returns the number of the next descriptor to be opened.
    fn next_descriptor(&self) -> u32
        requires { IsWorld self.now }
        ensures { result ≡ next_descriptor (meant self.now) }
    {
        match self.core.free.get(0) {
            Some(descriptor) => descriptor,
            None => self.core.descriptors.len() as u32,
        }
    }

    // Returns what a firing touches.
    fn touched_by_firing(&self, place: u32) -> Touched
        ensures { result ≡ touched_by_firing
            (slice_get (meant self.now).firings place) (meant self.now) }
    {
        match self.core.timers.firing(place as usize) {
            None => Touched::new(ArrayVec::new(), None, None),
            Some(entry) => {
                let held = self.with_held(ArrayVec::new(), entry.descriptor);
                Touched::new(held, None, Some(entry.descriptor))
            }
        }
    }
}

impl TouchesCells for World {
    fn touched(&self, step: &Step) -> Touched {
        match step {
            Step::Spawn => Touched::new(one(self.core.goroutines.made()), None, None),
            Step::Exit { goroutine } => Touched::new(one(*goroutine), None, None),
            Step::SockOpen { .. } => {
                Touched::new(ArrayVec::new(), Some(self.core.locks.len() as u32), None)
            }
            Step::Arrive { socket, .. } | Step::PeerClose { socket } | Step::Drain { socket, .. } =>
                Touched::new(ArrayVec::new(), Some(*socket), None),
            Step::SysRead {
                goroutine,
                socket,
                ..
            }
            | Step::SysWrite {
                goroutine,
                socket,
                ..
            }
            | Step::Incref { goroutine, socket }
            | Step::IncrefClose { goroutine, socket }
            | Step::Decref { goroutine, socket }
            | Step::RwLock {
                goroutine,
                socket,
                ..
            }
            | Step::RwUnlock {
                goroutine,
                socket,
                ..
            }
            | Step::CloseWrite { goroutine, socket } => {
                Touched::new(one(*goroutine), Some(*socket), None)
            }
            Step::Acquire { goroutine } => {
                Touched::new(one(*goroutine), self.socket_at(*goroutine), None)
            }
            Step::Release { goroutine } => Touched::new(
                self.with_released(*goroutine),
                self.socket_at(*goroutine),
                None,
            ),
            Step::PollOpen { goroutine, .. } => {
                Touched::new(one(*goroutine), None, Some(self.next_descriptor()))
            }
            Step::PollClose {
                goroutine,
                descriptor,
            }
            | Step::PollReset {
                goroutine,
                descriptor,
                ..
            }
            | Step::WaitBegin {
                goroutine,
                descriptor,
                ..
            } => Touched::new(one(*goroutine), None, Some(*descriptor)),
            Step::BlockArm { goroutine }
            | Step::BlockCheck { goroutine }
            | Step::ParkCommit { goroutine }
            | Step::BlockSwap { goroutine }
            | Step::WaitCheck { goroutine } => {
                Touched::new(one(*goroutine), None, self.descriptor_at(*goroutine))
            }
            Step::SetDeadline {
                goroutine,
                descriptor,
                ..
            }
            | Step::Evict {
                goroutine,
                descriptor,
            } => {
                let held = self.with_held(one(*goroutine), *descriptor);
                Touched::new(held, None, Some(*descriptor))
            }
            Step::PollEvent { descriptor, .. } => {
                let held = self.with_held(ArrayVec::new(), *descriptor);
                Touched::new(held, None, Some(*descriptor))
            }
            Step::Tick { .. } | Step::Pop => Touched::new(ArrayVec::new(), None, None),
            Step::Fire { place } => self.touched_by_firing(*place),
        }
    }
}

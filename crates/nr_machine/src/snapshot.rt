//! Snapshots of packed worlds.

ghost use Rattle.std.specs.Prelude.{◌≡◌, ◌-◌, ◌≤◌, ◌++◌, length, take, drop, replicate, IfOk};
ghost use Rattle.nr_sockbuf.specs.Sock.{never_opened};
ghost use Rattle.nr_machine.specs.Snapshot.{AreClosedFrom, HaveLimit};

use crate::world::World;
use crate::world_core::Core;
use nr_rev::Memory;
use nr_sockbuf::{Sock, SockSnapshot};
use std::alloc::Global;
use std::marker::Model;

/// A snapshot of a packed world. In contracts a snapshot consists of the core and the bytes in the
/// buffers, as a world does. It stores the sockets up to the last opened one, and only counts the
/// rest.
#[derive(Drop)]
pub struct WorldSnapshot {
    pub(crate) alloc: Global,
    pub(crate) core: Core,
    /// The number of sockets.
    pub(crate) sockets: usize,
    /// The sockets up to the last opened one.
    pub(crate) opened: Vec<SockSnapshot>,
}

impl Model for WorldSnapshot {
    ghost use Rattle.std.specs.Prelude.{◌-◌, ◌++◌, length, replicate};
    ghost use Rattle.nr_sockbuf.specs.Sock.{never_opened};
    ghost use Rattle.nr_machine.specs.World.{WorldParts};

    ghost Value = { WorldParts };

    ghost view = { λ s. record {
      core = s.core;
      socks = s.opened.items ++ replicate (s.sockets - length s.opened.items) (never_opened s.core.limits.buffer);
    } };
}

/// Returns the number of sockets up to the last opened one.
pub(crate) fn count_opened(socks: &[Sock], buffer: u32) -> usize
    ensures within { result ≤ length socks.now }
    ensures behind { socks.now ≡ take result socks.now
        ++ replicate (length socks.now - result) (never_opened buffer) }
{
    let mut count = socks.len();
    while count > 0 && socks[count - 1].is_never_opened(buffer) {
        count -= 1;
    }
    count
}

/// Returns snapshots of these sockets' buffers. If `last` has the same bytes for a socket's side,
/// the two snapshots share the bytes; the contents don't depend on `last`.
pub(crate) fn snapshots(
    alloc: Global,
    socks: &[Sock],
    last: &[SockSnapshot],
) -> Result<Vec<SockSnapshot>, Memory>
    ensures { IfOk result (λ snapshots. snapshots.items ≡ socks.now) }
{
    let mut snapshots = Vec::with_capacity(alloc, socks.len())?;
    for sock in socks {
        snapshots.push(sock.snapshot(last.get(snapshots.len()))?)?;
    }
    Ok(snapshots)
}

/// Returns the buffers for this many sockets: first those of the snapshots, then those of sockets
/// that were never opened.
pub(crate) fn restored_socks(
    alloc: Global,
    opened: &[SockSnapshot],
    sockets: usize,
    buffer: u32,
) -> Result<Vec<Sock>, Memory>
    ensures { IfOk result (λ socks. socks.items ≡ opened.now
        ++ replicate (sockets - length opened.now) (never_opened buffer)) }
{
    let mut socks = Vec::with_capacity(alloc, sockets)?;
    for snapshot in opened {
        socks.push(snapshot.restored(alloc)?)?;
    }
    let closed = sockets.saturating_sub(opened.len());
    for _socket in 0..closed {
        socks.push(Sock::with_limits(alloc, buffer)?)?;
    }
    Ok(socks)
}

impl World {
    /// Restores the buffers of the first sockets from their snapshots.
    pub(crate) fn restore_opened(&mut self, opened: &[SockSnapshot])
        requires count { length opened.now ≤ length self.old.socks }
        requires limit { HaveLimit self.old.core.limits.buffer self.old.socks }
        requires kept { HaveLimit self.old.core.limits.buffer opened.now }
        ensures { self.new ≡ record self.old {
          socks = opened.now ++ drop (length opened.now) self.old.socks;
        } }
    {
        for socket in 0..opened.len() {
            self.socks[socket].restore(&opened[socket]);
        }
    }

    /// Resets the sockets from number `first` on, as if they had never been opened. Sockets without
    /// a lock are already in that state.
    pub(crate) fn reset_from(&mut self, first: usize)
        requires first { first ≤ length self.old.socks }
        requires locks { self.old.core.locks.room ≡ length self.old.socks }
        requires limit { HaveLimit self.old.core.limits.buffer self.old.socks }
        requires closed { AreClosedFrom first (length self.old.core.locks.items) self.old.socks }
        ensures { self.new ≡ record self.old {
          socks = take first self.old.socks
              ++ replicate (length self.old.socks - first) (never_opened self.old.core.limits.buffer);
        } }
    {
        for socket in first..self.core.locks.len() {
            self.socks[socket].reset();
        }
    }
}

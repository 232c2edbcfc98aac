//! The other ends of all sockets, which are updated with each step of a recording.

ghost use Rattle.std.specs.Prelude.{◌≡◌, IfOk, None, replicate};
ghost use Rattle.nr_suspects.specs.Peers.{ArePeersNoted, IsPeerNotedAt, peer_in};

use crate::notice::Notice;
use crate::peer::{Peer, peer_after};
use nr_rev::Memory;
use std::alloc::Global;
use std::marker::Model;

/// The other end of each socket, with a place for each number that a socket may have.
#[derive(Drop)]
pub struct Peers {
    peers: Vec<Option<Peer>>,
}

impl Model for Peers {
    ghost use Rattle.std.specs.Prelude.{List, Option};
    ghost use Rattle.nr_suspects.specs.declared.peer.Peer.{Peer};

    ghost Value = { List (Option Peer) };

    ghost view = { λ n. n.peers.items };
}

impl Peers {
    /// Makes the list for this many sockets, none of which has been opened. Fails with `Memory` if memory runs out.
    pub fn new(alloc: Global, sockets: u32) -> Result<Peers, Memory>
        ensures { IfOk result (λ peers. peers ≡ replicate sockets None) }
    {
        let peers = vec![in alloc; None; sockets as usize]?;
        Ok(Peers { peers })
    }

    /// Returns the other end of the socket, or `None` if the socket has no place or wasn't opened.
    pub fn of(&self, socket: u32) -> Option<Peer>
        ensures { result ≡ peer_in self.now socket }
    {
        *self.peers.get(socket as usize)?
    }

    /// Updates each place with the notice of a step.
    pub fn note(&mut self, notice: Notice)
        ensures { ArePeersNoted notice self.old self.new }
    {
        match notice {
            Notice::SocketOpened { socket, .. } | Notice::PeerClosed { socket } => {
                self.note_at(socket, notice)
            }
            _ => {}
        }
    }

    // Updates the place of one socket.
    fn note_at(&mut self, socket: u32, notice: Notice)
        ensures { IsPeerNotedAt socket notice self.old self.new }
    {
        let at = socket as usize;
        if at < self.peers.len() {
            self.peers[at] = peer_after(socket, notice, self.peers[at]);
        }
    }
}

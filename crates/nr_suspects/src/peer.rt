//! The other end of a socket.

ghost use Rattle.std.specs.Prelude.{◌≡◌};
ghost use Rattle.nr_suspects.specs.Peers.{closed_peer, open_peer, peer_after};

use crate::notice::Notice;

/// The other end of a socket.
#[derive(Clone, Copy, Debug, PartialEq, Eq)]
pub struct Peer {
    /// The number of bytes that can be written before the other end reads any.
    pub capacity: u32,
    /// True if the other end has closed.
    pub is_closed: bool,
}

impl Peer {
    // Returns the other end of a socket that was opened with this much room for writing.
    fn open(capacity: u32) -> Peer
        ensures { result ≡ open_peer capacity }
    {
        Peer {
            capacity,
            is_closed: false,
        }
    }

    // Returns the other end after it has closed.
    fn closed(self) -> Peer
        ensures { result ≡ closed_peer self }
    {
        Peer {
            capacity: self.capacity,
            is_closed: true,
        }
    }
}

// Returns the other end of the socket after the step.
pub(crate) fn peer_after(socket: u32, notice: Notice, peer: Option<Peer>) -> Option<Peer>
    ensures { result ≡ peer_after socket notice peer }
{
    match notice {
        Notice::SocketOpened {
            socket: opened,
            capacity,
        } if socket == opened => Some(Peer::open(capacity)),
        Notice::PeerClosed { socket: of } if socket == of => {
            let peer = peer?;
            Some(peer.closed())
        }
        _ => peer,
    }
}

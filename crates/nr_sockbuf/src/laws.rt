//! Laws about the steps: each has the outcome of the machine's step.

ghost use Rattle.std.specs.Prelude.{ℕ, List, ◌≡◌, None};
ghost use Rattle.nr_rev.specs.Socket.{Socket};
ghost use Rattle.nr_rev.specs.World.{World};
ghost use Rattle.nr_rev.specs.declared.step.Step.{Step};
ghost use Rattle.nr_sockbuf.specs.declared.delta.SockDelta.{SockDelta};
ghost use Rattle.nr_sockbuf.specs.declared.reversible.TheConstants.{MOST_WORDS};
ghost use Rattle.nr_sockbuf.specs.Op.{TakesMemory, sock_reason};
ghost use Rattle.nr_sockbuf.specs.Sock.{SockParts};
ghost use Rattle.nr_sockbuf.specs.Agreement.{ArriveAgrees, CloseWriteAgrees, DrainAgrees, IsThere, PeerCloseAgrees, SockLoses, SockOpenAgrees, SysReadAgrees, SysWriteAgrees};

/// On an open socket, a step agrees with the step that an idle goroutine makes in the machine: both
/// give the same answer and the same buffers, or the same reason for a refusal. The same holds for
/// an opening, if the machine has room for another socket.
pub fn steps_are_of_the_machine()
    ensures sockopen { (rc wc : ℕ) (w : World) → SockOpenAgrees rc wc w }
    ensures arrive { (s : ℕ) (bytes : List ℕ) (socket : Socket) (w : World) → IsThere s socket w → ArriveAgrees s bytes socket w }
    ensures peerclose { (s : ℕ) (socket : Socket) (w : World) → IsThere s socket w → PeerCloseAgrees s socket w }
    ensures sysread { (g s n : ℕ) (socket : Socket) (w : World) → IsThere s socket w → SysReadAgrees g s n socket w }
    ensures syswrite { (g s : ℕ) (bytes : List ℕ) (socket : Socket) (w : World) → IsThere s socket w → SysWriteAgrees g s bytes socket w }
    ensures drain { (s n : ℕ) (socket : Socket) (w : World) → IsThere s socket w → DrainAgrees s n socket w }
    ensures closewrite { (g s : ℕ) (socket : Socket) (w : World) → IsThere s socket w → CloseWriteAgrees g s socket w }
{}

/// If a step that isn't refused allocates memory, bytes leave a buffer.
#[tactic(auto, using(crate::proofs::MemoryLemmas::memory_is_for_bytes))]
pub fn memory_is_for_bytes()
    ensures { (t : SockParts) (op : Step) → TakesMemory t op → sock_reason t op ≡ None → SockLoses t op }
{}

/// A delta consists of its undo and nothing else.
pub fn delta_is_its_undo()
    ensures { (delta : SockDelta) → delta ≡ record { undo = delta.undo } }
{}

/// A delta has at most three words, not counting the bytes that left a buffer.
pub fn the_numbers()
    ensures words { MOST_WORDS ≡ 3 }
{}

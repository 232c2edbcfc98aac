//! The kinds of recorded steps: their names and numbers.

ghost use Rattle.std.specs.Prelude.{◌≡◌, ◌<◌, ◌≤◌};
ghost use Rattle.std.specs.Str.{bytes_eq};
ghost use Rattle.nr_rev.specs.Kind.{kind_name, kind_named, kind_number, kind_numbered, kind_of};
ghost use Rattle.nr_rev.specs.Auxiliary.Kind.{kinds_of_length};

use crate::step::Step;

/// What a step does, without its arguments.
#[derive(Clone, Copy, Debug, PartialEq, Eq)]
pub enum Kind {
    Spawn = 1,
    Exit,
    SockOpen,
    Arrive,
    PeerClose,
    SysRead,
    SysWrite,
    Drain,
    Incref,
    IncrefClose,
    Decref,
    RwLock,
    RwUnlock,
    Acquire,
    Release,
    PollOpen,
    PollClose,
    PollReset,
    WaitBegin,
    BlockArm,
    BlockCheck,
    ParkCommit,
    BlockSwap,
    WaitCheck,
    SetDeadline,
    Evict,
    PollEvent,
    Tick,
    Pop,
    Fire,
    CloseWrite,
}

/// The kinds and their names, in the order of their numbers.
const KINDS: [(Kind, &str); Kind::COUNT] = [
    (Kind::Spawn, "spawn"),
    (Kind::Exit, "exit"),
    (Kind::SockOpen, "sockopen"),
    (Kind::Arrive, "arrive"),
    (Kind::PeerClose, "peerclose"),
    (Kind::SysRead, "sysread"),
    (Kind::SysWrite, "syswrite"),
    (Kind::Drain, "drain"),
    (Kind::Incref, "incref"),
    (Kind::IncrefClose, "increfclose"),
    (Kind::Decref, "decref"),
    (Kind::RwLock, "rwlock"),
    (Kind::RwUnlock, "rwunlock"),
    (Kind::Acquire, "acquire"),
    (Kind::Release, "release"),
    (Kind::PollOpen, "pollopen"),
    (Kind::PollClose, "pollclose"),
    (Kind::PollReset, "pollreset"),
    (Kind::WaitBegin, "waitbegin"),
    (Kind::BlockArm, "blockarm"),
    (Kind::BlockCheck, "blockcheck"),
    (Kind::ParkCommit, "parkcommit"),
    (Kind::BlockSwap, "blockswap"),
    (Kind::WaitCheck, "waitcheck"),
    (Kind::SetDeadline, "setdeadline"),
    (Kind::Evict, "evict"),
    (Kind::PollEvent, "pollevent"),
    (Kind::Tick, "tick"),
    (Kind::Pop, "pop"),
    (Kind::Fire, "fire"),
    (Kind::CloseWrite, "closewrite"),
];

impl Kind {
    /// The number of kinds.
    pub const COUNT: usize = 31;

    /// Returns the name of the kind in lower case; a step's line in a recording begins with it.
    pub fn name(self) -> &'static str
        ensures { result.now ≡ kind_name self }
    {
        KINDS[self.number() as usize - 1].1
    }

    /// Returns the number of the kind, counted from 1.
    pub fn number(self) -> u8
        ensures value { result ≡ kind_number self }
        ensures range { (0 < result) × (result ≤ 31) }
    {
        self as u8
    }

    /// Returns the kind with this name, if there is one.
    pub fn named(name: &[u8]) -> Option<Kind>
        ensures { result ≡ kind_named name.now }
    {
        kinds_of_length(name.len())
            .iter()
            .copied()
            .find(|kind| kind.has_name(name))
    }

    // Returns whether the kind has this name.
    fn has_name(self, name: &[u8]) -> bool
        ensures { result ≡ bytes_eq (kind_name self) name.now }
    {
        self.name().as_bytes() == name
    }

    /// Returns the kind with this number, if there is one.
    pub fn numbered(number: u8) -> Option<Kind>
        ensures { result ≡ kind_numbered number }
    {
        KINDS
            .iter()
            .map(|row| row.0)
            .find(|kind| kind.number() == number)
    }
}

// Returns the kinds whose names have this length.
fn kinds_of_length(length: usize) -> &'static [Kind]
    ensures { result.now ≡ kinds_of_length length }
{
    match length {
        3 => &[Kind::Pop],
        4 => &[Kind::Exit, Kind::Tick, Kind::Fire],
        5 => &[Kind::Spawn, Kind::Drain, Kind::Evict],
        6 => &[Kind::Arrive, Kind::Incref, Kind::Decref, Kind::RwLock],
        7 => &[Kind::SysRead, Kind::Acquire, Kind::Release],
        8 => &[
            Kind::SockOpen,
            Kind::SysWrite,
            Kind::RwUnlock,
            Kind::PollOpen,
            Kind::BlockArm,
        ],
        9 => &[
            Kind::PeerClose,
            Kind::PollClose,
            Kind::PollReset,
            Kind::WaitBegin,
            Kind::BlockSwap,
            Kind::WaitCheck,
            Kind::PollEvent,
        ],
        10 => &[Kind::BlockCheck, Kind::ParkCommit, Kind::CloseWrite],
        11 => &[Kind::IncrefClose, Kind::SetDeadline],
        _ => &[],
    }
}

impl Step {
    /// Returns the kind of the step.
    pub fn kind(&self) -> Kind
        ensures { result ≡ kind_of self.now }
    {
        match self {
            Step::Spawn => Kind::Spawn,
            Step::Exit { .. } => Kind::Exit,
            Step::SockOpen { .. } => Kind::SockOpen,
            Step::Arrive { .. } => Kind::Arrive,
            Step::PeerClose { .. } => Kind::PeerClose,
            Step::SysRead { .. } => Kind::SysRead,
            Step::SysWrite { .. } => Kind::SysWrite,
            Step::Drain { .. } => Kind::Drain,
            Step::Incref { .. } => Kind::Incref,
            Step::IncrefClose { .. } => Kind::IncrefClose,
            Step::Decref { .. } => Kind::Decref,
            Step::RwLock { .. } => Kind::RwLock,
            Step::RwUnlock { .. } => Kind::RwUnlock,
            Step::Acquire { .. } => Kind::Acquire,
            Step::Release { .. } => Kind::Release,
            Step::PollOpen { .. } => Kind::PollOpen,
            Step::PollClose { .. } => Kind::PollClose,
            Step::PollReset { .. } => Kind::PollReset,
            Step::WaitBegin { .. } => Kind::WaitBegin,
            Step::BlockArm { .. } => Kind::BlockArm,
            Step::BlockCheck { .. } => Kind::BlockCheck,
            Step::ParkCommit { .. } => Kind::ParkCommit,
            Step::BlockSwap { .. } => Kind::BlockSwap,
            Step::WaitCheck { .. } => Kind::WaitCheck,
            Step::SetDeadline { .. } => Kind::SetDeadline,
            Step::Evict { .. } => Kind::Evict,
            Step::PollEvent { .. } => Kind::PollEvent,
            Step::Tick { .. } => Kind::Tick,
            Step::Pop => Kind::Pop,
            Step::Fire { .. } => Kind::Fire,
            Step::CloseWrite { .. } => Kind::CloseWrite,
        }
    }
}

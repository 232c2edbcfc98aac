//! The calls that the program can test.

use crate::films::Recorded;
use crate::fronts::Play;
use crate::twice::Twice;
use crate::walks::Leg;
use crate::worlds::Made;
use crate::{films, fronts, journals, parts, searches, serving, texts, walks, worlds};
use nr_machine::World;
use nr_plain::PlainWorld;
use nr_search::Direction;
use std::thread::Threads;

/// A call that allocates memory.
#[derive(Clone, Copy, Debug, PartialEq, Eq)]
pub(crate) enum Call {
    Read,
    Write,
    Load,
    LoadRefused,
    Fresh,
    FreshPlain,
    Copy,
    CopyPlain,
    Snapshot,
    SnapshotPlain,
    Restored,
    RestoredPlain,
    RestoredInPlace,
    RestoredInPlacePlain,
    TableWithLimits,
    TableWithDescriptors,
    SockWithLimits,
    TimersWithLimits,
    TableCopy,
    SockCopy,
    SockSnapshot,
    SockRestored,
    TimersCopy,
    WalkerNew,
    GoForward,
    GoToCopy,
    GoBack,
    SearchForward,
    SearchBackward,
    ManySearchForward,
    ManySearchBackward,
    JournalNew,
    JournalAlone,
    JournalOfPasses,
    JournalSplit,
    JournalFinish,
    FrontNew,
    Exec,
    ExecBehindAnother,
    Look,
    Resume,
    Session,
    WithAnswers,
    Check,
    Upgrade,
    Changes,
    Suspects,
    Serve,
}

/// The calls by name.
pub(crate) static CALLS: [(&str, Call); 48] = [
    ("read", Call::Read),
    ("write", Call::Write),
    ("load", Call::Load),
    ("load-refused-step", Call::LoadRefused),
    ("fresh", Call::Fresh),
    ("fresh-plain", Call::FreshPlain),
    ("copy", Call::Copy),
    ("copy-plain", Call::CopyPlain),
    ("snapshot", Call::Snapshot),
    ("snapshot-plain", Call::SnapshotPlain),
    ("restored", Call::Restored),
    ("restored-plain", Call::RestoredPlain),
    ("restored-in-place", Call::RestoredInPlace),
    ("restored-in-place-plain", Call::RestoredInPlacePlain),
    ("goroutines-with-limits", Call::TableWithLimits),
    ("goroutines-with-descriptors", Call::TableWithDescriptors),
    ("buffers-with-limits", Call::SockWithLimits),
    ("timers-with-limits", Call::TimersWithLimits),
    ("goroutines-copy", Call::TableCopy),
    ("buffers-copy", Call::SockCopy),
    ("buffers-snapshot", Call::SockSnapshot),
    ("buffers-restored", Call::SockRestored),
    ("timers-copy", Call::TimersCopy),
    ("walker-new", Call::WalkerNew),
    ("goto-forward", Call::GoForward),
    ("goto-a-copy", Call::GoToCopy),
    ("goto-back", Call::GoBack),
    ("search-forward", Call::SearchForward),
    ("search-backward", Call::SearchBackward),
    ("search-forward-by-three", Call::ManySearchForward),
    ("search-backward-by-three", Call::ManySearchBackward),
    ("journal-new", Call::JournalNew),
    ("journal-alone", Call::JournalAlone),
    ("journal-of-passes", Call::JournalOfPasses),
    ("journal-split", Call::JournalSplit),
    ("journal-finish", Call::JournalFinish),
    ("front-new", Call::FrontNew),
    ("exec", Call::Exec),
    ("exec-behind-anothers", Call::ExecBehindAnother),
    ("look", Call::Look),
    ("resume", Call::Resume),
    ("six-lines", Call::Session),
    ("with-answers", Call::WithAnswers),
    ("check-bytes", Call::Check),
    ("upgrade-bytes", Call::Upgrade),
    ("changes-bytes", Call::Changes),
    ("suspects-bytes", Call::Suspects),
    ("serve-bytes", Call::Serve),
];

impl Call {
    /// Returns the call with this name.
    pub(crate) fn named(word: &str) -> Option<Call> {
        for (name, call) in CALLS.iter() {
            if *name == word {
                return Some(*call);
            }
        }
        None
    }

    /// Makes the call while requests for memory may be refused, and then again with memory. Returns
    /// `None` if memory ran out during the preparation.
    pub(crate) fn make_twice<H: Threads + Sync>(
        self,
        rt: &HostRuntime,
        handles: &H,
    ) -> Option<Twice> {
        match self {
            Call::Read => Some(texts::read_twice(rt)),
            Call::Write => texts::write_twice(rt),
            Call::Load => films::load_twice(rt, Recorded::Long),
            Call::LoadRefused => films::load_twice(rt, Recorded::Late),
            Call::WithAnswers => films::answer_film_twice(rt),
            Call::Check => Some(texts::check_twice(rt)),
            Call::Upgrade => Some(texts::upgrade_twice(rt)),
            Call::Changes => Some(texts::change_twice(rt)),
            Call::Suspects => Some(texts::suspect_twice(rt)),
            Call::Fresh => Some(worlds::make_twice::<World>(rt)),
            Call::FreshPlain => Some(worlds::make_twice::<PlainWorld>(rt)),
            Call::Serve => serving::serve_twice(rt, handles),
            _ => self.make_of_world_twice(rt, handles),
        }
    }

    // Tests the calls that copy, snapshot or restore a world.
    fn make_of_world_twice<H: Threads + Sync>(
        self,
        rt: &HostRuntime,
        handles: &H,
    ) -> Option<Twice> {
        match self {
            Call::Copy => worlds::make_of_world_twice::<World>(rt, Made::Copy),
            Call::CopyPlain => worlds::make_of_world_twice::<PlainWorld>(rt, Made::Copy),
            Call::Snapshot => worlds::make_of_world_twice::<World>(rt, Made::Snapshot),
            Call::SnapshotPlain => worlds::make_of_world_twice::<PlainWorld>(rt, Made::Snapshot),
            Call::Restored => worlds::make_of_world_twice::<World>(rt, Made::Restored),
            Call::RestoredPlain => worlds::make_of_world_twice::<PlainWorld>(rt, Made::Restored),
            Call::RestoredInPlace => {
                worlds::make_of_world_twice::<World>(rt, Made::RestoredInPlace)
            }
            Call::RestoredInPlacePlain => {
                worlds::make_of_world_twice::<PlainWorld>(rt, Made::RestoredInPlace)
            }
            _ => self.make_part_twice(rt, handles),
        }
    }

    // Tests the calls on a world's parts, and walks.
    fn make_part_twice<H: Threads + Sync>(self, rt: &HostRuntime, handles: &H) -> Option<Twice> {
        match self {
            Call::TableWithLimits => Some(parts::make_table_twice(rt)),
            Call::TableWithDescriptors => Some(parts::make_counting_table_twice(rt)),
            Call::SockWithLimits => Some(parts::make_sock_twice(rt)),
            Call::TimersWithLimits => Some(parts::make_timers_twice(rt)),
            Call::TableCopy => parts::copy_table_twice(rt),
            Call::SockCopy => parts::copy_sock_twice(rt),
            Call::SockSnapshot => parts::rest_sock_twice(rt),
            Call::SockRestored => parts::restore_sock_twice(rt),
            Call::TimersCopy => parts::copy_timers_twice(rt),
            Call::WalkerNew => walks::make_twice(rt),
            Call::GoForward => walks::go_twice(rt, &Leg::FORWARD),
            Call::GoToCopy => walks::go_twice(rt, &Leg::TO_COPY),
            Call::GoBack => walks::go_twice(rt, &Leg::BACK),
            _ => self.make_session_twice(rt, handles),
        }
    }

    // Tests the calls of searches, journals and fronts.
    fn make_session_twice<H: Threads + Sync>(self, rt: &HostRuntime, handles: &H) -> Option<Twice> {
        match self {
            Call::SearchForward => searches::search_twice(rt, handles, Direction::Forward),
            Call::SearchBackward => searches::search_twice(rt, handles, Direction::Backward),
            Call::ManySearchForward => searches::search_by_many_twice(
                rt,
                handles,
                Direction::Forward,
            ),
            Call::ManySearchBackward => searches::search_by_many_twice(
                rt,
                handles,
                Direction::Backward,
            ),
            Call::JournalNew => Some(journals::make_twice(rt)),
            Call::JournalAlone => Some(journals::make_alone_twice(rt)),
            Call::JournalOfPasses => Some(journals::make_of_passes_twice(rt)),
            Call::JournalSplit => journals::split_twice(rt),
            Call::JournalFinish => journals::finish_twice(rt),
            Call::FrontNew => fronts::make_twice(rt, handles),
            Call::Exec => fronts::play_twice(rt, handles, Play::Exec),
            Call::ExecBehindAnother => fronts::play_twice(rt, handles, Play::ExecBehindAnother),
            Call::Look => fronts::play_twice(rt, handles, Play::Look),
            Call::Resume => fronts::play_twice(rt, handles, Play::Resume),
            Call::Session => fronts::play_twice(rt, handles, Play::SixLines),
            _ => None,
        }
    }
}

//! Serves the callers of each front in a thread of its own.

ghost use Rattle.std.specs.Prelude.{◌≡◌, ◌+◌, ◌≤◌, ◌∷◌, ◌++◌, [], map, vec_len, vec_capacity, IfSome, IfNone};
ghost use Rattle.std.specs.List.{All};
ghost use Rattle.nr_serving.specs.Auxiliary.Fronts.{Adds, IsReady, IsServed, none_passed};
ghost use denote.Param.Send.{IsSend, IsSync};

use crate::connection::Connections;
use crate::logged::{Came, LoggedCallers};
use nr_front::Front;
use nr_journal::{Journal, Pass};
use nr_rev::Worlds;
use nr_search::Finder;
use std::thread::{Threads, join};

/// A front that has ended.
#[derive(Drop)]
pub(crate) struct Done {
    pub(crate) pass: Pass,
    /// True if waiting for a caller failed, or if a read or a write failed.
    pub(crate) failed: bool,
}

// Serves a front's callers one after the other, until no further caller comes or waiting for a
// caller fails. The call always returns: after `u64::MAX` callers, it gives up as if waiting had
// failed.
fn serve_one<W, F, C>(
    journal: &Journal,
    mut front: Front<'_, W, F>,
    callers: &mut LoggedCallers<C>,
) -> Done
where
    W: Worlds + Drop + Sync,
    W::Delta: Drop,
    W::Snapshot: Drop + Sync,
    F: Finder + Drop,
    C: Connections + Drop,
    requires table { front.table ≡ journal.now }
    requires none { callers.old ≡ none_passed }
    ensures { IsServed front.entry result callers.new }
{
    let mut failed = false;
    for _ in 0..u64::MAX {
        match callers.serve_next(&mut front, journal) {
            Came::Served(ending) => failed = failed | ending.is_err(),
            Came::Ended => {
                return Done {
                    pass: front.end(),
                    failed,
                };
            }
            Came::Failed => {
                return Done {
                    pass: front.end(),
                    failed: true,
                };
            }
        }
    }
    callers.give_up();
    Done {
        pass: front.end(),
        failed: true,
    }
}

// Serves a front's callers, and returns the front's result and the callers.
fn serve_front<W, F, C>(
    journal: &Journal,
    front: Front<'_, W, F>,
    mut callers: LoggedCallers<C>,
) -> (Done, LoggedCallers<C>)
where
    W: Worlds + Drop + Sync,
    W::Delta: Drop,
    W::Snapshot: Drop + Sync,
    F: Finder + Drop,
    C: Connections + Drop,
    requires table { front.table ≡ journal.now }
    requires none { callers ≡ none_passed }
    ensures { IsServed front.entry result.0 result.1 }
{
    let done = serve_one(journal, front, &mut callers);
    (done, callers)
}

/// Serves each front in a thread of its own. If no thread can be started, the calling thread serves
/// the front once the threads of all other fronts are started. Appends the results, in the order of
/// the fronts.
pub(crate) fn serve_each<R, W, F, C>(
    rt: &R,
    journal: &Journal,
    mut fronts: Vec<(Front<'_, W, F>, LoggedCallers<C>)>,
    done: Vec<(Done, LoggedCallers<C>)>,
) -> Vec<(Done, LoggedCallers<C>)>
where
    R: Threads + Sync,
    W: Worlds + Drop + Send + Sync,
    W::Delta: Drop + Send,
    W::Snapshot: Drop + Sync,
    F: Finder + Drop + Send,
    C: Connections + Drop + Send,
    requires ready { All (IsReady journal.now) fronts.items }
    requires room { vec_len done + vec_len fronts ≤ vec_capacity done }
    ensures served { Adds (map (λ f. f.0) fronts.entry.items) done.items result.items }
    ensures len { vec_len result ≡ vec_len done + vec_len fronts.entry }
    ensures capacity { vec_capacity result ≡ vec_capacity done }
{
    let Some((front, callers)) = pop_front(journal, &mut fronts) else {
        return done;
    };
    let (one, mut done) = join(
        rt,
        move || -> (Done, LoggedCallers<C>)
            requires { IsSync W.row × IsSync W.Snapshot.row × IsSync F.Runtime.row
                × IsSync F.Gate.row × (front.table ≡ journal.now) × (callers ≡ none_passed) }
            ensures { IsServed front.entry result.0 result.1 }
        { serve_front(journal, front, callers) },
        move || -> Vec<(Done, LoggedCallers<C>)>
            requires { IsSync R.row × IsSend W.row × IsSync W.row × IsSend W.Delta.row
                × IsSync W.Snapshot.row × IsSend F.row × IsSync F.Runtime.row × IsSync F.Gate.row
                × IsSend C.row × IsSend C.Reader.row × IsSend C.Writer.row
                × All (IsReady journal.now) fronts.items
                × (vec_len done + vec_len fronts ≤ vec_capacity done) }
            ensures served { Adds (map (λ f. f.0) fronts.entry.items) done.items result.items }
            ensures len { vec_len result ≡ vec_len done + vec_len fronts.entry }
            ensures capacity { vec_capacity result ≡ vec_capacity done }
        { serve_each(rt, journal, fronts, done) },
    );
    done.push_reserved(one);
    done
}

// Removes and returns the last front.
fn pop_front<'f, W: Worlds + Drop + Sync, F: Finder, C: Connections>(
    journal: &Journal,
    fronts: &mut Vec<(Front<'f, W, F>, LoggedCallers<C>)>,
) -> Option<(Front<'f, W, F>, LoggedCallers<C>)>
where
    W::Delta: Drop,
    W::Snapshot: Drop + Sync,
    requires { All (IsReady journal.now) fronts.old.items }
    ensures some { IfSome result (IsReady journal.now) }
    ensures fewer { IfSome result (λ _. vec_len fronts.new + 1 ≡ vec_len fronts.old) }
    ensures last { IfSome result (λ f. map (λ f. f.0) fronts.old.items
        ≡ map (λ f. f.0) fronts.new.items ++ f.0 ∷ []) }
    ensures none { IfNone result (fronts.old.items ≡ []) }
    ensures rest { All (IsReady journal.now) fronts.new.items }
{
    fronts.pop()
}

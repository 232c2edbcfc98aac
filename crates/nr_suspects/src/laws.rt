//! Laws that follow from the definitions. Each is a public function with an empty body, whose contract is the law.

ghost use Rattle.std.specs.Prelude.{◌≡◌, ◌≢◌, ◌⊎◌, ◌+◌, ◌-◌, ◌<◌, ◌≤◌, ℕ, Bool, true, false, List, [], All, Contains, Ok, IsOk, Some, None, ◌↔◌, min, option_map, slice_get, take};
ghost use Rattle.nr_rev.specs.declared.answer.Answer.{Answer};
ghost use Rattle.nr_rev.specs.Auxiliary.Step.{IsTimely};
ghost use Rattle.nr_rev.specs.Cell.{cell};
ghost use Rattle.nr_rev.specs.Descriptor.{check};
ghost use Rattle.nr_rev.specs.Run.{Recording, world_after, world_at};
ghost use Rattle.nr_rev.specs.Socket.{Socket};
ghost use Rattle.nr_rev.specs.Sides.{of_side, twice, with_side};
ghost use Rattle.nr_rev.specs.Step.{outcome, owing};
ghost use Rattle.nr_rev.specs.WellFormed.{HasView, WellFormed, parked_of};
ghost use Rattle.nr_rev.specs.World.{World, is_free_number};
ghost use Rattle.nr_rev.specs.declared.answer.Answer.TheVariants.{Again, Done, Last, Pipe, Stale, Wait, Yes};
ghost use Rattle.nr_rev.specs.declared.cell.Cell.{Cell};
ghost use Rattle.nr_rev.specs.declared.cell_value.CellValue.TheVariants.{Number};
ghost use Rattle.nr_rev.specs.declared.descriptor.DescriptorRow.{DescriptorRow};
ghost use Rattle.nr_rev.specs.declared.timer.Entry.{Entry};
ghost use Rattle.nr_rev.specs.declared.sides.Mode.{Mode};
ghost use Rattle.nr_rev.specs.declared.sides.Side.{Side};
ghost use Rattle.nr_rev.specs.declared.sides.Side.TheVariants as sides;
ghost use Rattle.nr_rev.specs.declared.step.Step.{Step};
ghost use Rattle.nr_suspects.specs.DeadlineFindings.{Comes, IsFinding, IsOf, deadline_findings};
ghost use Rattle.nr_suspects.specs.Deadlines.{IsInTime};
ghost use Rattle.nr_suspects.specs.Debts.{IsEvent, IsPayment, socket_at};
ghost use Rattle.nr_suspects.specs.HeldReferences.{IsHeld, IsListed, held_references};
ghost use Rattle.nr_suspects.specs.LockedSides.{is_locked};
ghost use Rattle.nr_suspects.specs.LostWakeUps.{HasLost, IsTakenBy, IsTaking, lost_wake_ups};
ghost use Rattle.nr_suspects.specs.Notices.{is_ready};
ghost use Rattle.nr_suspects.specs.Peers.{peer, peer_of};
ghost use Rattle.nr_suspects.specs.Sleepers.{HasNothing, SleepsOn, reason_of_socket, sleepers};
ghost use Rattle.nr_suspects.specs.declared.sleeper.Reason.{Reason};
ghost use Rattle.nr_suspects.specs.declared.sleeper.Sleeper.{Sleeper};
ghost use Rattle.nr_suspects.specs.declared.setting.StepBy.{StepBy};
ghost use Rattle.nr_suspects.specs.declared.deadline_finding.Consequence.TheVariants.{EndedCall, Passed, TakenBack};
ghost use Rattle.nr_suspects.specs.declared.deadline_finding.DeadlineFinding.{DeadlineFinding};
ghost use Rattle.nr_suspects.specs.declared.held_reference.HeldReference.{HeldReference};
ghost use Rattle.nr_suspects.specs.declared.lost_wake_up.LostWakeUp.{LostWakeUp};
ghost use Rattle.nr_suspects.specs.References.{given, references_at, taken};

/// The list of lost wake-ups is exact: each entry is a lost wake-up of the event that it names, and
/// each lost wake-up is listed.
pub fn just_lost_wake_ups_are_listed()
    ensures listed { (r : Recording) (n : ℕ) (lost : LostWakeUp) → WellFormed (world_at r n)
        → Contains (lost_wake_ups r n) lost
        → (has : HasLost r n lost.goroutine lost.descriptor lost.side) × (lost.position ≡ n)
        × (lost.event ≡ has.owed.event + 1) }
    ensures complete { (r : Recording) (n g d : ℕ) (side : Side) → WellFormed (world_at r n)
        → d < r.limits.descriptors → HasLost r n g d side
        → (lost : LostWakeUp) × Contains (lost_wake_ups r n) lost × (lost.goroutine ≡ g)
        × (lost.descriptor ≡ d) × (lost.side ≡ side) }
{}

/// If no lost wake-up is listed, each event for a side at which a goroutine is parked was dealt with. After the event,
/// a read or write of the socket at that side was answered `Again`, or the descriptor was reopened.
pub fn if_none_is_listed_each_event_was_tried()
    ensures { (r : Recording) (n g d : ℕ) (side : Side) (event : ℕ) → WellFormed (world_at r n)
        → d < r.limits.descriptors → lost_wake_ups r n ≡ []
        → HasView parked_of (world_at r n).goroutines g (d, side)
        → event < n → IsEvent r d side event
        → (k : ℕ) × (event < k) × (k < n) × IsPayment r d side k }
{}

/// Only `pollreset`, `blockarm` and `blockswap` consume a readiness notification. Apart from these steps, only
/// reopening the descriptor clears it.
pub fn three_kinds_take_readiness()
    ensures { (w next : World) (step : Step) (answer : Answer) (d : ℕ) (side : Side)
        → outcome w step ≡ Ok (answer, next) → is_ready w d side ≡ true → is_ready next d side ≡ false
        → IsTakenBy w step answer next d side }
{}

/// Each listed lost wake-up names the step that consumed its readiness notification. That step came
/// after the event.
pub fn each_lost_wake_up_names_its_taking()
    ensures { (r : Recording) (n : ℕ) (lost : LostWakeUp) → WellFormed (world_at r n)
        → Contains (lost_wake_ups r n) lost
        → (taken : StepBy) × (lost.taken ≡ Some taken) × IsTaking r n lost.descriptor lost.side lost.event taken }
{}

/// The list of sleepers is exact. Each listed goroutine is parked at the listed side and should have been woken for
/// the listed reason. Each such goroutine is listed.
pub fn just_sleepers_are_listed()
    ensures listed { (r : Recording) (n : ℕ) (s : Sleeper) → WellFormed (world_at r n)
        → Contains (sleepers r n) s
        → SleepsOn (world_at r n) s.goroutine s.descriptor s.side s.reason × (s.position ≡ n) }
    ensures complete { (r : Recording) (n g d : ℕ) (side : Side) (why : Reason) → WellFormed (world_at r n)
        → SleepsOn (world_at r n) g d side why
        → Contains (sleepers r n)
        (record { position = n; goroutine = g; descriptor = d; side = side; reason = why }) }
{}

/// If no sleeper is listed, every parked goroutine waits for something that hasn't come. A check of
/// the goroutine's side has the code 0: the descriptor isn't closing, the side's deadline hasn't
/// passed, and no event reported an error. The descriptor's socket doesn't have what the side waits
/// for, either.
pub fn if_no_sleeper_is_listed_no_side_has_to_be_answered()
    ensures { (r : Recording) (n g d : ℕ) (side : Side) (row : DescriptorRow) → WellFormed (world_at r n)
        → sleepers r n ≡ [] → HasView parked_of (world_at r n).goroutines g (d, side)
        → slice_get (world_at r n).descriptors d ≡ Some row
        → (check side row.descriptor ≡ 0)
        × ((socket : Socket) → slice_get (world_at r n).sockets row.descriptor.socket ≡ Some socket
        → HasNothing side socket) }
{}

/// A socket has what a side waits for if and only if a read or write at that side wouldn't be
/// answered `Again`, for any goroutine and any number of bytes.
pub fn a_socket_has_nothing_just_if_a_try_is_answered_again()
    ensures read { (w : World) (g s n : ℕ) (socket : Socket) (answer : Answer) (next : World)
        → slice_get w.sockets s ≡ Some socket → outcome w (Step.SysRead g s n) ≡ Ok (answer, next)
        → (answer ≡ Again) ↔ (reason_of_socket sides.Read socket ≡ None) }
    ensures write { (w : World) (g s : ℕ) (bytes : List ℕ) (socket : Socket) (answer : Answer) (next : World)
        → slice_get w.sockets s ≡ Some socket → outcome w (Step.SysWrite g s bytes) ≡ Ok (answer, next)
        → (answer ≡ Again) ↔ (reason_of_socket sides.Write socket ≡ None) }
{}

/// At each position, the notebook agrees with the machine on how much may be written to each
/// socket, on whether the socket's peer has closed, and on the socket for which each descriptor was
/// last opened.
pub fn what_is_kept_is_what_the_machine_has()
    ensures peers { (r : Recording) (s n : ℕ)
        → peer r s n ≡ option_map peer_of (slice_get (world_at r n).sockets s) }
    ensures sockets { (r : Recording) (d n : ℕ)
        → socket_at r d n
        ≡ option_map (λ (row : DescriptorRow). row.descriptor.socket) (slice_get (world_at r n).descriptors d) }
{}

/// No replaced deadline ever takes effect, and no timeout comes early: if a firing is answered
/// `Done`, its timer was armed for the deadlines that its sides have now, and their time has come.
/// A firing that is answered `Stale` changes nothing but the number of firings.
pub fn deadlines_pass_in_time()
    ensures done { (w : World) (i : ℕ) (next : World) → WellFormed w
        → outcome w (Step.Fire i) ≡ Ok (Done, next)
        → (firing : Entry) × (row : DescriptorRow) × (slice_get w.firings i ≡ Some firing)
        × (slice_get w.descriptors firing.descriptor ≡ Some row) × IsInTime w row firing }
    ensures stale { (w : World) (i : ℕ) (next : World) (c : Cell)
        → outcome w (Step.Fire i) ≡ Ok (Stale, next) → c ≢ Cell.Firings → cell next c ≡ cell w c }
{}

/// The list of findings about deadlines is exact. Each finding is correct about its deadline, its
/// step, and the step that had set the deadline. The list has an entry for each deadline that
/// passes, and for each timeout, that is, for each call that a deadline ends. It also has an entry
/// for each deadline that wakes a goroutine and is set again before that goroutine checks its side.
pub fn just_what_came_of_deadlines_is_listed()
    ensures listed { (r : Recording) (n : ℕ) (found : DeadlineFinding)
        → Contains (deadline_findings r n) found → IsFinding r n found }
    ensures passed { (r : Recording) (n k d : ℕ) (side : Side) → k < n → d < r.limits.descriptors
        → Comes r k d side Passed
        → (found : DeadlineFinding) × Contains (deadline_findings r n) found × IsOf k d side Passed found }
    ensures ended { (r : Recording) (n k d g : ℕ) (side : Side) → k < n → d < r.limits.descriptors
        → Comes r k d side (EndedCall g)
        → (found : DeadlineFinding) × Contains (deadline_findings r n) found × IsOf k d side (EndedCall g) found }
    ensures taken_back { (r : Recording) (n k d g : ℕ) (side : Side) → k < n → d < r.limits.descriptors
        → Comes r k d side (TakenBack g)
        → (found : DeadlineFinding) × Contains (deadline_findings r n) found × IsOf k d side (TakenBack g) found }
{}

/// After any steps, the reference count in a socket's lock is the count before, plus the references
/// taken, minus the references returned.
pub fn references_are_counted()
    ensures { (w : World) (steps : List Step) (s : ℕ) → WellFormed w → All IsTimely steps
        → references_at (world_after w steps) s + given s w steps ≡ references_at w s + taken s w steps }
{}

/// Only the return of its last reference frees a socket: after the answer `Last`, no reference is
/// left.
pub fn a_socket_is_freed_without_references()
    ensures decref { (w : World) (g s : ℕ) (next : World)
        → outcome w (Step.Decref g s) ≡ Ok (Last, next) → references_at next s ≡ 0 }
    ensures rwunlock { (w : World) (g s : ℕ) (side : Side) (next : World)
        → outcome w (Step.RwUnlock g s side) ≡ Ok (Last, next) → references_at next s ≡ 0 }
{}

/// The list of held references is exact: each entry names references that are held, their count,
/// and the step that took the last of them; and each goroutine that holds references to a closed
/// socket has an entry.
pub fn just_held_references_are_listed()
    ensures listed { (r : Recording) (n : ℕ) (held : HeldReference) → Contains (held_references r n) held
        → IsHeld r n held.socket held.goroutine × IsListed r n held }
    ensures complete { (r : Recording) (n s g : ℕ) → s < r.limits.sockets → g < r.limits.goroutines
        → IsHeld r n s g → (held : HeldReference) × Contains (held_references r n) held
        × (held.socket ≡ s) × (held.goroutine ≡ g) }
{}

/// A closed socket without an entry has no references: it has been freed, or it never had any.
pub fn a_closed_socket_that_is_not_listed_has_no_reference()
    ensures { (r : Recording) (n s : ℕ) (socket : Socket) → 0 < r.limits.goroutines → All IsTimely r.steps
        → slice_get (world_at r n).sockets s ≡ Some socket → socket.lock.closed ≡ true
        → ((held : HeldReference) → Contains (held_references r n) held → held.socket ≢ s)
        → references_at (world_at r n) s ≡ 0 }
{}

/// A leak is permanent. Count the references that a socket has, add those that the steps take, and
/// subtract those that the steps return: if at least k are left, the socket has at least k
/// references after the steps. So a reference that is never returned keeps the socket from being
/// freed.
pub fn a_leaked_reference_keeps_the_socket()
    ensures { (w : World) (steps : List Step) (s k : ℕ) → WellFormed w → All IsTimely steps
        → given s w steps + k ≤ references_at w s + taken s w steps
        → k ≤ references_at (world_after w steps) s }
{}

/// An event of an earlier opening changes nothing. An event for a descriptor that has been opened
/// before is answered `Stale`, and leaves the world as it was, if and only if the descriptor is
/// closed or has another tag; it is answered `Done` if and only if the descriptor is open and has
/// its tag. No step lowers a tag, and a close raises it. So after a close, each event with the tag
/// that the descriptor had before the close, or with a lower tag, is answered `Stale`, whatever
/// steps come between.
pub fn events_of_an_earlier_opening_change_nothing()
    ensures stale { (w : World) (d tag : ℕ) (mode : Mode) (error : Bool) (row : DescriptorRow)
        → slice_get w.descriptors d ≡ Some row
        → (outcome w (Step.PollEvent d tag mode error) ≡ Ok (Stale, w))
        ↔ ((is_free_number d w.free ≡ true) ⊎ (tag ≢ row.descriptor.fdseq)) }
    ensures done { (w : World) (d tag : ℕ) (mode : Mode) (error : Bool) (row : DescriptorRow)
        → slice_get w.descriptors d ≡ Some row
        → ((next : World) × (outcome w (Step.PollEvent d tag mode error) ≡ Ok (Done, next)))
        ↔ ((is_free_number d w.free ≡ false) × (tag ≡ row.descriptor.fdseq)) }
    ensures earlier { (w : World) (g d tag : ℕ) (mode : Mode) (error : Bool) (row : DescriptorRow) (answer : Answer) (next : World)
        (steps : List Step) → slice_get w.descriptors d ≡ Some row
        → outcome w (Step.PollClose g d) ≡ Ok (answer, next) → tag ≤ row.descriptor.fdseq
        → outcome (world_after next steps) (Step.PollEvent d tag mode error) ≡ Ok (Stale, world_after next steps) }
{}

/// A write is answered `Pipe` if and only if its socket's write side is shut, and such a write
/// changes nothing. A write side is shut after a step if and only if it was shut before or the step
/// is a `closewrite` of it. So each write after a `closewrite` is answered `Pipe`, whatever steps
/// come between.
pub fn a_write_is_answered_pipe_just_if_its_side_is_shut()
    ensures pipe { (w : World) (g s : ℕ) (bytes : List ℕ) (answer : Answer) (next : World)
        → outcome w (Step.SysWrite g s bytes) ≡ Ok (answer, next)
        → (answer ≡ Pipe) ↔ (cell w (Cell.Shut s) ≡ Number 1) }
    ensures nothing { (w : World) (g s : ℕ) (bytes : List ℕ) (next : World)
        → outcome w (Step.SysWrite g s bytes) ≡ Ok (Pipe, next) → next ≡ w }
    ensures shut { (w : World) (step : Step) (s : ℕ) (answer : Answer) (next : World)
        → outcome w step ≡ Ok (answer, next)
        → (cell next (Cell.Shut s) ≡ Number 1)
        ↔ ((cell w (Cell.Shut s) ≡ Number 1) ⊎ ((g : ℕ) × (step ≡ Step.CloseWrite g s))) }
    ensures later { (w : World) (g h s : ℕ) (bytes : List ℕ) (steps : List Step) (first answer : Answer) (next last : World)
        → outcome w (Step.CloseWrite g s) ≡ Ok (first, next)
        → outcome (world_after next steps) (Step.SysWrite h s bytes) ≡ Ok (answer, last) → answer ≡ Pipe }
{}

/// One goroutine at a time holds a side of a socket's lock. An `rwlock` is answered `Yes` if and
/// only if the lock isn't closed and the side isn't locked, and it leaves the side locked. No other
/// step locks a side. If an `rwlock` is answered `Wait`, the side was locked, and one more waiter
/// is the only change to the socket. Between two `rwlock`s of the same side that are answered
/// `Yes`, an `rwunlock` of that side was applied.
pub fn one_goroutine_at_a_time_has_a_side()
    ensures answered { (w : World) (g s : ℕ) (side : Side) (socket : Socket) (answer : Answer) (next : World)
        → slice_get w.sockets s ≡ Some socket → outcome w (Step.RwLock g s side) ≡ Ok (answer, next)
        → (answer ≡ Yes) ↔ ((socket.lock.closed ≡ false) × (of_side side socket.lock.locked ≡ false)) }
    ensures got { (w : World) (g s : ℕ) (side : Side) (next : World)
        → outcome w (Step.RwLock g s side) ≡ Ok (Yes, next)
        → (is_locked w s side ≡ false) × (is_locked next s side ≡ true) }
    ensures waits { (w : World) (g s : ℕ) (side : Side) (socket : Socket) (next : World)
        → slice_get w.sockets s ≡ Some socket → outcome w (Step.RwLock g s side) ≡ Ok (Wait, next)
        → (of_side side socket.lock.locked ≡ true)
        × (slice_get next.sockets s
        ≡ Some (record socket {
          lock = record socket.lock {
            waiters = with_side side (of_side side socket.lock.waiters + 1) socket.lock.waiters;
          };
        })) }
    ensures locks { (w : World) (step : Step) (s : ℕ) (side : Side) (answer : Answer) (next : World)
        → outcome w step ≡ Ok (answer, next) → is_locked w s side ≡ false → is_locked next s side ≡ true
        → ((g : ℕ) × (step ≡ Step.RwLock g s side)) × (answer ≡ Yes) }
    ensures between { (w : World) (g h s : ℕ) (side : Side) (steps : List Step) (next last : World)
        → outcome w (Step.RwLock g s side) ≡ Ok (Yes, next)
        → outcome (world_after next steps) (Step.RwLock h s side) ≡ Ok (Yes, last)
        → (n k : ℕ) × (slice_get steps n ≡ Some (Step.RwUnlock k s side))
        × IsOk (outcome (world_after next (take n steps)) (Step.RwUnlock k s side)) }
{}

/// An `rwunlock` unlocks a side of a socket's lock: the side was locked before and is unlocked
/// after, and no other step unlocks a side. The side isn't handed to another goroutine: if it has
/// waiters, one is removed, and the goroutine that unlocked it owes the side one release.
pub fn an_rwunlock_gives_a_side_back()
    ensures back { (w : World) (g s : ℕ) (side : Side) (answer : Answer) (next : World)
        → outcome w (Step.RwUnlock g s side) ≡ Ok (answer, next)
        → (is_locked w s side ≡ true) × (is_locked next s side ≡ false) }
    ensures unlocks { (w : World) (step : Step) (s : ℕ) (side : Side) (answer : Answer) (next : World)
        → outcome w step ≡ Ok (answer, next) → is_locked w s side ≡ true → is_locked next s side ≡ false
        → (g : ℕ) × (step ≡ Step.RwUnlock g s side) }
    ensures owes { (w : World) (g s : ℕ) (side : Side) (socket : Socket) (answer : Answer) (next : World)
        → slice_get w.sockets s ≡ Some socket → outcome w (Step.RwUnlock g s side) ≡ Ok (answer, next)
        → (slice_get next.goroutines g
        ≡ Some (owing s (with_side side (min (of_side side socket.lock.waiters) 1) (twice 0))))
        × (slice_get next.sockets s
        ≡ Some (record socket {
          lock = record socket.lock {
            locked = with_side side false socket.lock.locked;
            references = socket.lock.references - 1;
            waiters = with_side side (of_side side socket.lock.waiters - 1) socket.lock.waiters;
          };
        })) }
{}

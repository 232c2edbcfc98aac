//! Worked examples: values of the definitions for recordings and lock words that were worked out by hand. The bodies
//! are empty; the prover computes each clause.

ghost use Rattle.std.specs.Prelude.{◌≡◌, true, false, pos, negsuc, ◌∷◌, [], Some, None, Ok, Err};
ghost use Rattle.nr_rev.specs.Lock.{lock_number, incref, incref_close, rw_unlock};
ghost use Rattle.nr_rev.specs.Cell.{bytes_of, queue_of};
ghost use Rattle.nr_rev.specs.Aspect.{can_change};
ghost use Rattle.nr_rev.specs.Descriptor.{change_by_deadline, change_by_evict, closed, opened_for};
ghost use Rattle.nr_rev.specs.Refusing.{raised_sequence};
ghost use Rattle.nr_rev.specs.Run.{next_of, world_at};
ghost use Rattle.nr_rev.specs.Step.{outcome};
ghost use Rattle.nr_rev.specs.Worked.{a_deadline_past_the_greatest_time, a_descriptor_opened_again, a_drained_output, a_firing_too_many, a_last_sequence, a_last_sequence_timed, a_last_tag, a_lock_full_of_references, a_lock_with_one_waiter, a_lock_with_three_waiters, a_read_through_the_poller, a_release_without_hand_off, a_shut_write_side, a_stale_firing_of_both_deadlines, an_error_while_reading_waits, an_event_before_the_parking, answers_of, armed_after, first_refused_of, lock_left_by, one_reference_given_up_twice, reason_of, cell_after, two_readers_and_a_close, world_with_arming, world_with_lock};
ghost use Rattle.nr_rev.specs.declared.sides.Mode.{Mode};
ghost use Rattle.nr_rev.specs.declared.sides.Side.{Side};
ghost use Rattle.nr_rev.specs.declared.descriptor.WaitWord.{WaitWord};
ghost use Rattle.nr_rev.specs.declared.status.Status.{Status};
ghost use Rattle.nr_rev.specs.declared.refusal.Refusal.{Refusal};
ghost use Rattle.nr_rev.specs.declared.answer.Answer.{Answer};
ghost use Rattle.nr_rev.specs.declared.cell.Cell.{Cell};
ghost use Rattle.nr_rev.specs.declared.cell_value.CellValue.{CellValue};
ghost use Rattle.nr_rev.specs.declared.kind.Kind.{Kind};
ghost use Rattle.nr_rev.specs.declared.step.Step.{Step};

/// The operations of `internal/poll/fd_mutex.go` on single lock words. `increfAndClose` wakes every
/// waiter of both sides, and `rwunlock` one waiter of its side. If the reference count of a word is
/// full, `incref` is refused and changes nothing. Go's `incref` panics in that case.
pub fn lock_words_hold()
    ensures three_waiters { lock_number a_lock_with_three_waiters ≡ 8796109799434 }
    ensures three_waiters_closed { lock_left_by (incref_close a_lock_with_three_waiters)
        ≡ Ok (Answer.Yes, 2, 1, 19) }
    ensures one_waiter { lock_number a_lock_with_one_waiter ≡ 8388618 }
    ensures one_waiter_unlocked { lock_left_by (rw_unlock Side.Read a_lock_with_one_waiter)
        ≡ Ok (Answer.NotLast, 1, 0, 0) }
    ensures full { lock_number a_lock_full_of_references ≡ 8388600 }
    ensures full_refused { incref a_lock_full_of_references ≡ Err Refusal.FieldOverflow }
    ensures full_step_refused { outcome (world_with_lock a_lock_full_of_references)
        (Step.Incref 0 0) ≡ Err Refusal.FieldOverflow }
    ensures full_unchanged { next_of (world_with_lock a_lock_full_of_references)
        (outcome (world_with_lock a_lock_full_of_references) (Step.Incref 0 0))
        ≡ world_with_lock a_lock_full_of_references }
{}

/// Two readers of one socket and a close: the lock word and the goroutines at each position.
pub fn lock_recording_holds()
    ensures lock_at_start { cell_after two_readers_and_a_close 0 (Cell.Lock 0) ≡ CellValue.Absent }
    ensures lock_at_four { cell_after two_readers_and_a_close 4 (Cell.Lock 0) ≡ CellValue.Number 8 }
    ensures lock_at_six { cell_after two_readers_and_a_close 6 (Cell.Lock 0) ≡ CellValue.Number 8388626 }
    ensures waiter_at_six { cell_after two_readers_and_a_close 6 (Cell.Goroutine 1)
        ≡ CellValue.Status (Status.Acquiring 0 Side.Read) }
    ensures lock_at_eight { cell_after two_readers_and_a_close 8 (Cell.Lock 0) ≡ CellValue.Number 17 }
    ensures lock_at_ten { cell_after two_readers_and_a_close 10 (Cell.Lock 0) ≡ CellValue.Number 9 }
    ensures closer_at_ten { cell_after two_readers_and_a_close 10 (Cell.Goroutine 2)
        ≡ CellValue.Status Status.Gone }
    ensures all_apply { first_refused_of two_readers_and_a_close ≡ None }
    ensures given_up_twice { first_refused_of one_reference_given_up_twice
        ≡ Some (4, Refusal.InconsistentLock) }
{}

/// A semaphore of `runtime/sema.go` without hand-off: the goroutine that a release wakes finds the lock taken, and
/// waits again.
pub fn queue_recording_holds()
    ensures queue_at_five { queue_of (world_at a_release_without_hand_off 5) 0 Side.Read
        ≡ Some (1 ∷ []) }
    ensures semaphore_at_seven { cell_after a_release_without_hand_off 7 (Cell.ReadSemaphore 0)
        ≡ CellValue.Number 1 }
    ensures queue_at_seven { queue_of (world_at a_release_without_hand_off 7) 0 Side.Read
        ≡ Some [] }
    ensures woken_at_seven { cell_after a_release_without_hand_off 7 (Cell.Goroutine 1)
        ≡ CellValue.Status (Status.Acquiring 0 Side.Read) }
    ensures lock_at_seven { cell_after a_release_without_hand_off 7 (Cell.Lock 0) ≡ CellValue.Number 0 }
    ensures semaphore_at_ten { cell_after a_release_without_hand_off 10 (Cell.ReadSemaphore 0)
        ≡ CellValue.Number 0 }
    ensures lock_at_ten { cell_after a_release_without_hand_off 10 (Cell.Lock 0)
        ≡ CellValue.Number 8388618 }
    ensures woken_at_ten { cell_after a_release_without_hand_off 10 (Cell.Goroutine 1)
        ≡ CellValue.Status (Status.Acquiring 0 Side.Read) }
    ensures all_apply { first_refused_of a_release_without_hand_off ≡ None }
{}

/// A read that waits for its bytes: it takes the lock, parks as in `runtime/netpoll.go`, and gets the bytes.
pub fn read_recording_holds()
    ensures lock_at_three { cell_after a_read_through_the_poller 3 (Cell.Lock 0) ≡ CellValue.Number 10 }
    ensures word_at_one { cell_after a_read_through_the_poller 1 (Cell.ReadWord 0) ≡ CellValue.Absent }
    ensures word_at_two { cell_after a_read_through_the_poller 2 (Cell.ReadWord 0)
        ≡ CellValue.WaitWord WaitWord.Nil }
    ensures word_at_five { cell_after a_read_through_the_poller 5 (Cell.ReadWord 0)
        ≡ CellValue.WaitWord WaitWord.Wait }
    ensures word_at_seven { cell_after a_read_through_the_poller 7 (Cell.ReadWord 0)
        ≡ CellValue.WaitWord (WaitWord.Held 0) }
    ensures word_at_nine { cell_after a_read_through_the_poller 9 (Cell.ReadWord 0)
        ≡ CellValue.WaitWord WaitWord.Ready }
    ensures word_at_ten { cell_after a_read_through_the_poller 10 (Cell.ReadWord 0)
        ≡ CellValue.WaitWord WaitWord.Nil }
    ensures waiters_at_seven { cell_after a_read_through_the_poller 7 Cell.Waiters ≡ CellValue.Number 1 }
    ensures waiters_at_nine { cell_after a_read_through_the_poller 9 Cell.Waiters ≡ CellValue.Number 0 }
    ensures input_at_eight { bytes_of (world_at a_read_through_the_poller 8) 0 Side.Read
        ≡ Some (104 ∷ 105 ∷ []) }
    ensures input_at_eleven { bytes_of (world_at a_read_through_the_poller 11) 0 Side.Read
        ≡ Some [] }
    ensures answers { answers_of a_read_through_the_poller ≡
        Answer.Number 0 ∷ Answer.Number 0 ∷ Answer.Yes ∷ Answer.Code 0 ∷ Answer.Wait ∷ Answer.Code 0 ∷ Answer.Yes
        ∷ Answer.Done ∷ Answer.Done ∷ Answer.Yes ∷ Answer.Got 2 ∷ Answer.NotLast ∷ [] }
    ensures all_apply { first_refused_of a_read_through_the_poller ≡ None }
{}

/// An event between the last check and the commit to park: the commit finds the word ready, so the
/// goroutine doesn't park.
pub fn early_event_recording_holds()
    ensures word_at_four { cell_after an_event_before_the_parking 4 (Cell.ReadWord 0)
        ≡ CellValue.WaitWord WaitWord.Nil }
    ensures word_at_five { cell_after an_event_before_the_parking 5 (Cell.ReadWord 0)
        ≡ CellValue.WaitWord WaitWord.Wait }
    ensures word_at_six { cell_after an_event_before_the_parking 6 (Cell.ReadWord 0)
        ≡ CellValue.WaitWord WaitWord.Wait }
    ensures word_at_seven { cell_after an_event_before_the_parking 7 (Cell.ReadWord 0)
        ≡ CellValue.WaitWord WaitWord.Ready }
    ensures word_at_eight { cell_after an_event_before_the_parking 8 (Cell.ReadWord 0)
        ≡ CellValue.WaitWord WaitWord.Ready }
    ensures word_at_nine { cell_after an_event_before_the_parking 9 (Cell.ReadWord 0)
        ≡ CellValue.WaitWord WaitWord.Nil }
    ensures waiters_at_eight { cell_after an_event_before_the_parking 8 Cell.Waiters
        ≡ CellValue.Number 0 }
    ensures goroutines_at_nine { (world_at an_event_before_the_parking 9).goroutines
        ≡ Status.Idle ∷ [] }
    ensures all_apply { first_refused_of an_event_before_the_parking ≡ None }
{}

/// An error event forbids a wait for reading only, an event with an old tag does nothing, and drained bytes leave the
/// output.
pub fn event_and_output_recordings_hold()
    ensures summary { cell_after an_error_while_reading_waits 4 (Cell.Info 0) ≡ CellValue.Number 2 }
    ensures written { cell_after an_error_while_reading_waits 4 (Cell.WriteWord 0)
        ≡ CellValue.WaitWord WaitWord.Ready }
    ensures reader { cell_after an_error_while_reading_waits 4 (Cell.Goroutine 0)
        ≡ CellValue.Status Status.Idle }
    ensures read_at_four { cell_after an_error_while_reading_waits 4 (Cell.ReadWord 0)
        ≡ CellValue.WaitWord WaitWord.Nil }
    ensures read_at_five { cell_after an_error_while_reading_waits 5 (Cell.ReadWord 0)
        ≡ CellValue.WaitWord WaitWord.Nil }
    ensures answers { answers_of an_error_while_reading_waits
        ≡ Answer.Number 0 ∷ Answer.Number 0 ∷ Answer.Done ∷ Answer.Code 3 ∷ Answer.Stale ∷ [] }
    ensures output { bytes_of (world_at a_drained_output 2) 0 Side.Write ≡ Some (104 ∷ 105 ∷ []) }
    ensures output_gone { bytes_of (world_at a_drained_output 3) 0 Side.Write ≡ Some [] }
{}

/// A write side is shut: a later write is answered with a broken pipe and writes nothing, earlier
/// bytes are still sent, and a second shutdown changes nothing.
pub fn shut_write_side_recording_holds()
    ensures shut_at_start { cell_after a_shut_write_side 0 (Cell.Shut 0) ≡ CellValue.Absent }
    ensures shut_at_two { cell_after a_shut_write_side 2 (Cell.Shut 0) ≡ CellValue.Number 0 }
    ensures shut_at_three { cell_after a_shut_write_side 3 (Cell.Shut 0) ≡ CellValue.Number 1 }
    ensures output_at_four { bytes_of (world_at a_shut_write_side 4) 0 Side.Write
        ≡ Some (104 ∷ 105 ∷ []) }
    ensures output_at_five { bytes_of (world_at a_shut_write_side 5) 0 Side.Write ≡ Some [] }
    ensures shut_again { world_at a_shut_write_side 6 ≡ world_at a_shut_write_side 5 }
    ensures answers { answers_of a_shut_write_side
        ≡ Answer.Number 0 ∷ Answer.Put 2 ∷ Answer.Done ∷ Answer.Pipe ∷ Answer.Done ∷ Answer.Done
        ∷ [] }
    ensures all_apply { first_refused_of a_shut_write_side ≡ None }
{}

/// Two deadlines share a timer and then differ. The firing of the shared timer is then stale, and no deadline expires.
pub fn deadline_recording_holds()
    ensures firings_at_six { cell_after a_stale_firing_of_both_deadlines 6 Cell.Firings
        ≡ CellValue.Number 1 }
    ensures write_at_six { cell_after a_stale_firing_of_both_deadlines 6 (Cell.WriteDeadline 0)
        ≡ CellValue.Time (pos 100) }
    ensures read_at_seven { cell_after a_stale_firing_of_both_deadlines 7 (Cell.ReadDeadline 0)
        ≡ CellValue.Time (pos 150) }
    ensures write_at_seven { cell_after a_stale_firing_of_both_deadlines 7 (Cell.WriteDeadline 0)
        ≡ CellValue.Time (pos 100) }
    ensures read_sequence_at_seven { cell_after a_stale_firing_of_both_deadlines 7 (Cell.ReadSequence 0)
        ≡ CellValue.Number 2 }
    ensures write_sequence_at_seven { cell_after a_stale_firing_of_both_deadlines 7
        (Cell.WriteSequence 0) ≡ CellValue.Number 1 }
    ensures firings_at_seven { cell_after a_stale_firing_of_both_deadlines 7 Cell.Firings
        ≡ CellValue.Number 0 }
    ensures timers_at_seven { cell_after a_stale_firing_of_both_deadlines 7 Cell.Timers
        ≡ CellValue.Number 2 }
    ensures least_at_seven { cell_after a_stale_firing_of_both_deadlines 7 Cell.Least
        ≡ CellValue.Time (pos 100) }
    ensures write_at_nine { cell_after a_stale_firing_of_both_deadlines 9 (Cell.WriteDeadline 0)
        ≡ CellValue.Time (negsuc 0) }
    ensures summary_at_nine { cell_after a_stale_firing_of_both_deadlines 9 (Cell.Info 0)
        ≡ CellValue.Number 8 }
    ensures timers_at_nine { cell_after a_stale_firing_of_both_deadlines 9 Cell.Timers
        ≡ CellValue.Number 1 }
    ensures least_at_nine { cell_after a_stale_firing_of_both_deadlines 9 Cell.Least
        ≡ CellValue.Time (pos 150) }
    ensures all_apply { first_refused_of a_stale_firing_of_both_deadlines ≡ None }
{}

/// The greatest time replaces a later deadline. A descriptor that is opened again has new numbers, so an event with an
/// earlier number is stale. No timer goes off while the number of waiting firings is twice the limit on descriptors.
pub fn deadline_limits_hold()
    ensures greatest_time { cell_after a_deadline_past_the_greatest_time 4 (Cell.ReadDeadline 0)
        ≡ CellValue.Time (pos 9223372036854775807) }
    ensures descriptor_sequence { cell_after a_descriptor_opened_again 6 (Cell.DescriptorSequence 0)
        ≡ CellValue.Number 2 }
    ensures read_sequence { cell_after a_descriptor_opened_again 6 (Cell.ReadSequence 0)
        ≡ CellValue.Number 3 }
    ensures read_word { cell_after a_descriptor_opened_again 6 (Cell.ReadWord 0)
        ≡ CellValue.WaitWord WaitWord.Nil }
    ensures answers { answers_of a_descriptor_opened_again
        ≡ Answer.Number 0 ∷ Answer.Number 0 ∷ Answer.Done ∷ Answer.Done ∷ Answer.Number 0
        ∷ Answer.Stale ∷ [] }
    ensures too_many { first_refused_of a_firing_too_many ≡ Some (11, Refusal.FiringsFull) }
{}

/// The reasons, each with the number of the refused step, counted from 1. Of the reasons that are missing here,
/// `FieldOverflow` and `FiringsFull` occur in the examples above, the machine's definition never gives `Memory`, and
/// `CorruptedDescriptor` occurs in no well-formed world.
pub fn reasons_are_met()
    ensures no_such_goroutine { reason_of (Step.Exit 1 ∷ []) ≡ Some (1, Refusal.NoSuchGoroutine) }
    ensures not_there { reason_of (Step.SockOpen 1 1 ∷ Step.BlockArm 0 ∷ [])
        ≡ Some (2, Refusal.NotThere) }
    ensures table_full { reason_of (Step.Spawn ∷ Step.Spawn ∷ []) ≡ Some (2, Refusal.TableFull) }
    ensures no_such_socket { reason_of (Step.Incref 0 0 ∷ []) ≡ Some (1, Refusal.NoSuchSocket) }
    ensures no_such_descriptor { reason_of (Step.PollReset 0 0 Side.Read ∷ [])
        ≡ Some (1, Refusal.NoSuchDescriptor) }
    ensures inconsistent_lock { reason_of (Step.SockOpen 1 1 ∷ Step.Decref 0 0 ∷ [])
        ≡ Some (2, Refusal.InconsistentLock) }
    ensures double_wait { reason_of
        (Step.Spawn ∷ Step.SockOpen 1 1 ∷ Step.PollOpen 0 0 ∷ Step.WaitBegin 0 0 Side.Read
        ∷ Step.WaitBegin 1 0 Side.Read ∷ []) ≡ Some (5, Refusal.DoubleWait) }
    ensures close_without_unblock { reason_of
        (Step.SockOpen 1 1 ∷ Step.PollOpen 0 0 ∷ Step.PollClose 0 0 ∷ [])
        ≡ Some (3, Refusal.CloseWithoutUnblock) }
    ensures already_closing { reason_of
        (Step.SockOpen 1 1 ∷ Step.PollOpen 0 0 ∷ Step.Evict 0 0 ∷ Step.Evict 0 0 ∷ [])
        ≡ Some (4, Refusal.AlreadyClosing) }
    ensures waiter_inside { reason_of
        (Step.Spawn ∷ Step.SockOpen 1 1 ∷ Step.PollOpen 0 0 ∷ Step.WaitBegin 0 0 Side.Read
        ∷ Step.PollReset 1 0 Side.Read ∷ []) ≡ Some (5, Refusal.WaiterInside) }
    ensures clock_goes_back { reason_of (Step.Tick (pos 5) ∷ Step.Tick (pos 4) ∷ [])
        ≡ Some (2, Refusal.ClockGoesBack) }
    ensures no_timer_due { reason_of (Step.Pop ∷ []) ≡ Some (1, Refusal.NoTimerDue) }
    ensures no_such_firing { reason_of (Step.Fire 0 ∷ []) ≡ Some (1, Refusal.NoSuchFiring) }
    ensures no_room { reason_of (Step.SockOpen 1 1 ∷ Step.Arrive 0 (104 ∷ 105 ∷ []) ∷ [])
        ≡ Some (2, Refusal.NoRoom) }
    ensures too_few_bytes { reason_of (Step.SockOpen 1 1 ∷ Step.Drain 0 1 ∷ [])
        ≡ Some (2, Refusal.TooFewBytes) }
    ensures last_number { raised_sequence 18446744073709551615 ≡ Err Refusal.LastNumber }
    ensures size_out_of_range { reason_of (Step.SockOpen 0 1 ∷ [])
        ≡ Some (1, Refusal.SizeOutOfRange) }
    ensures peer_closed { reason_of (Step.SockOpen 1 1 ∷ Step.PeerClose 0 ∷ Step.PeerClose 0 ∷ [])
        ≡ Some (3, Refusal.PeerClosed) }
{}

/// A state that no recording reaches: the greatest 64-bit number isn't incremented. A step that would increment such a
/// sequence or tag of a descriptor is refused, and the greatest arming number is never assigned.
pub fn last_numbers_are_not_raised()
    ensures opened { opened_for 0 a_last_sequence ≡ Err Refusal.LastNumber }
    ensures evicted { change_by_evict a_last_sequence ≡ Err Refusal.LastNumber }
    ensures timed { change_by_deadline (pos 0) Mode.Both (pos 60) a_last_sequence_timed
        ≡ Err Refusal.LastNumber }
    ensures tag { closed a_last_tag ≡ Err Refusal.LastNumber }
    ensures last_but_one_armed { armed_after 18446744073709551614 ≡ Ok 18446744073709551615 }
    ensures last_not_armed { armed_after 18446744073709551615 ≡ Err Refusal.LastNumber }
    ensures step_refused { outcome (world_with_arming 18446744073709551615)
        (Step.SetDeadline 0 0 Mode.Read (pos 1)) ≡ Err Refusal.LastNumber }
{}

/// The cells that some kinds of steps can change: an rwlock can change a lock word and a
/// goroutine's status; a tick can change the clock, but no lock word; an event can change a wait
/// word, but no deadline.
pub fn kinds_change_what_they_touch()
    ensures lock_by_rwlock { can_change Kind.RwLock (Cell.Lock 0) ≡ true }
    ensures goroutine_by_rwlock { can_change Kind.RwLock (Cell.Goroutine 0) ≡ true }
    ensures clock_by_tick { can_change Kind.Tick Cell.Clock ≡ true }
    ensures lock_by_tick { can_change Kind.Tick (Cell.Lock 0) ≡ false }
    ensures word_by_event { can_change Kind.PollEvent (Cell.ReadWord 0) ≡ true }
    ensures deadline_by_event { can_change Kind.PollEvent (Cell.ReadDeadline 0) ≡ false }
{}

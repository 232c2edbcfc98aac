//! Example sessions over short runs. Their bodies are empty; the prover computes each clause.

ghost use Rattle.std.specs.Prelude.{◌≡◌, ◌∷◌, ◌++◌, [], true, codes, Ok};
ghost use Rattle.nr_programs.specs.Opening.{opened_as};
ghost use Rattle.nr_programs.specs.ShortRuns.{early_run, early_swap_run, empty_run, last_moment_run, overtaken_run, reopened_run, taken_run, three_firings_run, woken_run, of_version_one};
ghost use Rattle.nr_programs.specs.Among.{replies_among};
ghost use Rattle.nr_programs.specs.Transcript.{enough, no_memory_to_search, no_room, replies, replies_over, start};

/// A session over each short recording in scripts/recordings/: a wait that an event ends, forwards
/// and backwards; a timer that fires after its deadline was replaced; an event that comes before
/// its goroutine parks; and a lock that is taken from a woken goroutine. There are also sessions
/// over an empty run, over a run with a deadline at the last possible time, and over a run that
/// reopens a descriptor.
pub fn short_runs_have_their_replies()
    ensures lock_and_reference { replies woken_run start true
        (codes "stepi 3\nprint lock 0\n") []
        ≡ codes "at 3\nlock 0 = 10\n" }
    ensures watched_there_and_back { replies woken_run start true
        (codes "watch rg 0\ncontinue\ncontinue\ncontinue\ncontinue\ncontinue\ncontinue\n"
        ++ codes "reverse-continue\nreverse-continue\nreverse-continue\nreverse-continue\n"
        ++ codes "reverse-continue\nreverse-continue\n") []
        ≡ codes "mark 1\nat 2 by 1\nat 5 by 1\nat 7 by 1\nat 9 by 1\nat 10 by 1\nat 12 end\n"
        ++ codes "at 10 by 1\nat 9 by 1\nat 7 by 1\nat 5 by 1\nat 2 by 1\nat 0 start\n" }
    ensures hit_at_the_start { replies woken_run start true
        (codes "stepi\nbreak sockopen\nreverse-continue\nreverse-continue\n") []
        ≡ codes "at 1\nmark 1\nat 0 by 1\nat 0 start\n" }
    ensures no_step { replies empty_run start true
        (codes "stepi\nreverse-stepi\ncontinue\n") []
        ≡ codes "at 0 end\nat 0 start\nat 0 end\n" }
    ensures counts { replies woken_run start true
        (codes "stepi 4294967295\nreverse-stepi 12\nstepi 12\nstepi 0\n") []
        ≡ codes "at 12 end\nat 0\nat 12\nfault 202 bad argument\n" }
    ensures late_firing { replies overtaken_run start true
        (codes "stepi 7\nprint rd 0\nprint wd 0\nprint rseq 0\nprint wseq 0\nprint firings\n"
        ++ codes "print timers\nprint least\nstepi 2\nprint wd 0\nprint info 0\nprint timers\n"
        ++ codes "print least\nreverse-stepi 3\nprint firings\nprint wd 0\n") []
        ≡ codes "at 7\nrd 0 = 150\nwd 0 = 100\nrseq 0 = 2\nwseq 0 = 1\nfirings = 0\ntimers = 2\n"
        ++ codes "least = 100\nat 9\nwd 0 = -1\ninfo 0 = 8\ntimers = 1\nleast = 150\nat 6\n"
        ++ codes "firings = 1\nwd 0 = 100\n" }
    ensures last_moment { replies last_moment_run start true
        (codes "stepi 4\nprint rd 0\n") []
        ≡ codes "at 4\nrd 0 = 9223372036854775807\n" }
    ensures event_comes_first { replies early_run start true
        (codes "stepi 5\nprint rg 0\nstepi\nprint rg 0\nstepi\nprint rg 0\nstepi\nprint rg 0\n"
        ++ codes "stepi\nprint rg 0\nprint waiters\nreverse-stepi\nprint rg 0\nreverse-stepi\n"
        ++ codes "print rg 0\nreverse-stepi\nprint rg 0\nreverse-stepi\nprint rg 0\nreverse-stepi\n"
        ++ codes "print rg 0\n") []
        ≡ codes "at 5\nrg 0 = wait\nat 6\nrg 0 = wait\nat 7\nrg 0 = ready\nat 8\nrg 0 = ready\nat 9\n"
        ++ codes "rg 0 = nil\nwaiters = 0\nat 8\nrg 0 = ready\nat 7\nrg 0 = ready\nat 6\nrg 0 = wait\n"
        ++ codes "at 5\nrg 0 = wait\nat 4\nrg 0 = nil\n" }
    ensures event_of_a_first_life { replies reopened_run start true
        (codes "stepi 6\nprint fdseq 0\nprint rseq 0\nprint rg 0\n") []
        ≡ codes "at 6\nfdseq 0 = 2\nrseq 0 = 3\nrg 0 = nil\n" }
    ensures lock_taken { replies taken_run start true
        (codes "stepi 5\ndump rq 0\nstepi 2\nprint rsem 0\nprint gor 1\nprint lock 0\nstepi 3\n"
        ++ codes "print rsem 0\nprint lock 0\nprint gor 1\n") []
        ≡ codes "at 5\nrq 0 = 1\nat 7\nrsem 0 = 1\ngor 1 = acquiring 0 r\nlock 0 = 0\nat 10\n"
        ++ codes "rsem 0 = 0\nlock 0 = 8388618\ngor 1 = acquiring 0 r\n" }
    ensures bytes_come_back { replies woken_run start true
        (codes "stepi 8\ndump in 0\nstepi 3\ndump in 0\nreverse-stepi\ndump in 0\n") []
        ≡ codes "at 8\nin 0 = 6869\nat 11\nin 0 = -\nat 10\nin 0 = 6869\n" }
    ensures checkpoints { replies woken_run start true
        (codes "stepi 5\ncheckpoint\nstepi 2\nrestart 1\ninfo checkpoints\ndelete checkpoint 1\n"
        ++ codes "restart 1\nrestart 0\n") []
        ≡ codes "at 5\ncheckpoint 1 at 5\nat 7\nat 5\ncheckpoints 1\n1 at 5\ndeleted checkpoint 1\n"
        ++ codes "fault 403 no such checkpoint\nat 0\n" }
    ensures quits_without_a_line_feed { replies woken_run start true
        (codes "stepi 3\nprint lock 0\nfrob\nreverse-stepi\nquit") []
        ≡ codes "at 3\nlock 0 = 10\nfault 201 unknown command\nat 2\nbye\n" }
{}

/// Two fronts, one with `stepi 3` and one with `reverse-stepi`, in both orders and with a journal
/// of one word. There is also a search that runs out of memory, and a later `resume` that completes
/// it.
pub fn what_two_fronts_meet_is_answered()
    ensures forward_first { replies woken_run start true (codes "stepi 3\n") [] ≡ codes "at 3\n" }
    ensures then_back { replies_among woken_run start true
        (codes "reverse-stepi\n")
        (record { others = 196609 ∷ []; supply = enough } ∷ [])
        ≡ codes "at 2\n" }
    ensures back_first { replies woken_run start true (codes "reverse-stepi\n") [] ≡ codes "at 0 start\n" }
    ensures then_forward { replies_among woken_run start true
        (codes "stepi 3\n")
        (record { others = 65794 ∷ []; supply = enough } ∷ [])
        ≡ codes "at 3\n" }
    ensures journal_of_one { replies_among woken_run start true
        (codes "reverse-stepi\ninfo position\n")
        (record { others = 196609 ∷ []; supply = no_room } ∷ [])
        ≡ codes "fault 303 journal full\nat 3 of 12 forward\n" }
    ensures search_without_memory { replies woken_run start true
        (codes "watch rg 0\ncontinue\nstepi\nresume\nresume\n")
        (enough ∷ no_memory_to_search ∷ [])
        ≡ codes "mark 1\nfault 302 memory, placed 2\nfault 302 memory, placed 2\nat 2 by 1\n"
        ++ codes "nothing owed\n" }
{}

/// A recording is refused at its first step that doesn't apply.
pub fn a_step_that_does_not_apply_has_its_line()
    ensures early_swap { replies_over (opened_as (Ok (of_version_one early_swap_run))) true [] [] ≡ codes "step 5: fault 107 reason 2\n" }
    ensures three_firings { replies_over (opened_as (Ok (of_version_one three_firings_run))) true [] [] ≡ codes "step 11: fault 107 reason 14\n" }
{}

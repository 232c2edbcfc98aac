//! One turn: running a line and printing its reply.

ghost use Rattle.std.specs.Prelude.{◌≡◌, true, Err, None, IfErr, IfNone, IfOk, IfSome, OnOk};
ghost use Rattle.nr_command.specs.Command.{meaning_of};
ghost use Rattle.nr_command.specs.Reply.{text_of};
ghost use Rattle.nr_command.specs.declared.reply.Reply.TheVariants as replies;
ghost use Rattle.nr_lines.specs.Turn.{is_quit};
ghost use Rattle.nr_lines.specs.Auxiliary.Engine.{is_write_failure};
ghost use Rattle.nr_lines.specs.Auxiliary.Turn.{MayReply, fault_reply, reply_given, resumed};
ghost use Rattle.nr_lines.specs.Batch.{PrintsReply, StopsPrinting, Turned};
ghost use Rattle.nr_lines.specs.Outbox.{Delivers, is_at_once};

use crate::ending::LineEnd;
use crate::outbox::Outbox;
use nr_command::{Command, Fault, Line, LineFault, Reply};
use nr_front::{Front, FrontFault};
use nr_journal::Journal;
use nr_rev::Worlds;
use nr_search::Finder;
use nr_text::{Part, Sink};
use std::io::Write;

/// Answers a line. Returns whether the line is `quit`. `whole` counts the texts that were printed
/// whole.
pub(crate) fn turn<W: Write, S: Worlds + Drop + Sync, F: Finder>(
    line: &[u8],
    outbox: &mut Outbox,
    w: &mut Sink<W>,
    front: &mut Front<'_, S, F>,
    journal: &Journal,
    whole: &mut u64,
) -> Result<bool, LineEnd>
where
    S::Delta: Drop,
    S::Snapshot: Drop + Sync,
    requires { front.old.table ≡ journal.now }
    ensures table { front.new.table ≡ front.old.table }
    ensures quits { IfOk result (λ quits. quits ≡ is_quit (meaning_of line.now)) }
    ensures ok { IfOk result (λ _. Turned front.old line.now front.new
        w.old outbox.old w.new outbox.new whole.old whole.new) }
    ensures err { IfErr result (λ e. StopsPrinting front.old line.now front.new w.old outbox.old w.new whole.old e) }
    ensures kind { is_at_once outbox.new ≡ is_at_once outbox.old }
    ensures calm { OnOk result (w.new.failed ≡ w.old.failed) }
    ensures failed { IfErr result (λ e. (w.new.failed ≡ true) × (is_write_failure (Err e) ≡ true)) }
{
    let asked = Command::parse(line);
    let Some(printed) = print_reply(asked, outbox, w, front, journal) else {
        return Ok(false);
    };
    match printed {
        Ok(()) => {
            *whole = whole.saturating_add(1);
            Ok(is_quit(asked))
        }
        Err(Part(part)) => Err(LineEnd::Write {
            whole: *whole,
            part,
        }),
    }
}

/// Returns whether a line is `quit`.
fn is_quit(asked: Result<Line, LineFault>) -> bool
    ensures { result ≡ is_quit asked }
{
    match asked {
        Ok(line) => line == Line::Quit,
        Err(_) => false,
    }
}

// A reply is a large local, because it has room for 64 marks, and a function clears all its locals on entry. So
// the function that makes a reply also prints it, and no second function has to clear such a local.

/// Prints the reply. Returns `None` if there is no reply, because the line is empty.
fn print_reply<W: Write, S: Worlds + Drop + Sync, F: Finder>(
    asked: Result<Line, LineFault>,
    outbox: &mut Outbox,
    w: &mut Sink<W>,
    front: &mut Front<'_, S, F>,
    journal: &Journal,
) -> Option<Result<(), Part>>
where
    S::Delta: Drop,
    S::Snapshot: Drop + Sync,
    requires { front.old.table ≡ journal.now }
    ensures table { front.new.table ≡ front.old.table }
    ensures printed { IfSome result (λ printed. PrintsReply asked front.old front.new
        w.old outbox.old w.new outbox.new printed) }
    ensures silent { IfNone result (MayReply asked front.old None front.new) }
    ensures nothing { IfNone result (w.new ≡ w.old) }
    ensures none { IfNone result (outbox.new ≡ outbox.old) }
{
    let line = match asked {
        Ok(line) => line,
        Err(fault) => return Some(print_fault(Fault::Line(fault), outbox, w)),
    };
    match line {
        Line::Run(command) => Some(print_given(&front.exec(journal, command), outbox, w)),
        Line::Look(query) => Some(print_given(&front.look(journal, query), outbox, w)),
        Line::Resume => Some(print_resumed(&front.resume(), outbox, w)),
        Line::Quit => Some(print_bye(outbox, w)),
        Line::Empty => None,
    }
}

/// Prints the reply to a command or to a query.
fn print_given<W: Write>(
    given: &Result<Reply, FrontFault>,
    outbox: &mut Outbox,
    w: &mut Sink<W>,
) -> Result<(), Part>
    ensures { Delivers w.old outbox.old w.new outbox.new (text_of (reply_given given.now)) result }
{
    match given {
        Ok(reply) => outbox.print(reply, w),
        Err(fault) => print_fault(fault_of(*fault), outbox, w),
    }
}

/// Prints the reply to `resume`.
fn print_resumed<W: Write>(
    given: &Result<Option<Reply>, FrontFault>,
    outbox: &mut Outbox,
    w: &mut Sink<W>,
) -> Result<(), Part>
    ensures { Delivers w.old outbox.old w.new outbox.new (text_of (resumed given.now)) result }
{
    match given {
        Ok(Some(reply)) => outbox.print(reply, w),
        Ok(None) => outbox.print(&Reply::NothingOwed, w),
        Err(fault) => print_fault(fault_of(*fault), outbox, w),
    }
}

fn print_bye<W: Write>(outbox: &mut Outbox, w: &mut Sink<W>) -> Result<(), Part>
    ensures { Delivers w.old outbox.old w.new outbox.new (text_of replies.Bye) result }
{
    outbox.print(&Reply::Bye, w)
}

/// Prints the reply that says why the line did nothing.
fn print_fault<W: Write>(fault: Fault, outbox: &mut Outbox, w: &mut Sink<W>) -> Result<(), Part>
    ensures { Delivers w.old outbox.old w.new outbox.new (text_of (replies.Fault fault)) result }
{
    outbox.print(&Reply::Fault(fault), w)
}

/// Converts a front's fault to the fault that the reply reports.
fn fault_of(fault: FrontFault) -> Fault
    ensures { replies.Fault result ≡ fault_reply fault }
{
    match fault {
        FrontFault::Memory(refused) => Fault::Memory(refused),
        FrontFault::Placed(place) => Fault::Placed(place),
        FrontFault::Full => Fault::JournalFull,
    }
}

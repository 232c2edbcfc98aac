//! What happened to a deadline: it passed; it ended a call; or it woke a goroutine and was set
//! again before that goroutine checked its side.

ghost use Rattle.std.specs.Prelude.{◌≡◌, ◌++◌, IfOk};
ghost use Rattle.nr_text.specs.Buffered.{Writes};
ghost use Rattle.nr_suspects.specs.Accounts.{kept_of};
ghost use Rattle.nr_suspects.specs.DeadlineFindings.{consequence_name, consequence_text, deadline_line, deadline_of, finding, findings_at, goroutine_of, goroutine_text, mode_text, moved_text, passed_at, side_setting, setting_text, taken_back_at, woken_of};

use crate::account::Account;
use crate::accounts::Accounts;
use crate::lost_wake_up::side_name;
use crate::notice::{Notice, Passing};
use crate::setting::{Deadline, Setting, StepBy};
use nr_rev::{Memory, Mode, Side};
use nr_text::{Buffered, Text, Token, WriteFailed, send_all};
use std::io::Write;

/// What happened to a deadline.
#[derive(Clone, Copy, Debug, PartialEq, Eq)]
pub enum Consequence {
    /// The deadline's timer ran, and the deadline passed.
    Passed,
    /// The deadline ended a call of this goroutine.
    EndedCall(u32),
    /// The deadline had woken this goroutine, and was set again before the goroutine checked its
    /// side.
    TakenBack(u32),
}

/// What happened to a deadline, and which step had set it.
#[derive(Clone, Copy, Debug, PartialEq, Eq)]
pub struct DeadlineFinding {
    /// The number of the step at which this happened, counted from 1.
    pub position: usize,
    /// The descriptor.
    pub descriptor: u32,
    /// The side.
    pub side: Side,
    /// What happened to the deadline.
    pub consequence: Consequence,
    /// The step that had set the deadline.
    pub setting: Setting,
}

// Returns the printed name of a mode.
fn mode_name(mode: Mode) -> &'static [u8]
    ensures { result.now ≡ mode_text mode }
{
    match mode {
        Mode::Read => b" r",
        Mode::Write => b" w",
        Mode::Both => b" rw",
    }
}

// Returns the printed name of a consequence.
fn consequence_name(consequence: Consequence) -> &'static [u8]
    ensures { result.now ≡ consequence_name consequence }
{
    match consequence {
        Consequence::Passed => b" passed-deadline",
        Consequence::EndedCall(_) => b" timeout",
        Consequence::TakenBack(_) => b" taken-back",
    }
}

// Returns the goroutine that a consequence names, if it names one.
fn goroutine_of(consequence: Consequence) -> Option<u32>
    ensures { result ≡ goroutine_of consequence }
{
    match consequence {
        Consequence::Passed => None,
        Consequence::EndedCall(goroutine) | Consequence::TakenBack(goroutine) => Some(goroutine),
    }
}

// Writes the goroutine, if there is one.
fn send_goroutine<W: Write>(goroutine: Option<u32>, w: &mut Buffered<W>) -> Result<(), WriteFailed>
    ensures { Writes w.old w.new (goroutine_text goroutine) result }
{
    match goroutine {
        None => w.send(b""),
        Some(goroutine) => send_all(&[Token::Text(b" gor "), Token::Number(goroutine as u64)], w),
    }
}

// Writes the step that set only the other side's deadline, if there was one.
fn send_moved<W: Write>(moved: Option<StepBy>, w: &mut Buffered<W>) -> Result<(), WriteFailed>
    ensures { Writes w.old w.new (moved_text moved) result }
{
    match moved {
        None => w.send(b""),
        Some(by) => send_all(
            &[
                Token::Text(b" moved "),
                Token::Number(by.step as u64),
                Token::Text(b" by "),
                Token::Number(by.goroutine as u64),
            ],
            w,
        ),
    }
}

impl DeadlineFinding {
    // Writes the step and the consequence.
    fn send_consequence<W: Write>(&self, w: &mut Buffered<W>) -> Result<(), WriteFailed>
        ensures { Writes w.old w.new (consequence_text self.now) result }
    {
        send_all(
            &[
                Token::Text(b"at "),
                Token::Number(self.position as u64),
                Token::Text(consequence_name(self.consequence)),
            ],
            w,
        )
    }

    // Writes the descriptor's side and the step that set its deadline.
    fn send_setting<W: Write>(&self, w: &mut Buffered<W>) -> Result<(), WriteFailed>
        ensures { Writes w.old w.new (setting_text self.now) result }
    {
        send_all(
            &[
                Token::Text(b" desc "),
                Token::Number(self.descriptor as u64),
                Token::Text(side_name(self.side)),
                Token::Text(b" set "),
                Token::Number(self.setting.by.step as u64),
                Token::Text(b" by "),
                Token::Number(self.setting.by.goroutine as u64),
                Token::Text(mode_name(self.setting.mode)),
            ],
            w,
        )
    }
}

/// Prints as the line `at 91 timeout gor 2 desc 0 r set 60 by 2 rw moved 75 by 3`.
impl Text for DeadlineFinding {
    ghost text = { deadline_line };

    fn send<W: Write>(&self, w: &mut Buffered<W>) -> Result<(), WriteFailed> {
        self.send_consequence(w)?;
        send_goroutine(goroutine_of(self.consequence), w)?;
        self.send_setting(w)?;
        send_moved(self.setting.moved, w)?;
        w.send(b"\n")
    }
}

// Returns the deadline of a side from the descriptor's account.
fn deadline_of(side: Side, account: Option<Account>) -> Option<Deadline>
    ensures { result ≡ deadline_of side account }
{
    let account = account?;
    Some(account.deadlines.of(side))
}

// Appends a finding about the deadline of a side of the descriptor with this account, if the deadline was set.
fn add(
    step: usize,
    descriptor: u32,
    side: Side,
    consequence: Consequence,
    account: Option<Account>,
    found: &mut Vec<DeadlineFinding>,
) -> Result<(), Memory>
    ensures { IfOk result (λ _. found.new.items ≡ found.old.items ++ finding step descriptor side consequence account) }
{
    let Some(deadline) = deadline_of(side, account) else {
        return Ok(());
    };
    let Some(setting) = deadline.setting else {
        return Ok(());
    };
    found.push(DeadlineFinding {
        position: step,
        descriptor,
        side,
        consequence,
        setting,
    })?;
    Ok(())
}

// Appends the finding that this side's deadline passed, if it did.
fn add_passed(
    step: usize,
    descriptor: u32,
    side: Side,
    passing: Option<Passing>,
    account: Option<Account>,
    found: &mut Vec<DeadlineFinding>,
) -> Result<(), Memory>
    ensures { IfOk result (λ _. found.new.items ≡ found.old.items ++ passed_at step descriptor side passing account) }
{
    match passing {
        None => Ok(()),
        Some(_) => add(step, descriptor, side, Consequence::Passed, account, found),
    }
}

// If the deadline woke a goroutine and is set again before that goroutine checked its side, appends this finding.
fn add_taken_back(
    step: usize,
    descriptor: u32,
    mode: Mode,
    side: Side,
    account: Option<Account>,
    found: &mut Vec<DeadlineFinding>,
) -> Result<(), Memory>
    ensures { IfOk result (λ _. found.new.items ≡ found.old.items ++ taken_back_at step descriptor mode side account) }
{
    if !mode.names(side) {
        return Ok(());
    }
    let Some(deadline) = deadline_of(side, account) else {
        return Ok(());
    };
    let Some(woken) = deadline.woken else {
        return Ok(());
    };
    add(
        step,
        descriptor,
        side,
        Consequence::TakenBack(woken),
        account,
        found,
    )
}

/// Appends the findings about deadlines at the step with this number, from the descriptors'
/// accounts before it. Fails with `Memory` if memory runs out.
pub(crate) fn add_findings(
    step: usize,
    notice: Notice,
    accounts: &Accounts,
    found: &mut Vec<DeadlineFinding>,
) -> Result<(), Memory>
    ensures { IfOk result (λ _. found.new.items ≡ found.old.items ++ findings_at step notice (kept_of accounts.now)) }
{
    match notice {
        Notice::PassedDeadline {
            descriptor,
            passings,
        } => {
            let account = accounts.of(descriptor);
            add_passed(step, descriptor, Side::Read, passings.read, account, found)?;
            add_passed(
                step,
                descriptor,
                Side::Write,
                passings.write,
                account,
                found,
            )
        }
        Notice::Checked { visit, code: 2 } => add(
            step,
            visit.descriptor,
            visit.side,
            Consequence::EndedCall(visit.goroutine),
            accounts.of(visit.descriptor),
            found,
        ),
        Notice::SetDeadline {
            descriptor,
            mode,
            ..
        } => {
            let account = accounts.of(descriptor);
            add_taken_back(step, descriptor, mode, Side::Read, account, found)?;
            add_taken_back(step, descriptor, mode, Side::Write, account, found)
        }
        _ => Ok(()),
    }
}

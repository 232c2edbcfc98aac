//! Which step set a deadline, and which goroutine it woke.

ghost use Rattle.std.specs.Prelude.{◌≡◌};
ghost use Rattle.nr_suspects.specs.Settings.{after_passing, after_setting, looked_at, moved_since, passed_with, set_by, woken_but};

use crate::notice::Passing;
use nr_rev::{Mode, Side, Sides};

/// A step and its goroutine.
#[derive(Clone, Copy, Debug, PartialEq, Eq)]
pub struct StepBy {
    /// The number of the step, counted from 1.
    pub step: usize,
    /// The goroutine of the step.
    pub goroutine: u32,
}

/// Which step set a deadline.
#[derive(Clone, Copy, Debug, PartialEq, Eq)]
pub struct Setting {
    /// The step that set the deadline.
    pub by: StepBy,
    /// The sides whose deadlines the step set.
    pub mode: Mode,
    /// The first later step that set only the other side's deadline.
    pub moved: Option<StepBy>,
}

/// The deadline of a side.
#[derive(Clone, Copy, Debug, PartialEq, Eq)]
pub struct Deadline {
    /// Which step set the deadline, if it was set.
    pub setting: Option<Setting>,
    /// The goroutine that was woken when the deadline passed, if it hasn't checked its side yet.
    pub woken: Option<u32>,
}

impl Deadline {
    /// A deadline that was never set.
    pub const NEVER_SET: Deadline = Deadline {
        setting: None,
        woken: None,
    };

    // Returns the deadline after this step set the deadlines that the mode names.
    fn set_by(self, by: StepBy, mode: Mode, side: Side) -> Deadline
        ensures { result ≡ set_by by mode side self }
    {
        if mode.names(side) {
            return Deadline {
                setting: Some(Setting {
                    by,
                    mode,
                    moved: None,
                }),
                woken: None,
            };
        }
        Deadline {
            setting: self.setting.map(
                |setting|
                    ensures { result ≡ moved_since by setting }
                { setting.moved_since(by) },
            ),
            woken: self.woken,
        }
    }

    // Returns the deadline, updated if it passed: it then records which goroutine was woken.
    fn passed_with(self, passing: Option<Passing>) -> Deadline
        ensures { result ≡ passed_with passing self }
    {
        match passing {
            None => self,
            Some(passing) => Deadline {
                setting: self.setting,
                woken: passing.woken,
            },
        }
    }
}

impl Setting {
    // Returns the setting, updated for a later step that set only the other side's deadline. Only
    // the first such step is recorded.
    fn moved_since(self, by: StepBy) -> Setting
        ensures { result ≡ moved_since by self }
    {
        Setting {
            by: self.by,
            mode: self.mode,
            moved: Some(self.moved.unwrap_or(by)),
        }
    }
}

// Returns the goroutine that was woken. Returns `None` if it is `goroutine`, because that goroutine
// has now checked its side.
fn woken_but(goroutine: u32, woken: Option<u32>) -> Option<u32>
    ensures { result ≡ woken_but goroutine woken }
{
    match woken {
        Some(woken) if goroutine != woken => Some(woken),
        _ => None,
    }
}

/// Returns both sides' deadlines after the step with this number, in which the goroutine set the
/// deadlines that the mode names.
pub(crate) fn after_setting(
    step: usize,
    goroutine: u32,
    mode: Mode,
    deadlines: Sides<Deadline>,
) -> Sides<Deadline>
    ensures { result ≡ after_setting step goroutine mode deadlines }
{
    let by = StepBy { step, goroutine };
    Sides {
        read: deadlines.read.set_by(by, mode, Side::Read),
        write: deadlines.write.set_by(by, mode, Side::Write),
    }
}

/// Returns both sides' deadlines, updated for those that passed.
pub(crate) fn after_passing(
    passings: Sides<Option<Passing>>,
    deadlines: Sides<Deadline>,
) -> Sides<Deadline>
    ensures { result ≡ after_passing passings deadlines }
{
    Sides {
        read: deadlines.read.passed_with(passings.read),
        write: deadlines.write.passed_with(passings.write),
    }
}

/// Returns both sides' deadlines after the goroutine checked one of them.
pub(crate) fn looked_at(goroutine: u32, side: Side, deadlines: Sides<Deadline>) -> Sides<Deadline>
    ensures { result ≡ looked_at goroutine side deadlines }
{
    let here = deadlines.of(side);
    let looked = Deadline {
        setting: here.setting,
        woken: woken_but(goroutine, here.woken),
    };
    deadlines.with(side, looked)
}

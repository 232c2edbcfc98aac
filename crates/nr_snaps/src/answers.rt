//! Makes the recording of a film with the answers of its steps.

ghost use Rattle.std.specs.Prelude.{◌≡◌, IfOk};
ghost use Rattle.nr_snaps.specs.Auxiliary.Answers.{answered};

use crate::film::Film;
use nr_recording::{Recording, Version, step_copy};
use nr_rev::{Memory, Worlds};

impl<W: Worlds + Drop> Film<W>
where
    W::Snapshot: Drop,
{
    /// Returns the film's steps with their answers, as a recording in version 2. The loaded
    /// recording may be in version 1. Allocates memory for a world, for the lists of steps and
    /// answers, and for the bytes in steps. Fails if memory runs out.
    pub fn with_answers(&self) -> Result<Recording, Memory>
        ensures { IfOk result (λ recorded. recorded ≡ answered self.now.recording) }
    {
        let mut world = self.start.try_copy()?;
        let mut steps = Vec::with_capacity(self.alloc, self.recording.len())?;
        let mut answers = Vec::with_capacity(self.alloc, self.recording.len())?;
        for n in 0..self.recording.len() {
            let Some(step) = self.recording.step(n) else {
                unreachable!()
            };
            let answer = self.advance(&mut world, n);
            steps.push_reserved(step_copy(self.alloc, step)?);
            answers.push_reserved(answer);
        }
        let limits = self.recording.limits();
        let Ok(recorded) = Recording::new(Version::Two, limits, steps, answers) else {
            unreachable!()
        };
        Ok(recorded)
    }
}

// The races that a session is shown.
ghost use Rattle.std.specs.Prelude.{◌≡◌, Ok, IfErr, IfOk, IsOkUnless};
ghost use Rattle.vp_vpi.specs.Calls.{Explains, lines_of, race_of};

use super::Session;
use crate::error::VpiError;
use crate::observer::Observe;
use crate::races::{RaceDetails, RaceLine};
use vp_text::{Sequence, Shared};

impl Session {
    /// The races that the user is shown, from a number on, at most 100; they are numbered from 1, and from 0 on is from 1 on. The only
    /// refusal is out of memory (1107).
    pub fn races<E: Observe>(
        &self,
        observation: &E,
        from: u64,
    ) -> Result<Shared<Sequence<RaceLine>>, VpiError>
        requires { E.is_sound observation.now }
        ensures lines { IfOk result (λ lines. lines ≡ lines_of (E.observer observation.now) from) }
        ensures refused { IsOkUnless result VpiError.NoMemory }
    {
        let lines = observation.race_lines(self.alloc, from)?;
        Ok(Shared::new(self.alloc, lines)?)
    }

    /// A race with its steps, by its number among those that the user is shown. Refused where there is none of that number (1108), or for want of
    /// memory (1107).
    pub fn race<E: Observe>(
        &self,
        observation: &E,
        number: u64,
    ) -> Result<Shared<RaceDetails>, VpiError>
        requires { E.is_sound observation.now }
        ensures race { IfOk result (λ race. race_of (E.observer observation.now) number ≡ Ok race) }
        ensures refused { IfErr result
            (λ e. Explains (race_of (E.observer observation.now) number) e) }
    {
        match observation.race(self.alloc, number) {
            Ok(Some(told)) => match Shared::new(self.alloc, told) {
                Ok(race) => Ok(race),
                Err(_) => Err(VpiError::NoMemory),
            },
            Ok(None) => Err(VpiError::NoSuchRace),
            Err(_) => Err(VpiError::NoMemory),
        }
    }
}

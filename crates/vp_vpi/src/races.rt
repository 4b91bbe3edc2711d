// What a user is shown of races (docs/FORMATS.md, "Lines").
ghost use Rattle.std.specs.Prelude.{◌≡◌};
ghost use Rattle.vp_vpi.specs.Calls.{race_details};

use vp_bits::Bits;
use vp_text::{Sequence, Text};

/// A race as a user is shown it, which his list numbers.
#[derive(Drop)]
pub struct ShownRace {
    /// The full name of its net or reg.
    pub name: Text,
    /// The time of its segment, in time units.
    pub time: u64,
    /// Its values after the run's order and after the other.
    pub values: (Bits, Bits),
    /// Of the steps of the run's order those that he may list: the full name of each one's process, or `port ` and the full name of
    /// the port of a connection.
    pub first_steps: Sequence<Text>,
    /// The same of the other order.
    pub second_steps: Sequence<Text>,
}

/// A race in the list that a user is shown.
#[derive(Drop)]
pub struct RaceLine {
    /// The full name of its net or reg.
    pub name: Text,
    /// Its number among the races that the user is shown, from 1.
    pub number: u64,
    /// The time of its segment, in time units.
    pub time: u64,
    /// Its values after the run's order and after the other.
    pub values: (Bits, Bits),
}

/// A race with the steps of both orders that the user may list.
#[derive(Drop)]
pub struct RaceDetails {
    pub line: RaceLine,
    /// Those of the run's order: the full name of each one's process, or `port ` and the full name of the port of a connection.
    pub first_steps: Sequence<Text>,
    /// The same of the other order.
    pub second_steps: Sequence<Text>,
}

impl ShownRace {
    /// The race of this number in a list, with its steps.
    pub fn numbered(self, number: u64) -> RaceDetails
        ensures { result ≡ race_details number self }
    {
        RaceDetails {
            line: RaceLine {
                name: self.name,
                number,
                time: self.time,
                values: self.values,
            },
            first_steps: self.first_steps,
            second_steps: self.second_steps,
        }
    }
}

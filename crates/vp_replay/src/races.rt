// The races that a user is shown.
ghost use Rattle.std.specs.Prelude.{◌≡◌, ◌-◌, IfOk, IsSome, OnErr, drop, max, option_copied, option_map, take};
ghost use Rattle.vp_vpi.specs.Calls.{line_of, lines_from, race_details, shown_at};

use std::alloc::{AllocError, Global};
use vp_text::{Sequence, Shared, Text};
use vp_vpi::{RaceDetails, RaceLine, ShownRace};

/// At most so many races are reported in one list.
const RACE_LIMIT: usize = 100;

/// Copies of texts. Takes memory.
fn copies_of(alloc: Global, texts: &[Text]) -> Result<Sequence<Text>, AllocError>
    ensures { IfOk result (λ copies. copies ≡ texts.now) }
{
    let mut copies = Vec::new(alloc);
    for text in texts {
        copies.push(Text::copy(alloc, text.as_str())?)?;
    }
    Ok(Sequence::from_vec(copies))
}

/// A race in a list, by its number there. Takes memory.
fn line_of(alloc: Global, number: u64, race: &ShownRace) -> Result<RaceLine, AllocError>
    ensures { IfOk result (λ line. line ≡ line_of number race.now) }
{
    Ok(RaceLine {
        name: Text::copy(alloc, race.name.as_str())?,
        number,
        time: race.time,
        values: race.values,
    })
}

/// The races from a number on, at most 100; they are numbered from 1. Takes memory.
pub fn lines_of(
    alloc: Global,
    races: &[Shared<ShownRace>],
    from: u64,
) -> Result<Sequence<RaceLine>, AllocError>
    ensures { IfOk result (λ lines. lines
        ≡ take 100 (lines_from (max 1 from) (drop (from - 1) races.now))) }
{
    let mut lines = Vec::new(alloc);
    for (before, race) in races.iter().enumerate() {
        if lines.len() >= RACE_LIMIT {
            break;
        }
        let number = before as u64 + 1;
        if number >= from {
            lines.push(line_of(alloc, number, race.value())?)?;
        }
    }
    Ok(Sequence::from_vec(lines))
}

/// The race of a number, if there is one.
fn race_at(races: &[Shared<ShownRace>], number: u64) -> Option<&ShownRace>
    ensures { option_copied result ≡ shown_at races.now number }
{
    let before = number.checked_sub(1)?;
    Some(races.get(before as usize)?.value())
}

/// The race of a number with its steps, if there is one. Takes memory for a race alone.
pub fn race_details(
    alloc: Global,
    races: &[Shared<ShownRace>],
    number: u64,
) -> Result<Option<RaceDetails>, AllocError>
    ensures race { IfOk result
        (λ race. race ≡ option_map (race_details number) (shown_at races.now number)) }
    ensures there { OnErr result (IsSome (shown_at races.now number)) }
{
    let Some(race) = race_at(races, number) else {
        return Ok(None);
    };
    Ok(Some(RaceDetails {
        line: line_of(alloc, number, race)?,
        first_steps: copies_of(alloc, race.first_steps.as_slice())?,
        second_steps: copies_of(alloc, race.second_steps.as_slice())?,
    }))
}

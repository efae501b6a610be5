// Scripts: a number of places, a colon, and steps.
ghost use Rattle.std.specs.Prelude.{◌≤◌, IfSome};

use std::alloc::{AllocError, Global};

// A step of a script.
#[derive(Clone, Copy)]
pub(crate) enum Step {
    // Touches the key of a letter.
    Touch(u8),
    // Takes the newest touch that stands back.
    PutBack,
    // Removes every entry.
    Empty,
}

// Why there is no script.
#[derive(Clone, Copy, Debug)]
pub(crate) enum ScriptError {
    // The line is no script, longer than 128 bytes, or of more than 64 places.
    NoScript,
    OutOfMemory(AllocError),
}

impl From<AllocError> for ScriptError {
    fn from(error: AllocError) -> ScriptError {
        ScriptError::OutOfMemory(error)
    }
}

impl TryFrom<u8> for Step {
    type Error = ScriptError;

    fn try_from(byte: u8) -> Result<Step, ScriptError> {
        match byte {
            b'a'..=b'z' | b'A'..=b'Z' => Ok(Step::Touch(byte)),
            b'-' => Ok(Step::PutBack),
            b'!' => Ok(Step::Empty),
            _ => Err(ScriptError::NoScript),
        }
    }
}

impl From<Step> for char {
    fn from(step: Step) -> char {
        match step {
            Step::Touch(letter) => char::from(letter),
            Step::PutBack => '-',
            Step::Empty => '!',
        }
    }
}

// The steps of a script, on stores with a number of places.
#[derive(Drop)]
pub(crate) struct Script {
    pub(crate) places: u8,
    pub(crate) steps: Vec<Step>,

    // No more places than a script may ask for.
    ghost most: { places ≤ 64 },
}

impl Script {
    // The script that a line writes.
    pub(crate) fn parse(alloc: Global, line: &[u8]) -> Result<Script, ScriptError> {
        let (places, steps) = parts(line).ok_or(ScriptError::NoScript)?;
        let steps = steps
            .iter()
            .copied()
            .map(Step::try_from)
            .try_collect(alloc)?;
        Ok(Script { places, steps })
    }
}

// The number of places, and the bytes that are to be steps.
fn parts(line: &[u8]) -> Option<(u8, &[u8])>
    ensures { IfSome result (λ p. p.0 ≤ 64) }
{
    if line.len() > 128 {
        return None;
    }
    let colon = line.iter().position(|byte| *byte == b':')?;
    Some((places_of(&line[..colon])?, &line[colon + 1..]))
}

// The number of places that digits write; none for other bytes, and past 64. (Not by `parse`: an empty text writes 0
// here, and a sign is no digit.)
fn places_of(digits: &[u8]) -> Option<u8>
    ensures { IfSome result (λ p. p ≤ 64) }
{
    digits
        .iter()
        .try_fold(0u8, |places, byte| {
            let digit = byte.checked_sub(b'0').filter(|digit| *digit < 10)?;
            places.checked_mul(10)?.checked_add(digit)
        })
        .filter(|places| *places <= 64)
}

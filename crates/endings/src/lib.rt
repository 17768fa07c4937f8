// Endings in plain numbers, as an exported function can give them: a kind, 01's number of a refusal, and lengths.
#![tactic(auto)]

ghost use Rattle.std.specs.Prelude.{◌≡◌, pos};
ghost use Rattle.readings.specs.Answers.{reading_of};
ghost use Rattle.results.specs.Results.{ran_of};
ghost use Rattle.endings.specs.Numbers.{ran_from, plain_outcome_of, done_number, plain_reading_of, signed_says, unsigned_says};

use bsmp::{Outcome, Refusal};

// How a call ends: kind 0 a reply of `length` bytes, 1 silence, 2 a function to be run with `length` bytes of input from place
// `input` of the packet on, 3 a local refusal with 01's number. What a kind has no use for is 0. It is the C interface's struct.
#[repr(C)]
#[derive(Clone, Copy)]
pub struct PlainOutcome {
    pub kind: u8,
    pub refusal: u8,
    pub due: bool,
    pub function: usize,
    pub input: usize,
    pub length: usize,
}

// Bytes to number: refusal 0 and the number, or 01's number of the refusal and 0. One struct for each sort of number, as C has them.
#[repr(C)]
#[derive(Clone, Copy)]
pub struct PlainSignedReading {
    pub refusal: u64,
    pub number: i64,
}

#[repr(C)]
#[derive(Clone, Copy)]
pub struct PlainUnsignedReading {
    pub refusal: u64,
    pub number: u64,
}

impl PlainOutcome {
    pub const REPLY: u8 = 0;

    pub const SILENCE: u8 = 1;

    pub const RUN: u8 = 2;

    pub const REFUSED: u8 = 3;

    // nothing but a kind
    const BLANK: PlainOutcome = PlainOutcome {
        kind: PlainOutcome::SILENCE,
        refusal: 0,
        due: false,
        function: 0,
        input: 0,
        length: 0,
    };
}

impl From<Outcome> for PlainOutcome {
    ghost from_gives = { λ outcome plain. plain ≡ plain_outcome_of outcome };

    fn from(outcome: Outcome) -> PlainOutcome {
        match outcome {
            Outcome::Reply(length) => PlainOutcome {
                kind: PlainOutcome::REPLY,
                length,
                ..PlainOutcome::BLANK
            },
            Outcome::Silence => PlainOutcome {
                kind: PlainOutcome::SILENCE,
                ..PlainOutcome::BLANK
            },
            Outcome::Run {
                function,
                input,
                due,
            } => PlainOutcome {
                kind: PlainOutcome::RUN,
                due,
                function: function.0,
                input: 5,
                length: input,
                ..PlainOutcome::BLANK
            },
            Outcome::Refused(refusal) => PlainOutcome {
                kind: PlainOutcome::REFUSED,
                refusal: u8::from(refusal),
                ..PlainOutcome::BLANK
            },
        }
    }
}

// A board store, a fresh board and number to bytes: 0, or the refusal.
pub fn done_number(done: Result<(), Refusal>) -> u8
    ensures { result ≡ done_number done }
{
    match done {
        Ok(()) => 0,
        Err(refusal) => u8::from(refusal),
    }
}

impl From<Result<i64, Refusal>> for PlainSignedReading {
    ghost from_gives = { λ reading plain. signed_says plain ≡ plain_reading_of (reading_of (λ z. z) reading) };

    fn from(reading: Result<i64, Refusal>) -> PlainSignedReading {
        match reading {
            Ok(number) => PlainSignedReading { refusal: 0, number },
            Err(refusal) => PlainSignedReading {
                refusal: u8::from(refusal) as u64,
                number: 0,
            },
        }
    }
}

impl From<Result<u64, Refusal>> for PlainUnsignedReading {
    ghost from_gives = { λ reading plain. unsigned_says plain ≡ plain_reading_of (reading_of (λ u. pos u) reading) };

    fn from(reading: Result<u64, Refusal>) -> PlainUnsignedReading {
        match reading {
            Ok(number) => PlainUnsignedReading { refusal: 0, number },
            Err(refusal) => PlainUnsignedReading {
                refusal: u8::from(refusal) as u64,
                number: 0,
            },
        }
    }
}

// How a function ran: an error byte counts only where it failed. C hands in a flag, and both.
pub fn ran_of(failed: bool, error: u8, output: &[u8]) -> Result<&[u8], u8>
    ensures { ran_of result ≡ ran_from failed error output.now }
{
    if failed {
        return Err(error);
    }
    Ok(output)
}

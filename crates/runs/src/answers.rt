// What a call says.
ghost use Rattle.std.specs.Prelude.{◌≡◌};
ghost use Rattle.runs.specs.Answers.{number_of, paused};

use instructions::verdict::Stop;
use instructions::words::Refusal;

// Each with its number.
#[derive(Clone, Copy, PartialEq, Eq)]
pub enum Answer {
    Paused = 0,
    Exit = 1,
    Lengths = 2,
    Impossible = 3,
    NotThere = 4,
    NotListed = 5,
    NotZero = 6,
    Designator = 7,
    Misaligned = 8,
    Short = 9,
    Outside = 10,
    Shared = 11,
}

// The number of an answer.
pub fn number(answer: Answer) -> u64
    ensures { result ≡ number_of answer }
{
    answer as u64
}

impl From<Stop> for Answer {
    ghost use Rattle.instructions.specs.Verdict.{stop_number};

    ghost from_gives = { λ stop answer. number_of answer ≡ stop_number stop };

    // What ends a run at an instruction.
    fn from(stop: Stop) -> Answer {
        match stop {
            Stop::Exit => Answer::Exit,
            Stop::Refused(Refusal::NotThere) => Answer::NotThere,
            Stop::Refused(Refusal::NotListed) => Answer::NotListed,
            Stop::Refused(Refusal::NotZero) => Answer::NotZero,
            Stop::Refused(Refusal::NoMeaning) => Answer::Designator,
            Stop::Refused(Refusal::Misaligned) => Answer::Misaligned,
            Stop::Refused(Refusal::Short) => Answer::Short,
            Stop::Refused(Refusal::Outside) => Answer::Outside,
            Stop::Refused(Refusal::Shared) => Answer::Shared,
        }
    }
}

// Is no other answer known?
pub fn is_paused(answer: Answer) -> bool
    ensures { result ≡ paused answer }
{
    matches!(answer, Answer::Paused)
}

// The answers of the entries as numbers.
ghost use Rattle.std.specs.Prelude.{◌≡◌};
ghost use Rattle.seddolki.specs.Answers.{done_answer, refused, verdict_answer, written_answer};

use super::Answer;
use ground::Refusal;

pub fn done_answer(value: u64) -> Answer
    ensures { result ≡ done_answer value }
{
    Answer { number: 0, value }
}

impl From<Refusal> for Answer {
    ghost from_gives = { λ r a. a ≡ refused r };

    fn from(r: Refusal) -> Answer {
        Answer {
            number: u64::from(r.by),
            value: r.block,
        }
    }
}

impl From<Result<(), Refusal>> for Answer {
    ghost from_gives = { λ r a. a ≡ verdict_answer r };

    fn from(r: Result<(), Refusal>) -> Answer {
        match r {
            Ok(()) => done_answer(0),
            Err(refusal) => Answer::from(refusal),
        }
    }
}

impl From<Result<usize, Refusal>> for Answer {
    ghost from_gives = { λ r a. a ≡ written_answer r };

    fn from(r: Result<usize, Refusal>) -> Answer {
        match r {
            Ok(n) => done_answer(n as u64),
            Err(refusal) => Answer::from(refusal),
        }
    }
}

// The three replies.
ghost use Rattle.std.specs.Prelude.{◌≡◌};
ghost use Rattle.model.specs.Questions.{number_of};

use model::question::Question;

// The side that a refusal names.
#[derive(Clone, Copy, Debug, PartialEq, Eq)]
pub enum Side {
    Left,
    Right,
    Both,
    Input,
}

// The number of elements compared; array and cell number; or side, question's number and place. The number is any byte: lines and
// totals are promised of every reply.
#[derive(Clone, Copy, Debug, PartialEq, Eq)]
pub enum Reply {
    Equal(usize),
    Differs(usize, usize),
    Refused(Side, u8, usize),
}

impl Reply {
    // A refusal, its question by name.
    pub(crate) fn refused(side: Side, question: Question, place: usize) -> Reply
        ensures { result ≡ Reply.Refused side (number_of question) place }
    {
        Reply::Refused(side, u8::from(question), place)
    }
}

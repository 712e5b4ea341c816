// The questions that a program or a list is asked (docs/QUESTIONS.md), by name.
ghost use Rattle.std.specs.Prelude.{◌≡◌};
ghost use Rattle.model.specs.Questions.{number_of};

#[derive(Clone, Copy, Debug, PartialEq, Eq)]
pub enum Question {
    Frame,
    Length,
    Cut,
    Mark,
    Version,
    Operator,
    Array,
    Cells,
    Code,
    Index,
    Step,
    Depth,
    Target,
    Rest,
    Range,
    Subscript,
    Unwritten,
    Rounds,
    Updates,
    Nodes,
    Arrays,
    Operators,
    Terms,
    Memory,
    List,
    Difference,
    Literal,
    Output,
}

// A question that was answered no, and where.
#[derive(Clone, Copy, Debug, PartialEq, Eq)]
pub struct Refusal {
    pub question: Question,
    pub place: usize,
}

impl Question {
    pub fn at(self, place: usize) -> Refusal
        ensures { result ≡ record { question = self; place = place } }
    {
        Refusal {
            question: self,
            place,
        }
    }
}

// Its number in docs/QUESTIONS.md.
impl From<Question> for u8 {
    ghost from_gives = { λ q n. n ≡ number_of q };

    fn from(question: Question) -> u8 {
        match question {
            Question::Frame => 1,
            Question::Length => 2,
            Question::Cut => 3,
            Question::Mark => 4,
            Question::Version => 5,
            Question::Operator => 6,
            Question::Array => 7,
            Question::Cells => 8,
            Question::Code => 9,
            Question::Index => 10,
            Question::Step => 11,
            Question::Depth => 12,
            Question::Target => 13,
            Question::Rest => 14,
            Question::Range => 15,
            Question::Subscript => 16,
            Question::Unwritten => 17,
            Question::Rounds => 18,
            Question::Updates => 19,
            Question::Nodes => 20,
            Question::Arrays => 22,
            Question::Operators => 23,
            Question::Terms => 24,
            Question::Memory => 25,
            Question::List => 26,
            Question::Difference => 27,
            Question::Literal => 28,
            Question::Output => 29,
        }
    }
}

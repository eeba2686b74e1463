// Questions, refusals, and the verdict that a row of questions comes to. A question's name is the one that the table of words gives its
// answer.
ghost use Rattle.std.specs.Prelude.{◌≡◌, ◌<◌};
ghost use Rattle.model.specs.Question.{number_of, refusal, verdict_of};

use crate::{Verdict, number};

#[derive(Clone, Copy, Debug, PartialEq, Eq)]
pub enum Question {
    TableLength,
    FieldCount,
    FieldType,
    Tag,
    BlockLength,
    Annotation,
    Instruction,
    BlockEnd,
    Target,
    Reference,
    Offset,
    OtherRecord,
    OpenRecord,
    TakenEdge,
    UntakenEdge,
    StartBlock,
    MemoryLength,
    Address,
    Allocation,
    Field,
    Register,
    LockedField,
    OfferedRows,
    NoChoice,
}

impl Question {
    // The number that an answer gives.
    pub fn number(self) -> u32
        ensures { result ≡ number_of self }
    {
        match self {
            Question::TableLength => number::TABLE_LENGTH,
            Question::FieldCount => number::FIELD_COUNT,
            Question::FieldType => number::FIELD_TYPE,
            Question::Tag => number::TAG,
            Question::BlockLength => number::BLOCK_LENGTH,
            Question::Annotation => number::ANNOTATION,
            Question::Instruction => number::INSTRUCTION,
            Question::BlockEnd => number::BLOCK_END,
            Question::Target => number::TARGET,
            Question::Reference => number::REFERENCE,
            Question::Offset => number::OFFSET,
            Question::OtherRecord => number::OTHER_RECORD,
            Question::OpenRecord => number::OPEN_RECORD,
            Question::TakenEdge => number::TAKEN_EDGE,
            Question::UntakenEdge => number::UNTAKEN_EDGE,
            Question::StartBlock => number::START_BLOCK,
            Question::MemoryLength => number::MEMORY_LENGTH,
            Question::Address => number::ADDRESS,
            Question::Allocation => number::ALLOCATION,
            Question::Field => number::FIELD,
            Question::Register => number::REGISTER,
            Question::LockedField => number::LOCKED_FIELD,
            Question::OfferedRows => number::OFFERED_ROWS,
            Question::NoChoice => number::NO_CHOICE,
        }
    }
}

// A no: the question that has it, and its place.
#[derive(Clone, Copy, Debug, PartialEq, Eq)]
pub struct Refusal {
    pub question: Question,
    pub first: u32,
    pub second: u32,
}

impl Refusal {
    // At a place of one part: a table, a row, a register.
    pub fn at(question: Question, first: usize) -> Refusal
        requires { first < 4294967296 }
        ensures { result ≡ refusal question first 0 }
    {
        Refusal::within(question, first, 0)
    }

    // At a place of two parts: an allocation row and its field, a block and its instruction.
    pub fn within(question: Question, first: usize, second: usize) -> Refusal
        requires { (first < 4294967296) × (second < 4294967296) }
        ensures { result ≡ refusal question first second }
    {
        Refusal {
            question,
            first: first as u32,
            second: second as u32,
        }
    }
}

// Without a no it is 0 at 0, 0; else the first no's number and place.
impl From<Result<(), Refusal>> for Verdict {
    ghost from_gives = { λ outcome verdict. verdict ≡ verdict_of outcome };

    #[tactic(auto, unfolding(crate::specs::Question::verdict_of))]
    fn from(outcome: Result<(), Refusal>) -> Verdict {
        match outcome {
            Ok(()) => Verdict {
                number: number::PASSED,
                first: 0,
                second: 0,
            },
            Err(no) => Verdict {
                number: no.question.number(),
                first: no.first,
                second: no.second,
            },
        }
    }
}

// The refusals of every call, and their numbers.
ghost use Rattle.std.specs.Prelude.{◌≡◌};
ghost use Rattle.table.specs.Verdict.{refusal_number, verdict_number};

use std::error::Error;
use std::fmt;

/// Why a call refuses its input, in the order of the numbers: 1 to 13, 16 and 17, since 14 and 15 are Repair's none and
/// spent.
///
/// `u32::from` gives the number, and `Display` says what is wrong.
#[derive(Clone, Copy, Debug, PartialEq, Eq)]
pub enum Refusal {
    SheetForm = 1,
    Length = 2,
    Counts = 3,
    StateRecord = 4,
    NoInitial = 5,
    StepEnd = 6,
    RepeatedStep = 7,
    NodeRecord = 8,
    ListForm = 9,
    ShortBuffer = 10,
    NotTotal = 11,
    NoInitialKept = 12,
    RootFails = 13,
    UnreachedStep = 16,
    NotTables = 17,
}

impl From<Refusal> for u32 {
    ghost from_gives = { λ refusal number. number ≡ refusal_number refusal };

    fn from(refusal: Refusal) -> u32 {
        refusal as u32
    }
}

impl fmt::Display for Refusal {
    ghost use Rattle.std.specs.Prelude.{Some};
    ghost use Rattle.table.specs.RefusalText.{refusal_text};

    ghost output = { λ refusal. Some (refusal_text refusal) };

    fn fmt<W: fmt::Write>(&self, f: &mut fmt::Formatter<W>) -> fmt::Result {
        f.write_str(match self {
            Refusal::SheetForm => "the text is not of sheet form",
            Refusal::Length =>
                "the table is shorter than 4 bytes, or not as long as its counts say",
            Refusal::Counts => "a count of the table is outside its range",
            Refusal::StateRecord => "initial is above 1, or a label bit is at p or above",
            Refusal::NoInitial => "no state is initial",
            Refusal::StepEnd => "an end of a step is n or more",
            Refusal::RepeatedStep => "two steps have the same ends",
            Refusal::NodeRecord => "a node's kind is above 15, or its fields do not fit the kind",
            Refusal::ListForm => "the list is not e bytes of 0 or 1",
            Refusal::ShortBuffer => "a lent buffer is too short",
            Refusal::NotTotal => "a kept step ends in a state that is not kept",
            Refusal::NoInitialKept => "no initial state is kept",
            Refusal::RootFails => "the root fails at a kept initial state",
            Refusal::UnreachedStep => "a kept step leaves a state that is not reached",
            Refusal::NotTables => "the bytes are not one to eight accepted tables end to end",
        })
    }
}

impl Error for Refusal {}

/// 0 where nothing is refused, else the refusal's number.
// No `From`, for neither Result nor u32 is a type of this crate.
pub fn verdict_number<T: Copy>(answer: Result<T, Refusal>) -> u32
    ensures { result ≡ verdict_number answer }
{
    match answer {
        Ok(_) => 0,
        Err(refusal) => u32::from(refusal),
    }
}

// The refusals of document 01, one case a number. The definition of `specs/Numbers.antt` gives each case its number and places.
#![tactic(auto)]

ghost use Rattle.std.specs.Prelude.{◌≡◌};
ghost use Rattle.refusals.specs.Numbers.{number_of, place_of, second_of};

use std::error::Error;
use std::fmt;

#[derive(Clone, Copy, Debug, PartialEq, Eq)]
pub enum Refusal {
    // Reading the table: the place is a word.
    EndsEarly(usize),
    OutOfRange(usize),
    WrongClass(usize),
    NoOccurrence(usize),
    NotDefining(usize),
    Undefined(usize),
    LeftOver(usize),
    // Planning: which buffer is short; the rule and occurrence on a cycle.
    TooShort(usize),
    CircularIdp(usize, usize),
    CircularEdp(usize, usize),
    // The tree and the values: the place is a node.
    TreeSize,
    NoSuchRule(usize),
    BadChild(usize),
    RootNotStart,
    ChildDiffers(usize),
    NotOneParent(usize),
    ValuesTooShort,
}

impl Refusal {
    // The number of a refusal in document 01's table.
    pub fn number(self) -> usize
        ensures { result ≡ number_of self }
    {
        match self {
            Refusal::EndsEarly(_) => 1,
            Refusal::OutOfRange(_) => 2,
            Refusal::WrongClass(_) => 3,
            Refusal::NoOccurrence(_) => 4,
            Refusal::NotDefining(_) => 5,
            Refusal::Undefined(_) => 6,
            Refusal::LeftOver(_) => 7,
            Refusal::TooShort(_) => 8,
            Refusal::CircularIdp(_, _) => 9,
            Refusal::CircularEdp(_, _) => 10,
            Refusal::TreeSize => 12,
            Refusal::NoSuchRule(_) => 13,
            Refusal::BadChild(_) => 14,
            Refusal::RootNotStart => 15,
            Refusal::ChildDiffers(_) => 16,
            Refusal::NotOneParent(_) => 17,
            Refusal::ValuesTooShort => 18,
        }
    }

    // Its place.
    pub fn place(self) -> usize
        ensures { result ≡ place_of self }
    {
        match self {
            Refusal::EndsEarly(p)
            | Refusal::OutOfRange(p)
            | Refusal::WrongClass(p)
            | Refusal::NoOccurrence(p)
            | Refusal::NotDefining(p)
            | Refusal::Undefined(p)
            | Refusal::LeftOver(p)
            | Refusal::TooShort(p)
            | Refusal::CircularIdp(p, _)
            | Refusal::CircularEdp(p, _)
            | Refusal::NoSuchRule(p)
            | Refusal::BadChild(p)
            | Refusal::ChildDiffers(p)
            | Refusal::NotOneParent(p) => p,
            Refusal::TreeSize | Refusal::RootNotStart | Refusal::ValuesTooShort => 0,
        }
    }

    // Its second place, which only the two cycles name.
    pub fn second_place(self) -> usize
        ensures { result ≡ second_of self }
    {
        match self {
            Refusal::CircularIdp(_, o) | Refusal::CircularEdp(_, o) => o,
            _ => 0,
        }
    }
}

// As the listing prints it: "`refused` and three numbers: number, place, second place".
impl fmt::Display for Refusal {
    fn fmt<W: fmt::Write>(&self, f: &mut fmt::Formatter<W>) -> fmt::Result {
        write!(
            f,
            "refused {} {} {}",
            self.number(),
            self.place(),
            self.second_place()
        )
    }
}

impl Error for Refusal {}

// The numbers that refuse an input: what each stands for, and which applies (specs/, proofs/).
#![tactic(auto)]

ghost use Rattle.std.specs.Prelude.{◌≡◌};
ghost use Rattle.refusal.specs.Numbered.{number_of, Named};

use std::error::Error;
use std::fmt;

// Why an input is refused: document 01's numbers, and their order.
#[derive(Clone, Copy, Debug, PartialEq, Eq, PartialOrd, Ord, Hash)]
pub enum Refusal {
    Lengths = 1,
    Size = 2,
    Reading = 3,
    Value = 4,
    Axis = 5,
    Weights = 6,
    Order = 7,
    Identity = 8,
    Record = 9,
    Text = 10,
    Room = 20,
    Scratch = 21,
    Scale = 22,
    Index = 23,
}

impl Refusal {
    pub fn number(self) -> u32
        ensures { result ≡ number_of self }
    {
        self as u32
    }
}

// A number that refuses nothing.
#[derive(Clone, Copy, Debug, PartialEq, Eq, Hash)]
pub struct UnknownNumber(pub u32);

impl TryFrom<u32> for Refusal {
    type Error = UnknownNumber;

    ghost try_from_gives = { Named };

    fn try_from(number: u32) -> Result<Self, UnknownNumber> {
        match number {
            1 => Ok(Refusal::Lengths),
            2 => Ok(Refusal::Size),
            3 => Ok(Refusal::Reading),
            4 => Ok(Refusal::Value),
            5 => Ok(Refusal::Axis),
            6 => Ok(Refusal::Weights),
            7 => Ok(Refusal::Order),
            8 => Ok(Refusal::Identity),
            9 => Ok(Refusal::Record),
            10 => Ok(Refusal::Text),
            20 => Ok(Refusal::Room),
            21 => Ok(Refusal::Scratch),
            22 => Ok(Refusal::Scale),
            23 => Ok(Refusal::Index),
            _ => Err(UnknownNumber(number)),
        }
    }
}

impl fmt::Display for Refusal {
    fn fmt<W: fmt::Write>(&self, f: &mut fmt::Formatter<W>) -> fmt::Result {
        f.write_str(match self {
            Refusal::Lengths => "lengths that must agree do not",
            Refusal::Size => "a size above its limit",
            Refusal::Reading => "a reading or sample out of range",
            Refusal::Value => {
                "a parameter, a time or a mobility out of range, a reversed range, or identities that would pass 2^32 - 1"
            }
            Refusal::Axis => "a TOF or scan out of range",
            Refusal::Weights => "weights of another form",
            Refusal::Order => "frame numbers or scan axis not rising, or times falling",
            Refusal::Identity => "a peak identity twice in a stitching list",
            Refusal::Record => "a peak record with reversed bounds or a field out of range",
            Refusal::Text => "text of another form",
            Refusal::Room => "output shorter than the sizes allow",
            Refusal::Scratch => "scratch too short",
            Refusal::Scale => "a scale whose numbers disagree",
            Refusal::Index => "a frame index that is not sound",
        })
    }
}

impl fmt::Display for UnknownNumber {
    fn fmt<W: fmt::Write>(&self, f: &mut fmt::Formatter<W>) -> fmt::Result {
        write!(f, "no refusal has the number {}", self.0)
    }
}

impl Error for Refusal {}

impl Error for UnknownNumber {}

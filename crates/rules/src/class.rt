// The class of a resource is one letter.
ghost use Rattle.std.specs.Prelude.{◌≡◌};
ghost use Rattle.rules.specs.Classes.{letter_of, treatment};
ghost use Rattle.rules.specs.Tests.{class_test};

use crate::refusal::Refusal;

#[derive(Clone, Copy, PartialEq, Eq, Debug)]
pub enum Class {
    Generating = b'G' as isize,
    Import = b'I' as isize,
    NonIntermittentSettlementOnly = b'N' as isize,
    IntermittentPower = b'P' as isize,
    IntermittentSettlementOnly = b'S' as isize,
}

// What a class decides for its resources.
#[derive(Clone, Copy)]
pub struct Treatment {
    // rents are deducted
    pub deducted: bool,
    // events are penalized
    pub penalized: bool,
    // penalties of others are credited
    pub credited: bool,
}

fn treated(deducted: bool, penalized: bool, credited: bool) -> Treatment
    ensures { result ≡ record { deducted = deducted; penalized = penalized; credited = credited } }
{
    Treatment {
        deducted,
        penalized,
        credited,
    }
}

// The class that a letter names, if it names one.
impl TryFrom<u8> for Class {
    type Error = Refusal;

    ghost try_from_gives = { λ letter answer. answer ≡ class_test letter };

    fn try_from(letter: u8) -> Result<Class, Refusal> {
        match letter {
            b'G' => Ok(Class::Generating),
            b'I' => Ok(Class::Import),
            b'N' => Ok(Class::NonIntermittentSettlementOnly),
            b'P' => Ok(Class::IntermittentPower),
            b'S' => Ok(Class::IntermittentSettlementOnly),
            _ => Err(Refusal::ClassUnknown),
        }
    }
}

// The letter of a class.
impl From<Class> for u8 {
    ghost from_gives = { λ class letter. letter ≡ letter_of class };

    fn from(class: Class) -> u8 {
        class as u8
    }
}

impl Class {
    // The table of classes.
    pub fn treatment(self) -> Treatment
        ensures { result ≡ treatment self }
    {
        match self {
            Class::Generating | Class::Import => treated(true, true, true),
            Class::NonIntermittentSettlementOnly => treated(true, true, false),
            Class::IntermittentPower | Class::IntermittentSettlementOnly => {
                treated(true, false, false)
            }
        }
    }
}

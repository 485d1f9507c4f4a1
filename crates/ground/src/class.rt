ghost use Rattle.std.specs.Prelude.{◌≡◌, ◌≤◌};
ghost use Rattle.ground.specs.ClassNumbers.{number, Numbered};

// The four classes, in the order of their numbers.
#[derive(Clone, Copy, PartialEq, Eq)]
pub enum Class {
    Num,
    Ord,
    Eq,
    Steady,
}

// No class has the number.
#[derive(Clone, Copy, PartialEq, Eq, Debug)]
pub struct NoClass;

impl Class {
    pub fn number(self) -> u8
        ensures value { result ≡ number self }
        ensures few { result ≤ 3 }
    {
        self as u8
    }
}

impl TryFrom<u8> for Class {
    type Error = NoClass;

    ghost try_from_gives = { Numbered };

    fn try_from(number: u8) -> Result<Class, NoClass> {
        match number {
            0 => Ok(Class::Num),
            1 => Ok(Class::Ord),
            2 => Ok(Class::Eq),
            3 => Ok(Class::Steady),
            _ => Err(NoClass),
        }
    }
}

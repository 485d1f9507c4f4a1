ghost use Rattle.std.specs.Prelude.{◌≡◌, ◌^◌, bit_or};
ghost use Rattle.ground.specs.ClassNumbers.{number};
ghost use Rattle.ground.specs.Members.{asks, compatible};

use crate::class::Class;

// A set of classes: bit k for the class k. 0 is num, 1 ord, 2 eq, 3 steady.
#[derive(Clone, Copy, PartialEq, Eq)]
pub struct Classes(pub u8);

impl Classes {
    // The set of no class.
    pub const NONE: Classes = Classes(0);

    // The set of one class.
    pub fn only(class: Class) -> Classes
        ensures { result ≡ record { 0 = 2 ^ number class } }
    {
        Classes(1 << class.number())
    }

    // The classes of either set.
    pub fn union(self, other: Classes) -> Classes
        ensures { result ≡ record { 0 = bit_or self.0 other.0 } }
    {
        Classes(self.0 | other.0)
    }

    // Is the class in the set?
    pub fn asks(self, class: Class) -> bool
        ensures { result ≡ asks (number class) self }
    {
        (self.0 >> class.number()) % 2 == 1
    }

    // Has the set a member? Steady has none in common with num or with ord.
    pub fn has_member(self) -> bool
        ensures { result ≡ compatible self }
    {
        !(self.asks(Class::Steady) && (self.asks(Class::Num) || self.asks(Class::Ord)))
    }
}

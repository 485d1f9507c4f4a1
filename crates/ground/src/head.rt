ghost use Rattle.std.specs.Prelude.{◌≡◌};
ghost use Rattle.ground.specs.Heads.{head_number, has_first, has_second};

// The ten heads, six for types, two for fields, two for rows.
#[derive(Clone, Copy, PartialEq, Eq)]
pub enum Head {
    Whole,
    Tenth,
    Flag,
    To,
    List,
    Record,
    Absent,
    Has,
    Empty,
    Row,
}

impl Head {
    // The place of the head in their order.
    pub fn number(self) -> u8
        ensures { result ≡ head_number self }
    {
        self as u8
    }

    // Does the head take a first child?
    pub fn has_first(self) -> bool
        ensures { result ≡ has_first self }
    {
        matches!(
            self,
            Head::To | Head::List | Head::Record | Head::Has | Head::Row
        )
    }

    // Does the head take a second child?
    pub fn has_second(self) -> bool
        ensures { result ≡ has_second self }
    {
        matches!(self, Head::To | Head::Row)
    }
}

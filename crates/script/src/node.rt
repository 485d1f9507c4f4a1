ghost use Rattle.std.specs.Prelude.{◌≡◌};
ghost use Rattle.script.specs.Items.{item_of_number};

use ground::name::Name;
use ground::place::Place;
use words::number::Number;

// A form without its sub-forms, which follow it in the list of nodes.
#[derive(Clone, Copy)]
pub enum Item {
    // Numbers by their value in tenths, without a point and with.
    Whole(i32),
    Tenths(i32),
    Truth(bool),
    Name(Name),
    Fun(Name),
    Call,
    Let(Name),
    Rec(Name),
    If,
    Record,
    // Record forms with the label's number on the sheet.
    With(u8),
    Get(u8),
    Drop(u8),
}

impl From<Number> for Item {
    ghost from_gives = { λ number item. item ≡ item_of_number number };

    fn from(number: Number) -> Item {
        match number {
            Number::Whole(z) => Item::Whole(z),
            Number::Tenths(z) => Item::Tenths(z),
        }
    }
}

// A form with its place.
#[derive(Clone, Copy)]
pub struct Node {
    pub place: Place,
    pub item: Item,
}

// A set of labels: bit l for the label l.
#[derive(Clone, Copy, PartialEq, Eq)]
pub struct Labels(pub u32);

// What kind of value: a type, a field, or a row that lacks these labels.
#[derive(Clone, Copy, PartialEq, Eq)]
pub enum Sort {
    Type,
    Field,
    Row(Labels),
}

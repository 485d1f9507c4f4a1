use std::fmt;

// A number by its value in tenths, written with its point.
#[derive(Clone, Copy)]
pub(crate) struct Tenths(pub(crate) i32);

impl fmt::Display for Tenths {
    fn fmt<W: fmt::Write>(&self, f: &mut fmt::Formatter<W>) -> fmt::Result {
        let minus = if self.0 < 0 { "-" } else { "" };
        let n = self.0.unsigned_abs();
        let whole = n / 10;
        let tenth = n % 10;
        write!(f, "{minus}{whole}.{tenth}")
    }
}

use calls::out;

#[derive(Clone, Copy)]
pub(crate) enum Mode {
    // In words, with the place marked.
    People,
    // One line a call.
    Plain,
    // As that, with the form of each script behind it.
    Form,
}

// No call of a bare system has a form.
impl From<Mode> for out::Mode {
    fn from(mode: Mode) -> out::Mode {
        match mode {
            Mode::People => out::Mode::People,
            Mode::Plain | Mode::Form => out::Mode::Plain,
        }
    }
}

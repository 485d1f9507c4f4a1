use ground::name::Name;
use words::sheet::Sheet;

// A script and what it is read with.
#[derive(Clone, Copy)]
pub struct Source<'a> {
    pub text: &'a [u8],
    // Ten heads are known, records among them, and not the first five alone.
    pub records: bool,
    // The four classes are known, and the built-in names that need them.
    pub classes: bool,
    pub sheet: &'a Sheet,
    // The names of the definitions that stand.
    pub defined: &'a [Name],
}

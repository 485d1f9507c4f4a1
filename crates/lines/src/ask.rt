// A request to a system, with the numbers of codes in place of the codes.
use ground::head::Head;
use ground::sort::{Labels, Sort};

#[derive(Clone, Copy)]
pub enum Ask {
    Fresh(Sort),
    // A child that the head does not take is none.
    Build {
        head: Head,
        first: Option<u32>,
        second: Option<u32>,
        label: u8,
        lacked: Labels,
    },
    Equate(u32, u32),
    Demand(u8, u32),
}

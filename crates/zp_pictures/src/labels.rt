//! What stands beside a picture.
use std::fmt;
use std::fmt::{Display, Formatter};
use zp_model::Name;

/// A text of a picture. None has a character that XML keeps to itself: names are letters and digits.
#[derive(Clone, Copy, PartialEq, Eq, Debug, Drop)]
pub enum Label {
    Number(u64),
    /// A zone: its name, and how many pages it has.
    Zone(Name, u32),
    Worker(usize),
    List(usize),
    Posted,
    Requests,
    /// How many pages, and how many states after requests, a cell puts together.
    Cell(u32, usize),
}

impl Display for Label {
    fn fmt<W: fmt::Write>(&self, f: &mut Formatter<W>) -> fmt::Result {
        match *self {
            Label::Number(number) => write!(f, "{number}"),
            Label::Zone(name, pages) => {
                let name = name.as_str();
                write!(f, "zone {name}, {pages} pages")
            }
            Label::Worker(worker) => write!(f, "worker {worker}"),
            Label::List(worker) => write!(f, "list of {worker}"),
            Label::Posted => write!(f, "posted"),
            Label::Requests => write!(f, "requests"),
            Label::Cell(pages, states) => write!(
                f,
                "pages a cell: {pages}, requests a row: {states}"
            ),
        }
    }
}

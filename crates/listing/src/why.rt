// Why a trace was refused, in the words of a line on standard error. Standard output has the number alone.
use arbiter::Refusal;
use std::fmt;

#[derive(Clone, Copy)]
pub struct Reason(pub Refusal);

impl fmt::Display for Reason {
    fn fmt<W: fmt::Write>(&self, f: &mut fmt::Formatter<W>) -> fmt::Result {
        match self.0 {
            Refusal::TraceCut => write!(f, "cut short"),
            Refusal::TooManyEvents => write!(f, "over 4096"),
            Refusal::BytesAfterEnd => write!(f, "too long"),
            Refusal::BadStraps => write!(f, "bad pins"),
            Refusal::NoRoom => write!(f, "no room"),
            Refusal::BadCount => write!(f, "bad count"),
            Refusal::UnknownPart => write!(f, "bad kind"),
        }
    }
}

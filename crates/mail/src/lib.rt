// The mail that the two masters send each other (request #111): the one type. What is said of it is written in specs/, and specs/Lib.antt lists
// the files in reading order.
#![tactic(auto)]

// A takeover word: the two bytes of a mailbox.
#[derive(Clone, Copy)]
pub struct Word {
    pub low: u8,
    pub high: u8,
}

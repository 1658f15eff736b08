// A character of a text, as an element of a line.
use crate::leveled::Leveled;

/// A character: where its bytes start in the text, how many there are, and its level.
#[derive(Clone, Copy)]
pub struct Character {
    pub start: usize,
    pub len: usize,
    pub level: u8,
}

impl Leveled for Character {
    ghost depth = { λ c. c.level };

    fn level(&self) -> u8 {
        self.level
    }
}

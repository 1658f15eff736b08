// A range as an element of a line: it tells its level.
use crate::line::VlRange;
use visual_order::Leveled;

impl Leveled for VlRange {
    ghost depth = { λ r. r.level };

    fn level(&self) -> u8 {
        self.level
    }
}

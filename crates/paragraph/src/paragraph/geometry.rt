// The geometry of a paragraph: which positions exist, what is ahead of them, and where to begin.
ghost use Rattle.paragraph.specs.Before.{position_before, JustBefore};
ghost use Rattle.paragraph.specs.Holds.{text_of};
ghost use Rattle.paragraph.specs.Laws.{RanksOn};
ghost use Rattle.paragraph.specs.Ranks.{ahead_count};
ghost use Rattle.paragraph.specs.Reading.{exists, begin, reading, ahead};
ghost use Rattle.std.specs.Prelude.{◌≡◌, true, false, MatchOption};

use super::Paragraph;
use crate::place::Position;

impl Paragraph {
    /// Whether a position exists. Without spans (0, 0, 0) is the one that does.
    pub fn exists(&self, position: Position) -> bool
        ensures { result ≡ exists (text_of self.now) position }
    {
        self.tables().exists(position)
    }

    /// Where an entry begins: at a position with all glyphs ahead.
    pub fn begin(&self) -> Position
        ensures exact { result ≡ begin (text_of self.now) }
        ensures there { exists (text_of self.now) result ≡ true }
        ensures all_ahead { ahead (text_of self.now) result ≡ reading (text_of self.now) }
    {
        self.tables().begin()
    }

    /// How many glyphs are ahead of a position, if it exists. Offsets suffice: no glyph is read.
    pub fn ahead_count(&self, position: Position) -> Option<usize>
        ensures exact { result ≡ ahead_count (text_of self.now) position }
        ensures ranks_on { MatchOption result (exists (text_of self.now) position ≡ false) (RanksOn (text_of self.now) position) }
    {
        self.tables().ahead_count(position)
    }

    /// The position just before the glyph with a rank in reading order, or the end where none has it.
    pub fn position_before(&self, rank: usize) -> Position
        ensures exact { result ≡ position_before (text_of self.now) rank }
        ensures before { JustBefore (text_of self.now) rank result }
    {
        self.tables().position_before(rank)
    }
}

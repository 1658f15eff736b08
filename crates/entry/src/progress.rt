// How far an entry has come.
ghost use Rattle.entry.specs.Lines.{after_close, after_take};
ghost use Rattle.entry.specs.Steps.{begun, standing};
ghost use Rattle.paragraph.specs.Lent.{lent};
ghost use Rattle.std.specs.Prelude.{◌≡◌, ◌+◌, ◌-◌, ◌^◌, ◌<◌, ◌≤◌, length};

use paragraph::place::Position;
use paragraph::tables::SoundTables;

/// How many lines were laid, how many glyphs stand on them, how many the closing line hid, and how many are ahead now.
#[derive(Clone, Copy, PartialEq, Eq, Default, Debug)]
pub struct Tally {
    pub lines: usize,
    pub laid: usize,
    pub hidden: usize,
    pub left: usize,
}

/// All that calls change of an entry, as one record.
#[derive(Clone, Copy, PartialEq, Eq, Debug)]
pub struct Progress {
    pub position: Position,
    pub tally: Tally,
    pub closed: bool,
}

impl Progress {
    /// At the beginning of a paragraph.
    pub(crate) fn begin(tables: SoundTables<'_>) -> Progress
        ensures { result ≡ begun (lent tables.entry.rows) }
    {
        Progress {
            position: tables.begin(),
            tally: Tally {
                left: tables.rows.glyphs.len(),
                ..Tally::default()
            },
            closed: false,
        }
    }

    /// After a line of `laid` glyphs was taken. The position is just before the next glyph.
    pub(crate) fn after_take(self, tables: SoundTables<'_>, laid: usize) -> Progress
        requires some { laid ≤ self.tally.left }
        requires in_text { self.tally.left ≤ length (lent tables.rows).glyphs }
        requires few_lines { self.tally.lines < 2 ^ 32 }
        requires few_glyphs { self.tally.laid < 2 ^ 32 }
        ensures { result ≡ after_take self (standing (lent tables.entry.rows) (self.tally.left - laid)) laid }
    {
        let tally = self.tally;
        let left = tally.left - laid;
        Progress {
            position: tables.position_before(tables.rows.glyphs.len() - left),
            tally: Tally {
                lines: tally.lines + 1,
                laid: tally.laid + laid,
                left,
                ..tally
            },
            closed: false,
        }
    }

    /// After the closing line, of `laid` glyphs: all the others that were ahead are hidden.
    pub(crate) fn after_close(self, laid: usize) -> Progress
        requires some { laid ≤ self.tally.left }
        requires few_lines { self.tally.lines < 2 ^ 32 }
        requires few_glyphs { self.tally.laid + self.tally.hidden + self.tally.left < 2 ^ 32 }
        ensures { result ≡ after_close self laid }
    {
        let tally = self.tally;
        Progress {
            tally: Tally {
                lines: tally.lines + 1,
                laid: tally.laid + laid,
                hidden: tally.hidden + (tally.left - laid),
                left: 0,
            },
            closed: true,
            ..self
        }
    }
}

// A position that exists, with the tables in which it does.
ghost use Rattle.paragraph.specs.Lent.{lent};
ghost use Rattle.paragraph.specs.Reading.{exists};
ghost use Rattle.std.specs.Prelude.{◌≡◌, true};

use crate::place::Position;
use crate::tables::SoundTables;

/// What is ahead of a position: the position, and the tables in which it stands.
#[derive(Clone, Copy)]
pub struct Ahead<'a> {
    pub tables: SoundTables<'a>,
    pub position: Position,
    ghost stands: { exists (lent tables.rows) position ≡ true },
}

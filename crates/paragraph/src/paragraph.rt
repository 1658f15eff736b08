// The paragraph itself: owned tables of which it is known that they were checked.
ghost use Rattle.paragraph.specs.Lawful.{InRange};
ghost use Rattle.paragraph.specs.Lent.{text_in};
ghost use Rattle.paragraph.specs.Text.{Sound};
ghost use Rattle.std.proofs.Props.{props};
ghost use Rattle.std.specs.Prelude.{◌≤◌, length};

use crate::tables::OwnedTables;

mod fill;
mod geometry;

/// A paragraph: its tables, its ellipsis and its direction.
///
/// Whoever holds one knows that its tables are sound: they were checked, or there are none.
#[derive(Drop)]
pub struct Paragraph {
    tables: OwnedTables,
    ghost sound: { Sound (text_in tables) },
    ghost in_range: { InRange tables.glyphs.items } by { Prim.hlevel props },
    ghost short_ellipsis: { length tables.ellipsis.items ≤ 16 },
    ghost ellipsis_in_range: { InRange tables.ellipsis.items } by { Prim.hlevel props },
}

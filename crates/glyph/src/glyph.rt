ghost use Rattle.std.specs.Prelude.{◌≤◌};

/// A shaped glyph: the bytes of the text that it stands for, and how far it moves the pen in each of three ways of measuring.
///
/// Any value of the fields' types makes a glyph; whether they are in range is checked where a paragraph is made.
#[derive(Clone, Copy)]
pub struct Glyph {
    /// The first byte of the text that the glyph stands for.
    pub start: u16,
    /// The byte after the last one.
    pub end: u16,
    /// The advance in ems, 0 to 64.
    pub advance: f32,
    /// A size of the glyph's own, 0 to 4,096 points, in place of the measure's.
    pub size: Option<f32>,
    /// The advance in 64ths of a pixel.
    pub units: u16,
    /// The terminal cells that the glyph takes: 0, 1 or 2.
    pub cells: u8,
    // what the fields' types hold, for proofs: exact measures lean on it
    ghost fits: { (start ≤ 65535) × (end ≤ 65535) × (units ≤ 65535) × (cells ≤ 255) },
}

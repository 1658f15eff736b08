// The laws of reading order, ranks and positions, of every sound text.
ghost use Rattle.paragraph.specs.Laws.{ReadingFits};

/// Reading order has each glyph once, at its rank; what is ahead of a position is what ranks from it on; each rank has a position just before it.
pub fn reading_laws()
    ensures { ReadingFits }
{}

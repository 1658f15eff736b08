// The bytes that an ellipsis stands for.
ghost use Rattle.std.specs.Prelude.{◌≡◌, min, length};
ghost use Rattle.layout.specs.Elided.{elided_bytes, if_any, largest_end, range_glyphs, smallest_start};
ghost use Rattle.paragraph.specs.Reading.{boundary};
ghost use Rattle.paragraph.specs.Lent.{lent};

use crate::line::ElidedBytes;
use glyph::glyph::Glyph;
use paragraph::place::Place;
use paragraph::span::Span;
use paragraph::tables::Tables;
use walk::line::VlRange;

// How many glyphs of the table stand before a place of a span. No range is refused here: past the table a place is its end.
fn glyphs_before(tables: Tables<'_>, span: Span, place: Place) -> usize
    ensures { result ≡ min (boundary (lent tables.entry) span place) (length tables.entry.glyphs.now) }
{
    let word = tables.word_at(span.offset.saturating_add(place.word));
    word.offset
        .saturating_add(place.glyph)
        .min(tables.glyphs.len())
}

/// The glyphs of a range, in table order. The ellipsis has none of the paragraph's.
pub fn glyphs_of_range<'a>(tables: Tables<'a>, range: VlRange) -> &'a [Glyph]
    ensures { result.now ≡ range_glyphs (lent tables.entry) range }
{
    let Some(s) = range.span else {
        return &[];
    };
    let span = tables.span_at(s);
    let start = glyphs_before(tables, span, range.start);
    let end = glyphs_before(tables, span, range.end);
    tables.glyphs.get(start..end).unwrap_or(&[])
}

/// The largest end byte of some glyphs, 0 if there are none.
pub fn largest_end(glyphs: &[Glyph]) -> usize
    ensures { result ≡ largest_end glyphs.now }
{
    glyphs
        .iter()
        .fold(0, |largest: usize, g| largest.max(g.end as usize))
}

/// The smallest start byte of some glyphs, the largest that there can be if there are none.
pub fn smallest_start(glyphs: &[Glyph]) -> usize
    ensures { result ≡ smallest_start glyphs.now }
{
    glyphs.iter().fold(65_535, |smallest: usize, g| smallest.min(g.start as usize))
}

/// The largest end byte of some glyphs, if there are any.
pub fn largest_end_if_any(glyphs: &[Glyph]) -> Option<usize>
    ensures { result ≡ if_any largest_end glyphs.now }
{
    (!glyphs.is_empty()).then(|| largest_end(glyphs))
}

/// The smallest start byte of some glyphs, if there are any.
pub fn smallest_start_if_any(glyphs: &[Glyph]) -> Option<usize>
    ensures { result ≡ if_any smallest_start glyphs.now }
{
    (!glyphs.is_empty()).then(|| smallest_start(glyphs))
}

/// The bytes that an ellipsis stands for between the ranges before it and those behind it. Where no glyph stands before it they begin at
/// `none_before`.
pub fn elided_bytes(
    tables: Tables<'_>,
    none_before: usize,
    before: &[VlRange],
    behind: &[VlRange],
) -> ElidedBytes
    ensures { result ≡ elided_bytes (lent tables.entry) none_before before.now behind.now }
{
    let last = before
        .iter()
        .rev()
        .find_map(|r| largest_end_if_any(glyphs_of_range(tables, *r)));
    let first = behind
        .iter()
        .find_map(|r| smallest_start_if_any(glyphs_of_range(tables, *r)));
    ElidedBytes {
        start: last.unwrap_or(none_before),
        end: first.unwrap_or_else(|| largest_end(tables.glyphs)),
    }
}

// A line as a person sees it.
use glyph::glyph::Glyph;
use layout::elided::glyphs_of_range;
use paragraph::direction::Direction;
use paragraph::tables::Tables;
use std::alloc::{AllocError, Global};
use walk::line::VlRange;

// What a glyph shows: its bytes of the text, or nothing where they are no characters of it.
fn glyph_text<'a>(text: &'a str, glyph: Glyph) -> &'a str {
    let start = usize::from(glyph.start);
    let end = usize::from(glyph.end);
    text.get(start..end).unwrap_or("")
}

// A range's glyphs from left to right. Tables hold them so in a left-to-right paragraph, whatever their level, and the other way around in a
// right-to-left one: reading order takes the spans against the paragraph's direction from their last glyph to their first.
fn range_seen(
    heap: Global,
    text: &str,
    tables: Tables<'_>,
    range: VlRange,
) -> Result<String, AllocError> {
    if range.span.is_none() {
        return String::from_str(heap, "…");
    }
    let glyphs = glyphs_of_range(tables, range).iter();
    let seen = glyphs.map(|glyph| glyph_text(text, *glyph));
    match tables.direction {
        Direction::LeftToRight => seen.collect(heap),
        Direction::RightToLeft => seen.rev().collect(heap),
    }
}

/// A line's ranges in visual order.
pub(crate) fn seen_row(
    heap: Global,
    text: &str,
    tables: Tables<'_>,
    ranges: &[VlRange],
    order: &[usize],
) -> Result<String, AllocError> {
    let mut row = String::from_str(heap, "seen: ")?;
    for range in order.iter().filter_map(|i| ranges.get(*i)) {
        let seen = range_seen(heap, text, tables, *range)?;
        row.push_str(seen.as_str())?;
    }
    row.push_str("\n")?;
    Ok(row)
}

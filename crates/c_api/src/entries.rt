// Entries over paragraphs that are made up here, to be timed: only numbers cross, and nothing is to be compared with.
use crate::plain::mode_of;
use entry::entry::Entry;
use glyph::glyph::Glyph;
use measure::points::Points;
use paragraph::check::check;
use paragraph::paragraph::Paragraph;
use paragraph::span::Span;
use paragraph::tables::OwnedTables;
use paragraph::word::Word;
use std::alloc::{AllocError, Global};
use walk::line::VlRange;

// A glyph of one em.
const EM: Glyph = Glyph {
    start: 0,
    end: 1,
    advance: 1.0,
    size: None,
    units: 64,
    cells: 1,
};

/// How large a made-up paragraph is: `spans` spans at levels 0 and 1 in turn, each of `words` words, of which every other one is blank, each of
/// `glyphs` glyphs of one em.
#[repr(C)]
#[derive(Clone, Copy)]
pub struct Extent {
    pub spans: usize,
    pub words: usize,
    pub glyphs: usize,
}

/// What is done with an entry: lines of a width taken, up to so many, and then a closing line of the same width by a mode (0 none, 1 start, 2 middle, 3 end),
/// or no closing line (any other number).
// C has no enums, so that a number stands for the mode.
#[repr(C)]
#[derive(Clone, Copy)]
pub struct Calls {
    pub width: f32,
    pub takes: usize,
    pub mode: u8,
}

fn make_up(heap: Global, extent: &Extent) -> Result<OwnedTables, AllocError> {
    let mut made = OwnedTables::new(heap);
    for s in 0..extent.spans {
        let first_word = made.words.len();
        for w in 0..extent.words {
            let first_glyph = made.glyphs.len();
            for _ in 0..extent.glyphs {
                made.glyphs.push(EM)?;
            }
            made.words.push(Word {
                blank: w % 2 == 1,
                offset: first_glyph,
                len: extent.glyphs,
            })?;
        }
        made.spans.push(Span {
            level: u8::from(s % 2 == 1),
            offset: first_word,
            len: extent.words,
        })?;
    }
    made.ellipsis.push(EM)?;
    Ok(made)
}

fn check_tables(made: &OwnedTables, times: usize) -> usize {
    (0..times)
        .filter(|_| check(made.lent(), &made.ellipsis).is_ok())
        .count()
}

/// Makes a paragraph's tables up and checks them `times` times over. Answers how often they were sound.
#[unsafe(no_mangle)]
pub extern "C" fn cudinstant_check_often(heap: Global, extent: &Extent, times: usize) -> usize {
    make_up(heap, extent).map_or(0, |made| check_tables(&made, times))
}

fn open(paragraph: &mut Paragraph, made: OwnedTables) -> Option<Entry<Points>> {
    let points = Points::new(1.0).ok()?;
    Entry::open(paragraph, made, points).ok()
}

fn make_calls(
    entry: &mut Entry<Points>,
    paragraph: &Paragraph,
    calls: &Calls,
    ranges: &mut [VlRange],
    order: &mut [usize],
) {
    for _ in 0..calls.takes {
        if entry.take(paragraph, calls.width, ranges, order).is_err() {
            return;
        }
    }
    if let Some(mode) = mode_of(calls.mode) {
        let _ = entry.close(paragraph, mode, Some(calls.width), ranges, order);
    }
}

/// Makes a paragraph's tables up, opens an entry on them, makes the calls, and answers how many glyphs stand on its lines.
#[unsafe(no_mangle)]
pub extern "C" fn cudinstant_lay_entry(heap: Global, extent: &Extent, calls: &Calls) -> usize {
    let Ok(made) = make_up(heap, extent) else {
        return 0;
    };
    let mut paragraph = Paragraph::empty(heap);
    let Some(mut entry) = open(&mut paragraph, made) else {
        return 0;
    };
    let mut ranges = [VlRange::default(); 258];
    let mut order = [0; 258];
    make_calls(&mut entry, &paragraph, calls, &mut ranges, &mut order);
    entry.tally().laid
}

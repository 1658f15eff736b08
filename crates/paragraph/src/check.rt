// The check of tables, one small function for each kind of fault.
ghost use Rattle.glyph.specs.Ranges.{glyph_in};
ghost use Rattle.paragraph.specs.Lent.{lent};
ghost use Rattle.paragraph.specs.Lawful.{GrantedExactly, RefusedExactly};
ghost use Rattle.paragraph.specs.Pieces.{first_failing, first_loose};
ghost use Rattle.paragraph.specs.Verdict.{verdict, rows_verdict, glyphs_verdict, words_verdict, spans_verdict, ellipsis_verdict, limited, refused_at};
ghost use Rattle.std.specs.Prelude.{◌≡◌, not, position};

use crate::fault::{TableCause, TableFault, TableName};
use crate::row::Row;
use crate::tables::Tables;
use glyph::glyph::Glyph;

const MOST_GLYPHS: usize = 16_384;

const MOST_WORDS: usize = 4_096;

const MOST_SPANS: usize = 256;

const MOST_ELLIPSIS_GLYPHS: usize = 16;

// The first glyph with a field out of its range.
fn first_out_of_range(glyphs: &[Glyph]) -> Option<usize>
    ensures { result ≡ position (λ g. not (glyph_in g)) glyphs.now }
{
    glyphs.iter().position(|glyph| !glyph.in_range())
}

// The first row that does not go on where the one before it ended, or the row after the last if they end short of the `n` rows below. A loop, since the
// place is carried along, which `position` does not do.
fn first_loose<R: Row>(rows: &[R], n: usize) -> Option<usize>
    ensures { result ≡ first_loose R.Row.piece_of n 0 0 rows.now }
{
    let mut at: usize = 0;
    for (i, row) in rows.iter().enumerate() {
        let piece = row.piece();
        if !piece.follows(at, n) {
            return Some(i);
        }
        at += piece.len;
    }
    if at == n { None } else { Some(rows.len()) }
}

fn limit(table: TableName, most: usize, rows: usize) -> Result<(), TableFault>
    ensures { result ≡ limited table most rows }
{
    if rows > most {
        return Err(TableFault {
            cause: TableCause::TooManyRows,
            row: most,
            table,
        });
    }
    Ok(())
}

fn refuse_at(cause: TableCause, table: TableName, found: Option<usize>) -> Result<(), TableFault>
    ensures { result ≡ refused_at cause table found }
{
    match found {
        Some(row) => Err(TableFault { cause, row, table }),
        None => Ok(()),
    }
}

fn check_row_counts(tables: Tables<'_>) -> Result<(), TableFault>
    ensures { result ≡ rows_verdict (lent tables.entry) }
{
    limit(TableName::Glyphs, MOST_GLYPHS, tables.glyphs.len())?;
    limit(TableName::Words, MOST_WORDS, tables.words.len())?;
    limit(TableName::Spans, MOST_SPANS, tables.spans.len())
}

#[tactic(auto, using(crate::proofs::Rows::failing_position))]
fn check_glyphs(tables: Tables<'_>) -> Result<(), TableFault>
    ensures { result ≡ glyphs_verdict (lent tables.entry) }
{
    refuse_at(
        TableCause::GlyphField,
        TableName::Glyphs,
        first_out_of_range(tables.glyphs),
    )
}

fn check_words(tables: Tables<'_>) -> Result<(), TableFault>
    ensures { result ≡ words_verdict (lent tables.entry) }
{
    refuse_at(
        TableCause::WordPair,
        TableName::Words,
        first_loose(tables.words, tables.glyphs.len()),
    )
}

fn check_spans(tables: Tables<'_>) -> Result<(), TableFault>
    ensures { result ≡ spans_verdict (lent tables.entry) }
{
    refuse_at(
        TableCause::SpanRow,
        TableName::Spans,
        first_loose(tables.spans, tables.words.len()),
    )
}

#[tactic(auto, using(crate::proofs::Rows::failing_position))]
fn check_ellipsis(ellipsis: &[Glyph]) -> Result<(), TableFault>
    ensures { result ≡ ellipsis_verdict ellipsis.now }
{
    let count = ellipsis.len();
    let found = if count == 0 {
        Some(0)
    } else if count > MOST_ELLIPSIS_GLYPHS {
        Some(MOST_ELLIPSIS_GLYPHS)
    } else {
        first_out_of_range(ellipsis)
    };
    refuse_at(TableCause::Ellipsis, TableName::Ellipsis, found)
}

// The checks in the order of their numbers: each is made only if those before it found nothing.
fn run_checks(tables: Tables<'_>, ellipsis: &[Glyph]) -> Result<(), TableFault>
    ensures { result ≡ verdict (lent tables.entry) ellipsis.now }
{
    check_row_counts(tables)?;
    check_glyphs(tables)?;
    check_words(tables)?;
    check_spans(tables)?;
    check_ellipsis(ellipsis)
}

/// Whether the tables are those of a paragraph, or else their first fault: by its number first, then by its row.
pub fn check(tables: Tables<'_>, ellipsis: &[Glyph]) -> Result<(), TableFault>
    ensures exact { result ≡ verdict (lent tables.entry) ellipsis.now }
    ensures granted { GrantedExactly (lent tables.entry) ellipsis.now result }
    ensures refused { RefusedExactly (lent tables.entry) ellipsis.now result }
{
    run_checks(tables, ellipsis)
}

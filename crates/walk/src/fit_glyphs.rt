// The glyphs that an overflowing word gives.
ghost use Rattle.std.specs.Prelude.{◌≡◌, ◌+◌, ◌≤◌, length};
ghost use Rattle.walk.specs.Fit.{cut, fits};

use crate::line::Rule;
use crate::places::Places;
use glyph::glyph::Glyph;
use measure::measure::Measure;

/// Takes glyphs of `row`, of those at `places`, in the walk's direction, while `before` and they together are not over `limit`, and
/// answers the place where that ends together with the width taken. `taken` is what was taken of the word before.
///
/// The first glyph that does not fit ends it: nothing narrower behind it is let in.
pub fn fit_glyphs<M: Measure>(
    m: &M,
    row: &[Glyph],
    places: Places,
    before: M::Width,
    limit: M::Width,
    taken: M::Width,
) -> (usize, M::Width)
    requires { places.first + places.count ≤ length row.now }
    ensures { result ≡ fits M.Measure m.now row.now places.up before limit taken places.first places.count }
{
    let mut width = taken;
    let mut left = places;
    let mut edge = left.edge();
    while let Some(i) = left.next() {
        let x = m.width(&row[i]);
        if m.over(m.sum(m.sum(before, width), x), limit) {
            return (edge, width);
        }
        width = m.sum(width, x);
        edge = left.edge();
    }
    (edge, width)
}

/// What an overflowing word gives, of the glyphs of `row` at `places`: the place of the cut, and the width. `laid` is how many glyphs the line has
/// before the word.
pub fn cut_word<M: Measure>(
    m: &M,
    rule: Rule<M::Width>,
    row: &[Glyph],
    places: Places,
    before: M::Width,
    laid: usize,
) -> (usize, M::Width)
    requires { places.first + places.count ≤ length row.now }
    ensures { result ≡ cut M.Measure m.now rule row.now places.up before laid places.first places.count }
{
    match rule {
        Rule::Never => (places.edge(), m.zero()),
        Rule::Closing { width, ellipsis } => {
            let limit = m.difference(width, ellipsis);
            fit_glyphs(m, row, places, before, limit, m.zero())
        }
        Rule::Taking { width } => {
            let mut left = places;
            match left.next() {
                Some(i) if laid == 0 => {
                    let taken = m.sum(m.zero(), m.width(&row[i]));
                    fit_glyphs(m, row, left, before, width, taken)
                }
                _ => (places.edge(), m.zero()),
            }
        }
    }
}

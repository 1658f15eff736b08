// Walking a line: the words ahead of a position are taken one by one until one does not fit.
//
// - `layout_spans`: the walk; `walk_words`, `walk_whole`: through one span, and where nothing overflows; `line`: what it is given and what it tells;
// - `places`: the places that it still has to visit, up or down a table; `ahead`, `span_ahead`, `rest`: what is ahead, span by span and word by word;
// - `part`, `span_part`: what is laid of a span; `widths`, `overflow`: how wide words are, and which does not fit;
// - `fit_glyphs`: the glyphs that such a word gives; `put`: the ranges written; `whole_ranges`: those of all that is ahead.
#![tactic(auto)]

mod ahead;
mod fit_glyphs;
pub mod layout_spans;
pub mod leveled;
pub mod line;
mod overflow;
mod part;
mod places;
mod put;
mod rest;
mod span_ahead;
mod span_part;
mod walk_whole;
mod walk_words;
pub mod whole_ranges;
mod widths;

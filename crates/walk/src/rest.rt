// What is still to walk.
ghost use Rattle.paragraph.specs.Aheads.{text_at};
ghost use Rattle.std.specs.Prelude.{◌+◌, ◌≤◌, length};
ghost use Rattle.walk.specs.Inside.{ReachesAll};

use crate::places::Places;
use crate::span_ahead::SpanAhead;

/// What is still to walk behind a word: these words of its span, and then these spans.
#[derive(Clone, Copy)]
pub struct Rest<'a> {
    pub own: SpanAhead<'a>,
    pub words: Places,
    pub spans: Places,
    ghost reaches: { ReachesAll own.stretch words },
    ghost there: { spans.first + spans.count ≤ length (text_at own.ahead).spans },
}

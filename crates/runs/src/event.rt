// What a run records.
use entry::fault::CallFault;
use entry::progress::Tally;
use layout::line::VisualLine;
use walk::line::VlRange;

/// A line that was laid: its ranges in reading order, their visual order by index, and what it tells.
#[derive(Drop)]
pub struct LaidLine<W> {
    pub ranges: Vec<VlRange>,
    pub order: Vec<usize>,
    pub line: VisualLine<W>,
}

/// What a call answered.
#[derive(Drop)]
pub enum Event<W> {
    Laid(LaidLine<W>),
    Refused(CallFault),
    Counted(Tally),
}

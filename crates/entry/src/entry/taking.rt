// Taking a line.
ghost use Rattle.entry.specs.Continues.{Takes};
ghost use Rattle.entry.specs.Entries.{progress_of};
ghost use Rattle.entry.specs.Granted.{GrantedExactly};
ghost use Rattle.entry.specs.Outcomes.{ComesTo, MayTakeOn, taken_on};
ghost use Rattle.paragraph.specs.Holds.{text_of};
ghost use Rattle.std.specs.Prelude.{take, IfOk};

use super::Entry;
use crate::checks::Request;
use crate::fault::EntryFault;
use crate::lines::lay_taken;
use layout::line::VisualLine;
use measure::measure::Measure;
use paragraph::paragraph::Paragraph;
use walk::line::VlRange;

impl<M: Measure> Entry<M> {
    /// Lays what comes next as a line of this width. A word that does not fit ends the line; if the line has no glyph yet, that word gives its glyphs
    /// while they fit, and one at least.
    ///
    /// The line's ranges and their visual order are written into the first places of the two lists. Refused, with everything as it was, are in this
    /// order a closed entry, a paragraph that is a stranger to it, an unlawful width, a list that is too short, and an entry with nothing left.
    pub fn take(
        &mut self,
        paragraph: &Paragraph,
        width: M::Width,
        ranges: &mut [VlRange],
        order: &mut [usize],
    ) -> Result<VisualLine<M::Width>, EntryFault>
        ensures granted { GrantedExactly (MayTakeOn M.Measure self.old paragraph.now ranges.old order.old width) result }
        ensures outcome { ComesTo (taken_on M.Measure self.old paragraph.now ranges.old order.old width) self.old self.new result ranges.old ranges.new order.old order.new }
        ensures continues { IfOk result (λ line. Takes (text_of paragraph.now) (progress_of self.old) (progress_of self.new) (take line.ranges ranges.new) (take line.ranges order.new)) }
    {
        let request = Request {
            tables: paragraph.tables(),
            progress: self.progress,
            lawful: self.measure.lawful(width),
            ranges: ranges.len(),
            order: order.len(),
        };
        let ahead = request.check_take()?;
        let line = lay_taken(&self.measure, ahead, width, ranges, order);
        self.progress = self.progress.after_take(ahead.tables, line.laid);
        Ok(line)
    }
}

// Closing an entry.
ghost use Rattle.entry.specs.Continues.{Closes};
ghost use Rattle.entry.specs.Entries.{progress_of};
ghost use Rattle.entry.specs.Granted.{GrantedExactly};
ghost use Rattle.entry.specs.Outcomes.{ComesTo, MayCloseOn, closed_on};
ghost use Rattle.paragraph.specs.Holds.{text_of};
ghost use Rattle.std.specs.Prelude.{take, IfOk};

use super::Entry;
use crate::checks::Request;
use crate::fault::EntryFault;
use crate::lines::lay_closing;
use layout::line::{Ellipsize, VisualLine};
use measure::measure::Measure;
use paragraph::paragraph::Paragraph;
use walk::line::VlRange;

impl<M: Measure> Entry<M> {
    /// Lays what is ahead as the last line, by a mode and a width, and closes the entry. Without a mode or a width nothing overflows; else the ellipsis
    /// stands where what is ahead does not fit.
    ///
    /// The line's ranges and their visual order are written into the first places of the two lists. Refused, with everything as it was, are in this
    /// order a closed entry, a paragraph that is a stranger to it, an unlawful width, and a list that is too short.
    pub fn close(
        &mut self,
        paragraph: &Paragraph,
        ellipsize: Ellipsize,
        width: Option<M::Width>,
        ranges: &mut [VlRange],
        order: &mut [usize],
    ) -> Result<VisualLine<M::Width>, EntryFault>
        ensures granted { GrantedExactly (MayCloseOn M.Measure self.old paragraph.now ranges.old order.old width) result }
        ensures outcome { ComesTo (closed_on M.Measure self.old paragraph.now ranges.old order.old ellipsize width) self.old self.new result ranges.old ranges.new order.old order.new }
        ensures continues { IfOk result (λ line. Closes (text_of paragraph.now) (progress_of self.old) (progress_of self.new) (take line.ranges ranges.new) (take line.ranges order.new)) }
    {
        let m = &self.measure;
        let request = Request {
            tables: paragraph.tables(),
            progress: self.progress,
            lawful: width.is_none_or(|w| m.lawful(w)),
            ranges: ranges.len(),
            order: order.len(),
        };
        let ahead = request.check_line()?;
        let ellipsis = paragraph.ellipsis();
        let line = lay_closing(m, ahead, ellipsis, ellipsize, width, ranges, order);
        self.progress = self.progress.after_close(line.laid);
        Ok(line)
    }
}

// What is tested before a line is laid, in the order of the causes' numbers.
ghost use Rattle.entry.specs.Faults.{fault};
ghost use Rattle.entry.specs.Granted.{Checks, MayLay, MayTake, refused_if};
ghost use Rattle.entry.specs.Verdict.{known, line_verdict, take_verdict};
ghost use Rattle.paragraph.specs.Lent.{lent};
ghost use Rattle.std.specs.Prelude.{◌≡◌, ◌+◌, ⊤, true, false, length, nat_lt, MatchOption, OnOk};

use crate::fault::{CallCause, CallFault, CallTable};
use crate::progress::Progress;
use paragraph::ahead::Ahead;
use paragraph::tables::SoundTables;

fn refuse_if(refused: bool, cause: CallCause, row: usize, table: CallTable) -> Result<(), CallFault>
    ensures { result ≡ refused_if refused (fault cause row table) }
{
    if refused {
        return Err(CallFault { cause, row, table });
    }
    Ok(())
}

/// A line that is asked for: the tables that are lent, how far the entry has come, whether the line's width is lawful, and how long the lists are that
/// it is to be written to.
#[derive(Clone, Copy)]
pub(crate) struct Request<'a> {
    pub tables: SoundTables<'a>,
    pub progress: Progress,
    pub lawful: bool,
    pub ranges: usize,
    pub order: usize,
}

impl<'a> Request<'a> {
    // What is ahead of the entry's position, if that exists in the tables and has as many glyphs ahead as the entry has left.
    fn ahead(self) -> Option<Ahead<'a>>
        ensures known { MatchOption result (known (lent self.entry.tables.rows) self.entry.progress ≡ false) (λ _. known (lent self.entry.tables.rows) self.entry.progress ≡ true) }
        ensures there { MatchOption result ⊤ (λ a. (a.tables ≡ self.entry.tables) × (a.position ≡ self.entry.progress.position)) }
    {
        self.tables
            .ahead_of(self.progress.position)
            .filter(|ahead| ahead.count() == self.progress.tally.left)
    }

    // A list has two places more than there are spans. One that is shorter is at fault at the row after its last.
    fn check_places(self, places: usize, table: CallTable) -> Result<(), CallFault>
        ensures { result ≡ refused_if (nat_lt places (length (lent self.entry.tables.rows).spans + 2)) (fault CallCause.ListTooShort places table) }
    {
        let needed = self.tables.rows.spans.len() + 2;
        refuse_if(places < needed, CallCause::ListTooShort, places, table)
    }

    /// Whether the line may be laid: what is ahead then.
    pub(crate) fn check_line(self) -> Result<Ahead<'a>, CallFault>
        ensures exact { Checks self.entry.tables self.entry.progress (line_verdict (lent self.entry.tables.rows) self.entry.progress self.entry.lawful self.entry.ranges self.entry.order) result }
        ensures granted { OnOk result (MayLay (lent self.entry.tables.rows) self.entry.progress self.entry.lawful self.entry.ranges self.entry.order) }
    {
        let progress = self.progress;
        refuse_if(progress.closed, CallCause::Closed, 0, CallTable::Entry)?;
        let Some(ahead) = self.ahead() else {
            return Err(CallFault {
                cause: CallCause::Stranger,
                row: 0,
                table: CallTable::Paragraph,
            });
        };
        refuse_if(!self.lawful, CallCause::UnlawfulWidth, 0, CallTable::Width)?;
        self.check_places(self.ranges, CallTable::Ranges)?;
        self.check_places(self.order, CallTable::Order)?;
        Ok(ahead)
    }

    /// Whether it may be taken: the same, and last that there is a glyph left.
    pub(crate) fn check_take(self) -> Result<Ahead<'a>, CallFault>
        ensures exact { Checks self.entry.tables self.entry.progress (take_verdict (lent self.entry.tables.rows) self.entry.progress self.entry.lawful self.entry.ranges self.entry.order) result }
        ensures granted { OnOk result (MayTake (lent self.entry.tables.rows) self.entry.progress self.entry.lawful self.entry.ranges self.entry.order) }
    {
        let ahead = self.check_line()?;
        let none_left = self.progress.tally.left == 0;
        refuse_if(none_left, CallCause::NothingLeft, 0, CallTable::Entry)?;
        Ok(ahead)
    }
}

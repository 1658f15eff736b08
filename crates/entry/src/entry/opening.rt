// How an entry is opened, and its tally.
ghost use Rattle.entry.specs.Entries.{progress_of};
ghost use Rattle.entry.specs.Outcomes.{Begins, OpensBy};
ghost use Rattle.paragraph.specs.Lent.{text_in};
ghost use Rattle.paragraph.specs.Verdict.{verdict};
ghost use Rattle.std.specs.Prelude.{◌≡◌, MatchResult};

use super::Entry;
use crate::fault::EntryFault;
use crate::progress::{Progress, Tally};
use paragraph::paragraph::Paragraph;
use paragraph::tables::OwnedTables;

impl<M: Drop> Entry<M> {
    /// Fills the paragraph with these tables, in place of those that it held, and begins an entry on it over the measure. Tables that are refused leave
    /// the paragraph as it was, and the measure is let go.
    pub fn open(
        paragraph: &mut Paragraph,
        tables: OwnedTables,
        measure: M,
    ) -> Result<Entry<M>, EntryFault>
        ensures answer { OpensBy (verdict (text_in tables) tables.ellipsis.items) result }
        ensures leaves { MatchResult result (λ e. (paragraph.new.tables ≡ tables) × Begins paragraph.new measure e) (λ _. paragraph.new ≡ paragraph.old) }
    {
        paragraph.fill(tables)?;
        let progress = Progress::begin(paragraph.tables());
        Ok(Entry { measure, progress })
    }
}

impl<M> Entry<M> {
    /// How many lines were laid, how many glyphs stand on them, how many the closing line hid, and how many are ahead now.
    pub fn tally(&self) -> Tally
        ensures { result ≡ (progress_of self.now).tally }
    {
        self.progress.tally
    }
}

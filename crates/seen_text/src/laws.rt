// What holds of the format itself, and of the level resets.
ghost use Rattle.seen_text.specs.Answer.{Example, ResetExample};
ghost use Rattle.seen_text.specs.Format.{OneReading};
ghost use Rattle.seen_text.specs.Resets.{ResetsByRule};

/// An input asks for one text and one list of levels, with or without level resets; these give exactly the characters that
/// rule L1 names the paragraph's level; and worked examples.
pub fn format_laws()
    ensures reading { OneReading }
    ensures rule { ResetsByRule }
    ensures example { Example }
    ensures resets { ResetExample }
{}

// What holds of rule L2 itself, for every list of levels.
ghost use Rattle.visual_order.specs.Laws.{Examples, OnceLaw, PairLaw, RunLaw, StandardExamples};

/// The theorems of the rule: what it is to reverse each longest run, which of two elements is seen first,
/// that each is seen once, and worked examples, those of UAX #9 among them.
pub fn order_laws()
    ensures runs { RunLaw }
    ensures pairs { PairLaw }
    ensures once { OnceLaw }
    ensures examples { Examples }
    ensures standard { StandardExamples }
{}

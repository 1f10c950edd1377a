//! Texts have one reading or one fault, and trees one value or one reason that they have none.
ghost use Rattle.av_expr.specs.Laws.{ExpressionsHaveOneReading, TreesHaveOneValue, ValuesAreExact};

/// Every text says one expression or has one fault, and never both.
pub fn expressions_have_one_reading()
    ensures { ExpressionsHaveOneReading }
{}

/// Every tree has one value or one reason that it has none, and never both. Its value is the rational number that it
/// denotes.
pub fn values_are_exact()
    ensures one { TreesHaveOneValue }
    ensures exact { ValuesAreExact }
{}

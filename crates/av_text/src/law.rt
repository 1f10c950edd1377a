//! Texts have one reading or one fault.
ghost use Rattle.av_text.specs.Laws.{TokensHaveOneReading, ArgsHaveOneReading};

/// Every text begins with one token or has one fault, and never both; and so for lists of arguments.
pub fn texts_have_one_reading()
    ensures tokens { TokensHaveOneReading }
    ensures args { ArgsHaveOneReading }
{}

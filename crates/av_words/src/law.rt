//! The law of words: they mean one command or have one fault.
ghost use Rattle.av_words.specs.CommandWords.{WordsSayOneThing};

/// Words, whatever they are, mean exactly one command or have exactly one fault that comes first, and never both. The limits of
/// inputs, output files and the text are among the faults. Its contract is the law; the call does nothing.
pub fn words_say_one_thing()
    ensures { WordsSayOneThing }
{}

//! The laws of files, of words and of commands.
ghost use Rattle.avgraph.specs.Headline.{CommandsHaveOneAnswer};

pub use av_words::law::words_say_one_thing;
pub use y4m_io::law::files_have_one_outcome;

/// Words ask for exactly one thing or are stopped by exactly one, and for what they ask a file has exactly one answer or is
/// stopped by exactly one thing. Its contract is the law; the call does nothing.
pub fn commands_have_one_answer()
    ensures { CommandsHaveOneAnswer }
{}

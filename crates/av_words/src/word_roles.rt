//! What each word of a command line is.
ghost use Rattle.std.specs.Prelude.{◌≡◌, ◌↔◌, map, string_bytes, IfOk, IsTrue, MatchOption, ℕ};
ghost use Rattle.av_words.specs.WordChecks.{IsLastOf};
ghost use Rattle.av_words.specs.WordFaults.{Lacks, IsLast};
ghost use Rattle.av_words.specs.declared.word_roles.Role.TheVariants.{Value};
ghost use Rattle.av_words.specs.WordRoles.{role_of, role_in, taker_of, said, line_of};

use std::alloc::{AllocError, Global};

/// An option that takes the word after it as its value, whatever it looks like.
#[derive(Clone, Copy, Debug, PartialEq, Eq)]
pub(crate) enum Valued {
    /// The number of workers.
    Workers,
    /// The number of slices.
    Slices,
    /// The order of filters.
    Order,
    /// An input file.
    Input,
    /// A made input.
    Generator,
    /// The graph text.
    Graph,
    /// The label of the open pad that the next output takes.
    Map,
}

/// What a word is.
#[derive(Clone, Copy, Debug, PartialEq, Eq)]
pub(crate) enum Role {
    /// A flag that changes nothing.
    Quiet,
    /// The flag that asks for a report.
    Report,
    /// An option.
    Names(Valued),
    /// The value of the option before it.
    Value(Valued),
    /// An output file.
    File,
    /// Nothing that is known.
    Unknown,
}

/// A word, and what it is there.
#[derive(Clone, Copy)]
pub(crate) struct Item<'a> {
    /// What it is.
    pub(crate) role: Role,
    /// The word itself.
    pub(crate) word: &'a str,
}

/// Whether the two are the same.
pub(crate) fn is_same(role: Role, other: Role) -> bool
    ensures { IsTrue result ↔ (role ≡ other) }
{
    role == other
}

/// What a word is that no option takes as its value.
fn role_of(word: &str) -> Role
    ensures { result ≡ role_of word.now }
{
    match word {
        "-y" => Role::Quiet,
        "-report" => Role::Report,
        "-workers" => Role::Names(Valued::Workers),
        "-slices" => Role::Names(Valued::Slices),
        "-order" => Role::Names(Valued::Order),
        "-i" => Role::Names(Valued::Input),
        "-g" => Role::Names(Valued::Generator),
        "-filter_complex" | "-lavfi" => Role::Names(Valued::Graph),
        "-map" => Role::Names(Valued::Map),
        _ if matches!(word.as_bytes(), [b'-', ..]) => Role::Unknown,
        _ => Role::File,
    }
}

/// What a word is after an option that takes it, or after none.
fn role_in(taker: Option<Valued>, word: &str) -> Role
    ensures { result ≡ role_in taker word.now }
{
    match taker {
        Some(option) => Role::Value(option),
        None => role_of(word),
    }
}

/// The option that takes the next word.
fn taker_of(role: Role) -> Option<Valued>
    ensures { result ≡ taker_of role }
{
    match role {
        Role::Names(option) => Some(option),
        _ => None,
    }
}

/// The words of a command line, and what each is.
pub(crate) fn read_items(alloc: Global, words: &[String]) -> Result<Vec<Item<'_>>, AllocError>
    ensures { IfOk result (λ items. line_of items.items ≡ said (map string_bytes words.now)) }
{
    let mut items = Vec::new(alloc);
    let mut taker = None;
    'words: for word in words {
        let word = word.as_str();
        let role = role_in(taker, word);
        items.push(Item { role, word })?;
        taker = taker_of(role);
    }
    Ok(items)
}

/// The number of the last word with a role.
pub(crate) fn last_of(items: &[Item], role: Role) -> Option<usize>
    ensures { IsLastOf (line_of items.now) role result }
{
    let mut last = None;
    'items: for (number, item) in items.iter().enumerate() {
        if is_same(item.role, role) {
            last = Some(number);
        }
    }
    last
}

/// The last value of an option.
pub(crate) fn last_value<'a>(items: &[Item<'a>], option: Valued) -> Option<&'a str>
    ensures { MatchOption result (Lacks (line_of items.now) (Value option)) (λ value. (at : ℕ) × IsLast (line_of items.now) (Value option) at value.now) }
{
    let at = last_of(items, Role::Value(option))?;
    Some(items[at].word)
}

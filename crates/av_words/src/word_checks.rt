//! The first fault of the words of a command line.
ghost use Rattle.std.specs.Prelude.{Option, Err, ◌≡◌, ◌<◌, ◌+◌, ◌↔◌, ◌++◌, ◌∷◌, [], ℕ, List, length, take, drop, map, IsTrue, IfOk};
ghost use Rattle.std.specs.Option.{is_some};
ghost use Rattle.av_words.specs.declared.word_roles.Role.TheVariants.{File};
ghost use Rattle.av_words.specs.WordRoles.{Said, line_of};
ghost use Rattle.av_words.specs.WordFaults.{Lacks, map_after, IsUnknown, LacksValue, IsBadNumber, HasBadEnding, IsSameName, IsFirstFault};
ghost use Rattle.av_words.specs.WordChecks.{Knows, HasRead, IsFirstAt, HasNoneAt, IsLastOf};
ghost use Rattle.av_base.specs.Failures.{IfFault};
ghost use Rattle.av_base.specs.declared.failure.Failure.{Failure};

use crate::word_faults::WordError;
use crate::word_roles::{Item, Role, Valued, is_same, last_of};
use crate::word_values::{ending_of, label_in, media_of, read_count, read_made, read_order};
use av_faults::Fault;
use indexmap::IndexSet;
use std::alloc::{AllocError, Global};

/// Notes the name of a word, if that is the word's role.
fn note_name<'a>(names: &mut IndexSet<&'a str>, item: Item<'a>, role: Role) -> Result<(), WordError>
    ensures noted { (before : List Said) → Knows names.old before role
        → IfOk result (λ _. Knows names.new (before ++ (record { role = item.entry.role; word = item.entry.word.now }) ∷ []) role) }
    ensures fault { IfFault result (λ f. ⊥) }
{
    if is_same(item.role, role) {
        names.insert(item.word)?;
    }
    Ok(())
}

/// Whether a `-map` waits for an output file, after a word.
fn waits_after(role: Role, waits: bool) -> bool
    ensures { (word : List ℕ) (map : Option (List ℕ)) → waits ≡ is_some map → result ≡ is_some (map_after role word map) }
{
    match role {
        Role::Value(Valued::Map) => true,
        Role::File => false,
        _ => waits,
    }
}

/// What a check of a word needs of the words before it.
#[derive(Drop)]
struct Seen<'a> {
    /// The names of input files.
    inputs: IndexSet<&'a str>,
    /// The names of output files.
    outputs: IndexSet<&'a str>,
    /// Whether a `-map` waits for an output file.
    waits: bool,
}

impl<'a> Seen<'a> {
    /// What is known before the first word.
    fn new(alloc: Global) -> Self
        ensures { HasRead [] result }
    {
        Seen {
            inputs: IndexSet::new(alloc),
            outputs: IndexSet::new(alloc),
            waits: false,
        }
    }

    /// Notes a word.
    fn note(&mut self, item: Item<'a>) -> Result<(), WordError>
        ensures noted { (before : List Said) → HasRead before self.old
            → IfOk result (λ _. HasRead (before ++ (record { role = item.entry.role; word = item.entry.word.now }) ∷ []) self.new) }
        ensures fault { IfFault result (λ f. ⊥) }
    {
        note_name(&mut self.inputs, item, Role::Value(Valued::Input))?;
        note_name(&mut self.outputs, item, Role::File)?;
        self.waits = waits_after(item.role, self.waits);
        Ok(())
    }
}

/// Whether the word is nothing known.
fn is_unknown(item: Item, seen: &Seen) -> bool
    ensures { (before : List Said) → HasRead before seen.now → IsTrue result ↔ IsUnknown before item.entry.role item.entry.word.now }
{
    match item.role {
        Role::Unknown => true,
        Role::Names(Valued::Map) => seen.waits,
        Role::Value(Valued::Map) => label_in(item.word).is_none(),
        _ => false,
    }
}

/// Whether the word is an option without its value, or without the output file that it wants.
fn lacks_value(role: Role, is_last: bool, has_file: bool) -> bool
    ensures { (after : List Said) → (IsTrue is_last ↔ (after ≡ [])) → (IsTrue has_file → ¬ Lacks after File) → (¬ IsTrue has_file → Lacks after File)
        → IsTrue result ↔ LacksValue role after }
{
    match role {
        Role::Names(Valued::Map) => !has_file,
        Role::Names(_) => is_last,
        _ => false,
    }
}

/// Whether the word is a value that its option doesn't take.
fn is_bad_number(alloc: Global, item: Item) -> Result<bool, AllocError>
    ensures { IfOk result (λ bad. IsTrue bad ↔ IsBadNumber item.entry.role item.entry.word.now) }
{
    match item.role {
        Role::Value(Valued::Workers) => Ok(read_count(item.word, 0).is_none()),
        Role::Value(Valued::Slices) => Ok(read_count(item.word, 1).is_none()),
        Role::Value(Valued::Order) => Ok(read_order(alloc, item.word)?.is_none()),
        Role::Value(Valued::Generator) => Ok(read_made(alloc, item.word)?.is_none()),
        _ => Ok(false),
    }
}

/// Whether the word names a file with an ending that isn't read, or written.
fn has_bad_ending(item: Item) -> bool
    ensures { IsTrue result ↔ HasBadEnding item.entry.role item.entry.word.now }
{
    match item.role {
        Role::Value(Valued::Input) => media_of(item.word).is_none(),
        Role::File => ending_of(item.word).is_none(),
        _ => false,
    }
}

/// Whether the word names a file as an earlier one that it can't be named as.
fn is_same_name(item: Item, seen: &Seen) -> bool
    ensures { (before : List Said) → HasRead before seen.now → IsTrue result ↔ IsSameName before item.entry.role item.entry.word.now }
{
    match item.role {
        Role::Value(Valued::Input) => seen.outputs.contains(item.word),
        Role::File => seen.outputs.contains(item.word) || seen.inputs.contains(item.word),
        _ => false,
    }
}

/// Whether the last output file comes after a word.
fn has_file_after(number: usize, last_file: Option<usize>) -> bool
    ensures after { (line : List Said) → IsLastOf line File last_file → IsTrue result → ¬ Lacks (drop (number + 1) line) File }
    ensures none { (line : List Said) → IsLastOf line File last_file → ¬ IsTrue result → Lacks (drop (number + 1) line) File }
{
    match last_file {
        Some(last) => number < last,
        None => false,
    }
}

/// The error of a fault.
fn refuse(fault: Fault) -> Result<(), WordError>
    ensures { result ≡ Err (Failure.Fault fault) }
{
    Err(WordError::Fault(fault))
}

/// Checks a word.
fn check_item(
    alloc: Global,
    items: &[Item],
    number: usize,
    last_file: Option<usize>,
    seen: &Seen,
) -> Result<(), WordError>
    requires within { number < length items.now }
    requires read { HasRead (take number (line_of items.now)) seen.now }
    requires last { IsLastOf (line_of items.now) File last_file }
    ensures none { IfOk result (λ _. HasNoneAt (line_of items.now) number) }
    ensures fault { IfFault result (IsFirstAt (line_of items.now) number) }
{
    let item = items[number];
    let word = number as u64;
    let is_last = number + 1 == items.len();
    if is_unknown(item, seen) {
        return refuse(Fault::UnknownWord { word });
    }
    if lacks_value(item.role, is_last, has_file_after(number, last_file)) {
        return refuse(Fault::MissingValue { word });
    }
    if is_bad_number(alloc, item)? {
        return refuse(Fault::BadNumber { word });
    }
    if has_bad_ending(item) {
        return refuse(Fault::BadEnding { word });
    }
    if is_same_name(item, seen) {
        return refuse(Fault::SameName { word });
    }
    Ok(())
}

/// Checks all words, from the first on.
pub(crate) fn check_items(alloc: Global, items: &[Item]) -> Result<(), WordError>
    ensures none { IfOk result (λ _. (n : ℕ) → HasNoneAt (line_of items.now) n) }
    ensures fault { IfFault result (IsFirstFault (line_of items.now)) }
{
    let last_file = last_of(items, Role::File);
    let mut seen = Seen::new(alloc);
    'items: for (number, item) in items.iter().enumerate() {
        check_item(alloc, items, number, last_file, &seen)?;
        seen.note(*item)?;
    }
    Ok(())
}

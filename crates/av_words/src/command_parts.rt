//! The parts of a command, gathered from its words.
ghost use Rattle.std.specs.Prelude.{◌≡◌, ◌++◌, ◌∷◌, [], ℕ, List, None, map, filter, option_to_list, IfOk};
ghost use Rattle.std.specs.List.{AllZip};
ghost use Rattle.av_words.specs.declared.word_roles.Role.TheVariants.{Value};
ghost use Rattle.av_words.specs.declared.word_roles.Valued.TheVariants.{Graph, Order};
ghost use Rattle.av_words.specs.WordRoles.{said_of, line_of};
ghost use Rattle.av_words.specs.WordValues.{IsCount, SaysOrder};
ghost use Rattle.av_words.specs.WordFaults.{is_input, Has, IsLast, IsBadNumber, HasBadEnding, map_after};
ghost use Rattle.av_words.specs.CommandWords.{IsFaultless, SaysInput, IsLabelOf, output_at, outputs_after, SaysOutput, IsSet, SaysCommand};
ghost use Rattle.av_words.specs.WordChecks.{HasLabel, plain};

use crate::command_words::{Command, InputWord, OutputWord};
use crate::word_roles::{Item, Role, Valued, last_of, last_value};
use crate::word_values::{ending_of, label_in, media_of, read_count, read_made, read_order};
use av_base::{List, NoMemory, Text};
use graph_plan::OutputFile;
use std::alloc::Global;

/// Adds an item, if there is one.
fn keep<T: Drop>(items: &mut Vec<T>, item: Option<T>) -> Result<(), NoMemory>
    ensures { IfOk result (λ _. items.new.items ≡ items.old.items ++ option_to_list item) }
{
    if let Some(item) = item {
        items.push(item)?;
    }
    Ok(())
}

/// The input that a word names, if it names one.
fn input_of(alloc: Global, item: Item) -> Result<Option<InputWord>, NoMemory>
    requires ending { ¬ HasBadEnding item.role item.word.now }
    requires number { ¬ IsBadNumber item.role item.word.now }
    ensures { IfOk result (λ input. AllZip SaysInput (filter is_input (said_of item.entry ∷ [])) (option_to_list input)) }
{
    match item.role {
        Role::Value(Valued::Input) => {
            let Some(media) = media_of(item.word) else {
                return Ok(None);
            };
            let name = Text::new(String::from_str(alloc, item.word)?);
            Ok(Some(InputWord::File { name, media }))
        }
        Role::Value(Valued::Generator) => Ok(read_made(alloc, item.word)?),
        _ => Ok(None),
    }
}

/// The inputs, in order.
fn list_inputs(alloc: Global, items: &[Item]) -> Result<List<InputWord>, NoMemory>
    requires { IsFaultless (line_of items.now) }
    ensures { IfOk result (AllZip SaysInput (filter is_input (line_of items.now))) }
{
    let mut inputs = Vec::new(alloc);
    'items: for item in items {
        keep(&mut inputs, input_of(alloc, *item)?)?;
    }
    Ok(List::new(inputs))
}

/// The label that a value of `-map` names.
fn label_of(alloc: Global, map: Option<&str>) -> Result<Option<Text>, NoMemory>
    requires { HasLabel (plain map) }
    ensures { IfOk result (IsLabelOf (plain map.entry)) }
{
    let Some(value) = map else {
        return Ok(None);
    };
    let Some(label) = label_in(value) else {
        return Ok(None);
    };
    Ok(Some(Text::new(String::from_str(alloc, label)?)))
}

/// The value of `-map` that waits for an output file, after a word.
fn map_after<'a>(item: Item<'a>, map: Option<&'a str>) -> Option<&'a str>
    ensures { plain result ≡ map_after item.entry.role item.entry.word.now (plain map.entry) }
{
    match item.role {
        Role::Value(Valued::Map) => Some(item.word),
        Role::File => None,
        _ => map,
    }
}

/// The output file that a word is, if it is one.
fn output_of(alloc: Global, item: Item, map: Option<&str>) -> Result<Option<OutputWord>, NoMemory>
    requires ending { ¬ HasBadEnding item.role item.word.now }
    requires label { HasLabel (plain map) }
    ensures { IfOk result (λ output. AllZip SaysOutput (output_at (plain map.entry) item.entry.role item.entry.word.now) (option_to_list output)) }
{
    match item.role {
        Role::File => {}
        _ => return Ok(None),
    }
    let Some(ending) = ending_of(item.word) else {
        return Ok(None);
    };
    let label = label_of(alloc, map)?;
    let name = Text::new(String::from_str(alloc, item.word)?);
    let file = OutputFile { label, ending };
    Ok(Some(OutputWord { name, file }))
}

/// The output files, in order.
fn list_outputs(alloc: Global, items: &[Item]) -> Result<List<OutputWord>, NoMemory>
    requires { IsFaultless (line_of items.now) }
    ensures { IfOk result (AllZip SaysOutput (outputs_after None (line_of items.now))) }
{
    let mut outputs = Vec::new(alloc);
    let mut map = None;
    'items: for item in items {
        keep(&mut outputs, output_of(alloc, *item, map)?)?;
        map = map_after(*item, map);
    }
    Ok(List::new(outputs))
}

/// The number in the last value of an option, or the lowest if there is none.
fn count_of(items: &[Item], option: Valued, lowest: u32) -> u32
    requires { (value : List ℕ) → Has (line_of items.now) (Value option) value → ((n : ℕ) → ¬ IsCount lowest value n) → ⊥ }
    ensures { IsSet (line_of items.now) option (IsCount lowest) lowest result }
{
    let Some(value) = last_value(items, option) else {
        return lowest;
    };
    match read_count(value, lowest) {
        Some(count) => count,
        None => lowest,
    }
}

/// The order in the last value, or an empty one if there is none.
fn order_of(alloc: Global, items: &[Item]) -> Result<List<u32>, NoMemory>
    requires { IsFaultless (line_of items.now) }
    ensures { IfOk result (IsSet (line_of items.now) Order SaysOrder []) }
{
    let Some(value) = last_value(items, Valued::Order) else {
        return Ok(List::new(Vec::new(alloc)));
    };
    match read_order(alloc, value)? {
        Some(order) => Ok(List::new(order)),
        None => Ok(List::new(Vec::new(alloc))),
    }
}

/// The command of words without a fault.
pub(crate) fn command_of(alloc: Global, items: &[Item], text: &str) -> Result<Command, NoMemory>
    requires faultless { IsFaultless (line_of items.now) }
    requires text { (at : ℕ) × IsLast (line_of items.now) (Value Graph) at text.now }
    ensures { IfOk result (SaysCommand (line_of items.now)) }
{
    let inputs = list_inputs(alloc, items)?;
    let text = Text::new(String::from_str(alloc, text)?);
    let outputs = list_outputs(alloc, items)?;
    let order = order_of(alloc, items)?;
    Ok(Command {
        inputs,
        text,
        outputs,
        workers: count_of(items, Valued::Workers, 0),
        slices: count_of(items, Valued::Slices, 1),
        order,
        report: last_of(items, Role::Report).is_some(),
    })
}

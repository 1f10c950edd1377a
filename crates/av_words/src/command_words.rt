//! The command that words mean.
ghost use Rattle.std.specs.Prelude.{◌≡◌, map, string_bytes, IfOk};
ghost use Rattle.av_words.specs.declared.command_words.Command.{Command};
ghost use Rattle.av_faults.specs.declared.fault.Fault.{Fault};
ghost use Rattle.av_words.specs.CommandWords.{IsCommand, IsWordFault};
ghost use Rattle.av_base.specs.Failures.{IfFault, Gives, Refuses};

use crate::command_parts::command_of;
use crate::line_checks::text_of;
use crate::word_checks::check_items;
use crate::word_faults::WordError;
use crate::word_roles::read_items;
use av_base::{List, Media, Text};
use graph_plan::OutputFile;
use std::alloc::Global;

/// An input.
#[derive(Drop)]
pub enum InputWord {
    /// A file.
    File {
        /// Its name.
        name: Text,
        /// What it gives.
        media: Media,
    },
    /// A made video at 25 frames a second.
    Made {
        /// The seed of its samples.
        seed: u32,
        /// Its width, in samples.
        width: u32,
        /// Its height, in samples.
        height: u32,
        /// How many frames it has.
        frames: u32,
    },
}

/// An output file.
#[derive(Drop)]
pub struct OutputWord {
    /// Its name.
    pub name: Text,
    /// The label of the open pad that it takes, and what it is written as.
    pub file: OutputFile,
}

/// A command.
#[derive(Drop)]
pub struct Command {
    /// The inputs, in order.
    pub inputs: List<InputWord>,
    /// The graph text.
    pub text: Text,
    /// The outputs, in order.
    pub outputs: List<OutputWord>,
    /// The number of workers, at most `greatest_count`.
    pub workers: u32,
    /// The number of slices, from 1 to `greatest_count`.
    pub slices: u32,
    /// The order of filters, as the numbers were written.
    pub order: List<u32>,
    /// Whether a report is asked for.
    pub report: bool,
}

/// The command that words mean.
///
/// # Errors
/// The fault at the first word that has one, and of those at one word the one of the lowest rank: `UnknownWord`, `MissingValue`,
/// `BadNumber`, `BadEnding`, `SameName`. After all these `NoGraph`, `NoOutput`, and a `Limit` of the inputs, of the output files
/// and of the text, in this order. Or out of memory.
pub fn read_words(alloc: Global, words: &[String]) -> Result<Command, WordError>
    ensures command { IfOk result (IsCommand (map string_bytes words.now)) }
    // Words that mean a command have no fault, and mean no other.
    ensures says { (command : Command) → IsCommand (map string_bytes words.now) command → Gives (λ c. c ≡ command) result }
    ensures fault { IfFault result (IsWordFault (map string_bytes words.now)) }
    // Words that have a fault mean no command, and have no other.
    ensures faulty { (fault : Fault) → IsWordFault (map string_bytes words.now) fault → Refuses (λ f. f ≡ fault) result }
{
    let items = read_items(alloc, words)?;
    let items = items.as_slice();
    check_items(alloc, items)?;
    let text = text_of(items)?;
    let command = command_of(alloc, items, text)?;
    Ok(command)
}

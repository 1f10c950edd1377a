//! Tokens, arguments and numbers of the graph language.
#![tactic(auto)]

mod arguments;
mod classes;
mod fault;
mod law;
mod numbers;
mod times;
mod token;

pub use arguments::{Arg, split_args};
pub use classes::{Class, skip_white, split_run};
pub use fault::{TextError, TextFault, TextKind};
pub use law::texts_have_one_reading;
pub use numbers::{read_digits, read_ratio, read_whole};
pub use times::read_time;
pub use token::next_token;

#[cfg(test)]
mod number_tests;
#[cfg(test)]
mod slow_reader;
#[cfg(test)]
mod tests;

//! What an input does before its first frame and after its last one, and what a timeline returns.

/// What an input does before its first frame.
#[derive(Clone, Copy, Debug, PartialEq, Eq)]
pub enum Before {
    /// No event comes.
    Stop,
    /// It has no current frame.
    Null,
}

/// What an ended input does after its last frame.
#[derive(Clone, Copy, Debug, PartialEq, Eq)]
pub enum After {
    /// No event comes any more.
    Stop,
    /// It has no current frame.
    Null,
    /// Its last frame stays its current one.
    Infinity,
}

/// How an input takes part.
#[derive(Clone, Copy, Debug, PartialEq, Eq)]
pub struct Rule {
    /// What it does before its first frame.
    pub before: Before,
    /// What it does after its last frame.
    pub after: After,
    /// Events come at the frames of the inputs with the greatest sync. An input with 0 makes none.
    pub sync: u8,
}

/// What comes next.
#[derive(Clone, Copy, Debug, PartialEq, Eq)]
pub enum Step {
    /// An event.
    Event {
        /// Its time.
        pts: i64,
    },
    /// An input has to get a timestamp, or to end, before more is known.
    Need {
        /// The lowest such input.
        input: u32,
    },
    /// No more events come.
    Done,
}

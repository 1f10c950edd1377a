//! Laws of events.
ghost use Rattle.frame_sync.specs.Laws.{EventsBegin, EndedInputsEnd, EventsAreOne, HistoriesShow};

/// If inputs begin others, their events begin the others' events.
pub fn events_begin()
    ensures { EventsBegin }
{}

/// If all inputs have ended, so have the events.
pub fn ended_inputs_end()
    ensures { EndedInputsEnd }
{}

/// There is one list of events, and at most one result of `next`, one current frame, and one result of `current`.
pub fn events_are_one()
    ensures { EventsAreOne }
{}

/// In each history that a timeline represents times rise, the returned events begin all events, the history shows
/// whether `push` and `end` may be called, and what waits shows whether `next` returns Done or Need at once.
pub fn histories_show()
    ensures { HistoriesShow }
{}

//! What is true of every line.
ghost use Rattle.hlc_line.specs.Line.{OneEvent};

/// States that a line is the line of at most one event.
pub fn one_event_for_a_line()
    ensures { OneEvent }
{}

//! Laws of plays, each the contract of a function that does nothing else.

ghost use Rattle.part_laws.specs.OneWay.{PlaysGoOneWay, TimersRunOneWay};

/// From a trace the timers run up to a moment in one way: what has expired by then, and in which
/// order, and what it has sent, is known by the trace alone.
pub fn timers_run_one_way()
    ensures { TimersRunOneWay }
{}

/// A play goes one way. Two plays of the same rows, with gsmSSFs of the same configuration and the
/// same delay, that hear the same operations in answer to the same items, round by round, have
/// given the same items in the same order; the same deliveries wait, the same rows are left, the
/// same rows had no place, and both have ended or neither has. So the order of what happens at one
/// moment is known: deliveries as they were sent, then rows in their order, then the timers of the
/// calls in ascending order.
pub fn plays_go_one_way()
    ensures { PlaysGoOneWay }
{
    timers_run_one_way();
}

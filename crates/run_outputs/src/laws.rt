//! Laws of the records of calls, each the contract of a function that does nothing else.

ghost use Rattle.run_outputs.specs.Laws.{UnservedCallsPayNothing};

/// A call that was denied or refused, or whose calling number is no subscriber's, has paid nothing.
pub fn unserved_calls_pay_nothing()
    ensures { UnservedCallsPayNothing }
{}

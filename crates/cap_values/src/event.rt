//! The events of a call.

ghost use Rattle.std.specs.Prelude.{◌≡◌, ◌↔◌, Some};
ghost use Rattle.cap_values.specs.Codes.{event_code};
ghost use Rattle.cap_values.specs.declared.event.Event.{Event as AnEvent};

/// An event of an originating call (GSM 09.78, EventTypeBCSM).
#[derive(Clone, Copy, Debug, PartialEq, Eq)]
pub enum Event {
    /// The called number was dialled: the event that triggers the service.
    CollectedInfo = 2,
    /// No route to the called number was found.
    RouteSelectFailure = 4,
    /// The called party is busy.
    CalledPartyBusy = 5,
    /// The called party didn't answer in time.
    NoAnswer = 6,
    /// The called party answered.
    Answer = 7,
    /// A party of the answered call hung up.
    Disconnect = 9,
    /// The calling party hung up before the answer.
    Abandon = 10,
}

impl Event {
    /// The event's number in the protocol.
    pub fn code(self) -> u8
        ensures { result ≡ event_code self }
    {
        self as u8
    }

    /// The event of a number, or none where no event here has it.
    pub fn from_code(code: u8) -> Option<Event>
        ensures { (event : AnEvent) → (result ≡ Some event) ↔ (event_code event ≡ code) }
    {
        match code {
            2 => Some(Event::CollectedInfo),
            4 => Some(Event::RouteSelectFailure),
            5 => Some(Event::CalledPartyBusy),
            6 => Some(Event::NoAnswer),
            7 => Some(Event::Answer),
            9 => Some(Event::Disconnect),
            10 => Some(Event::Abandon),
            _ => None,
        }
    }
}

//! The dialogue of the service with one call and its account.

ghost use Rattle.std.specs.Prelude.{◌≡◌, ◌+◌, ◌<◌, ◌≤◌, Ok, Err, IfOk, IfErr};
ghost use Rattle.std.specs.Option.{ForSome};
ghost use Rattle.cap_values.specs.Orders.{orders_in};
ghost use Rattle.dialogue_core.specs.Rules.{on_begin, on_reply, seconds_to, on_message, on_refusal, ending, give_back, going_on, while_running, are_units, reserve, sequel};
ghost use Rattle.dialogue_core.specs.Talks.{after_got, asks_after, asks_left, orders_sent_by};
ghost use Rattle.dialogue_core.specs.Views.{FollowsRules, phase_at, phase_of, says_of, conditions_of, sequel_of};
ghost use Rattle.dialogue_core.specs.Phases.{Asks};

use crate::operations::{first_period, further_period};
use crate::state::{State, Terms, Then};
use crate::{DialogueFault, ServiceConfig};
use account_core::{AccountFault, Op, Reply};
use cap_values::{Cause, Event, Instructions, MAX_SWITCH, Mode, SsfMsg};
use price_core::{DAY, Route};

/// The service's dialogue about one call.
#[derive(Clone, Copy, PartialEq, Eq)]
pub struct Dialogue {
    state: State,
}

/// A turn of a dialogue.
#[derive(Clone, Copy, Debug, PartialEq, Eq)]
pub enum Turn {
    /// The account is asked, and its reply goes to `Dialogue::answer` or `Dialogue::refused`.
    Ask(Op),
    /// The gsmSSF is sent these instructions.
    Send(Instructions),
    /// The dialogue is over.
    Done,
}

impl Turn {
    /// The instructions that it sends: `Nothing` unless it is `Send`.
    pub fn instructions(self) -> Instructions
        ensures { orders_in result ≡ orders_sent_by (says_of self) }
    {
        match self {
            Turn::Send(instructions) => instructions,
            _ => Instructions::Nothing,
        }
    }
}

impl Dialogue {
    /// The dialogue of a call that was triggered at `now`, and its first turn: the account is asked
    /// for time, or the call is cleared where it has no route.
    ///
    /// A switch of the route lies 1 to DAY units of 100 ms after `now`.
    pub fn begin(
        call: u64,
        now: u64,
        route: Option<Route>,
        config: &ServiceConfig,
    ) -> (Dialogue, Turn)
        requires { ForSome route (λ route. ForSome route.switch_at (λ at. (now < at)
            × (at ≤ now + DAY))) }
        ensures { on_begin call now config.now.wanted config.now.least route
            ≡ (says_of result.1, phase_of result.0) }
    {
        let Some(route) = route else {
            let dialogue = Dialogue {
                state: State::Ending,
            };
            return (
                dialogue,
                Turn::Send(Instructions::Release(Cause::unallocated_number())),
            );
        };
        let terms = Terms {
            call,
            plan: route.plan,
            wanted: config.wanted,
            least: config.least,
            switch: seconds_to(now, route.switch_at),
        };
        let dialogue = Dialogue {
            state: State::FirstAsk(terms),
        };
        (dialogue, reserve(terms, now))
    }

    /// Takes a message of the gsmSSF, with its number, at a moment: where more time is asked for
    /// after a report, it is asked for at the report's moment. `AskPending` while the account's
    /// reply is awaited, else `Unexpected` where the message has no place.
    pub fn take(&mut self, number: u64, at: u64, message: SsfMsg) -> Result<Turn, DialogueFault>
        ensures ok { IfOk result (λ turn.
            on_message (phase_of self.old) number at message
            ≡ Ok (says_of turn, phase_of self.new)) }
        ensures fault { IfErr result (λ fault.
            on_message (phase_of self.old) number at message ≡ Err fault) }
        ensures unchanged { IfErr result (λ fault. self.new ≡ self.old) }
    {
        let (turn, state) = on_message(self.state, number, at, message)?;
        self.state = state;
        Ok(turn)
    }

    /// Takes the account's reply to what was asked. `NoAskPending` where nothing was, else
    /// `Unexpected` where the reply has no place.
    pub fn answer(&mut self, reply: Reply) -> Result<Turn, DialogueFault>
        ensures ok { IfOk result (λ turn.
            on_reply (phase_of self.old) reply ≡ Ok (says_of turn, phase_of self.new)) }
        ensures fault { IfErr result (λ fault. on_reply (phase_of self.old) reply ≡ Err fault) }
        ensures unchanged { IfErr result (λ fault. self.new ≡ self.old) }
    {
        let (turn, state) = on_reply(self.state, reply)?;
        self.state = state;
        Ok(turn)
    }

    /// Takes the account's refusal of what was asked; which fault it was makes no difference.
    /// `NoAskPending` where nothing was asked.
    pub fn refused(&mut self, fault: AccountFault) -> Result<Turn, DialogueFault>
        ensures ok { IfOk result (λ turn.
            on_refusal (phase_of self.old) ≡ Ok (says_of turn, phase_of self.new)) }
        ensures fault { IfErr result (λ fault. on_refusal (phase_of self.old) ≡ Err fault) }
        ensures unchanged { IfErr result (λ fault. self.new ≡ self.old) }
    {
        let _ = fault;
        let (turn, state) = on_refusal(self.state)?;
        self.state = state;
        Ok(turn)
    }

    /// Takes what its ask got, the account's reply or its refusal, and gives its next turn: `Done`
    /// where what it got has no place. Fewer asks are left then.
    #[tactic(auto, using(crate::proofs::Asking::got_by, crate::proofs::Asking::fewer_said))]
    pub fn hear(&mut self, got: Result<Reply, AccountFault>) -> Turn
        ensures says { after_got (phase_of self.old) got ≡ (says_of result, phase_of self.new) }
        ensures fewer { asks_left (says_of result) (phase_of self.new)
            ≤ asks_after (phase_of self.old) }
    {
        match got {
            Ok(reply) => self.answer(reply).unwrap_or(Turn::Done),
            Err(fault) => self.refused(fault).unwrap_or(Turn::Done),
        }
    }
}

/// The rules for a message.
fn on_message(
    state: State,
    number: u64,
    at: u64,
    message: SsfMsg,
) -> Result<(Turn, State), DialogueFault>
    ensures { FollowsRules result (on_message (phase_at state) number at message) }
{
    match state {
        State::Running(terms) => running(terms, number, at, message),
        State::Ending => ending(message),
        State::Closed => Err(DialogueFault::Unexpected),
        State::FirstAsk(_) | State::Settling { .. } | State::MoreAsk(_) | State::Returning(_) => {
            Err(DialogueFault::AskPending)
        }
    }
}

/// The rules for a reply.
fn on_reply(state: State, reply: Reply) -> Result<(Turn, State), DialogueFault>
    ensures { FollowsRules result (on_reply (phase_at state) reply) }
{
    match (state, reply) {
        (State::FirstAsk(terms), Reply::Granted { units, last, .. }) if are_units(units) => {
            let period = first_period(units, terms.switch, last);
            Ok((period, State::Running(terms)))
        }
        (State::FirstAsk(_), Reply::Denied { .. }) => Ok((
            Turn::Send(Instructions::Release(Cause::call_rejected())),
            State::Ending,
        )),
        (State::Settling { terms, active, at }, Reply::Settled { .. }) if active => {
            Ok((reserve(terms, at), State::MoreAsk(terms)))
        }
        (State::Settling { terms, active, .. }, Reply::Forfeit { .. }) if active => {
            Ok(give_back(terms, Then::Fail))
        }
        (State::Settling { terms, .. }, Reply::Settled { .. } | Reply::Forfeit { .. }) => {
            Ok(give_back(terms, Then::Nothing))
        }
        (State::MoreAsk(terms), Reply::Granted { units, last, .. }) if are_units(units) => {
            Ok((further_period(units, last), State::Running(terms)))
        }
        (State::MoreAsk(terms), Reply::Denied { .. }) => Ok(give_back(terms, Then::Clear)),
        (State::Returning(next), Reply::Returned { .. }) => Ok(sequel(next)),
        (State::Running(_) | State::Ending | State::Closed, _) => {
            Err(DialogueFault::NoAskPending)
        }
        _ => Err(DialogueFault::Unexpected),
    }
}

/// The rules for a refusal.
fn on_refusal(state: State) -> Result<(Turn, State), DialogueFault>
    ensures { FollowsRules result (on_refusal (phase_at state)) }
{
    match state {
        State::FirstAsk(_) => Ok((
            Turn::Send(Instructions::Release(Cause::temporary_failure())),
            State::Ending,
        )),
        State::Settling { terms, active, .. } if active => Ok(give_back(terms, Then::Fail)),
        State::Settling { terms, .. } => Ok(give_back(terms, Then::Nothing)),
        State::MoreAsk(terms) => Ok(give_back(terms, Then::Fail)),
        State::Returning(next) => Ok(sequel(next)),
        State::Running(_) | State::Ending | State::Closed => Err(DialogueFault::NoAskPending),
    }
}

/// The whole seconds to the switch, rounded up.
fn seconds_to(now: u64, switch_at: Option<u64>) -> Option<u32>
    requires { ForSome switch_at (λ at. (now < at) × (at ≤ now + DAY)) }
    ensures value { result ≡ seconds_to now switch_at }
    ensures in_range { ForSome result (λ seconds. (1 ≤ seconds) × (seconds ≤ MAX_SWITCH)) }
{
    match switch_at {
        None => None,
        Some(at) => Some((at - now).div_ceil(10) as u32),
    }
}

/// A message of a call that was granted time, and its moment: any event but the answer ends it.
fn running(
    terms: Terms,
    number: u64,
    at: u64,
    message: SsfMsg,
) -> Result<(Turn, State), DialogueFault>
    ensures { FollowsRules result (while_running (conditions_of terms) number at message) }
{
    match message {
        SsfMsg::InitialDp { .. } => Err(DialogueFault::Unexpected),
        SsfMsg::EventReport {
            event: Event::Answer,
            ..
        } => Ok((Turn::Send(Instructions::Nothing), State::Running(terms))),
        SsfMsg::EventReport { mode, .. } => Ok(give_back(terms, going_on(mode))),
        SsfMsg::ChargingReport { active, info } => {
            let call = terms.call;
            let ask = Turn::Ask(Op::Settle { call, number, info });
            Ok((ask, State::Settling { terms, active, at }))
        }
        SsfMsg::Ended => Ok(give_back(terms, Then::Close)),
    }
}

/// A message after the account is done with.
fn ending(message: SsfMsg) -> Result<(Turn, State), DialogueFault>
    ensures { FollowsRules result (ending message) }
{
    match message {
        SsfMsg::EventReport { mode, .. } => Ok(sequel(going_on(mode))),
        SsfMsg::Ended => Ok((Turn::Done, State::Closed)),
        SsfMsg::InitialDp { .. } | SsfMsg::ChargingReport { .. } => Err(DialogueFault::Unexpected),
    }
}

/// A call that waits at an event goes on.
fn going_on(mode: Mode) -> Then
    ensures { sequel_of result ≡ going_on mode }
{
    match mode {
        Mode::Interrupted => Then::GoOn,
        Mode::NotifyAndContinue | Mode::Transparent => Then::Nothing,
    }
}

/// More time is asked for at a moment.
fn reserve(terms: Terms, at: u64) -> Turn
    ensures { says_of result ≡ Asks (reserve (conditions_of terms) at) }
{
    Turn::Ask(Op::Reserve {
        call: terms.call,
        plan: terms.plan,
        wanted: terms.wanted,
        least: terms.least,
        at,
    })
}

/// Whether a grant can be given on as a call period.
fn are_units(units: u32) -> bool
    ensures { result ≡ are_units units }
{
    1 <= units && units <= DAY
}

/// What the call holds is returned.
fn give_back(terms: Terms, next: Then) -> (Turn, State)
    ensures { give_back (conditions_of terms) (sequel_of next)
        ≡ Ok (says_of result.0, phase_at result.1) }
{
    let ask = Turn::Ask(Op::Return { call: terms.call });
    (ask, State::Returning(next))
}

/// What follows a return.
fn sequel(next: Then) -> (Turn, State)
    ensures { sequel (sequel_of next) ≡ (says_of result.0, phase_at result.1) }
{
    match next {
        Then::Nothing => (Turn::Send(Instructions::Nothing), State::Ending),
        Then::GoOn => (Turn::Send(Instructions::GoOn), State::Ending),
        Then::Clear => (
            Turn::Send(Instructions::Release(Cause::normal_call_clearing())),
            State::Ending,
        ),
        Then::Fail => (
            Turn::Send(Instructions::Release(Cause::temporary_failure())),
            State::Ending,
        ),
        Then::Close => (Turn::Done, State::Closed),
    }
}

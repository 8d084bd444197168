//! The gsmSSFs of a run, and what was given of them.

ghost use Rattle.std.specs.Prelude.{◌≤◌, ◌≡◌, ◌+◌, ◌<◌, ◌++◌, OnOk, None, IfNone, IfSome, length};
ghost use Rattle.std.specs.BTreeMap.{get};
ghost use Rattle.std.specs.Ordering.{nat_cmp};
ghost use Rattle.std.specs.Vec.{vec_capacity, vec_len};
ghost use Rattle.script_player.specs.Dues.{IsPutDown, Replaces};
ghost use Rattle.script_player.specs.Beginnings.{IsTriggered};
ghost use Rattle.script_player.specs.Inputs.{IsGiven};
ghost use Rattle.script_player.specs.Networks.{Feeds, SsfGoesOn};
ghost use Rattle.script_player.specs.Posts.{posts_of};

use arrayvec::ArrayVec;
use cap_values::{Number, ScfOp};
use price_core::HORIZON;
use run_values::Body;
use ssf_core::{BcsmEvent, Item, Moment, Out, Ssf, SsfConfig, SsfFault, Step};
use std::alloc::{AllocError, Global};
use std::collections::{BTreeMap, BTreeSet};
use std::marker::Model;

/// The most that a gsmSSF sends at one input.
pub(crate) const MAX_SENT: usize = 8;

/// An input of a gsmSSF that was triggered.
#[derive(Clone, Copy)]
pub(crate) enum Input {
    /// The service sends an operation.
    Operate(ScfOp),
    /// The call meets an event.
    Meet(BcsmEvent),
    /// Time passes.
    Wait,
}

/// The gsmSSFs of the calls that have started, and all items of the run.
#[derive(Drop)]
pub(crate) struct Network {
    config: SsfConfig,
    calls: BTreeMap<u64, Ssf>,
    /// Each call with a timer that runs, by the moment at which the first one is due.
    dues: BTreeSet<(Moment, u64)>,
    given: Vec<(u64, Body)>,
    alloc: Global,
    /// Whether memory never ran out while a moment was put down.
    whole: bool,
}

impl Model for Network {
    ghost use Rattle.std.specs.Prelude.{◌≡◌, true};
    ghost use Rattle.script_player.specs.Dues.{AreDues};
    ghost use Rattle.script_player.specs.Networks.{HaveGiven, Shown};

    ghost Value = { Shown };

    ghost view = { λ n. record {
      config = n.config;
      ssfs = n.calls.entries;
      given = n.given.items;
      whole = n.whole;
    } };

    ghost invariant = { λ n. HaveGiven n.config n.calls n.given.items
        × (n.whole ≡ true → AreDues n.calls.entries n.dues) };
}

impl Network {
    ghost use Rattle.std.specs.Prelude.{◌≡◌, ◌≤◌, ◌<◌, ◌++◌, ◌∷◌, [], ℕ, true, All, IfOk, OnOk, OnErr};
    ghost use Rattle.script_player.specs.Dues.{AreDueBy, HasTimer, IsFirstDue};
    ghost use Rattle.script_player.specs.Networks.{Grows};
    ghost use Rattle.script_player.specs.Plays.{IsPlayed};
    ghost use Rattle.script_player.specs.Posts.{initial};
    ghost use Rattle.script_player.specs.Rows.{Starts};
    ghost use Rattle.script_player.specs.Steps.{Recharges, RunsTimers, StartsCall};
    ghost use Rattle.script_player.specs.Unplaced.{GivesWithFault};
    ghost use Rattle.script_player.specs.declared.network.Input.TheVariants as what;
    ghost use Rattle.run_values.specs.declared.post.Body.TheVariants as body;

    /// A network without calls. There is room for so many items.
    pub fn new(alloc: Global, config: SsfConfig, room: usize) -> Result<Network, AllocError>
        ensures { IfOk result (λ network. network
            ≡ record { config = config; ssfs = []; given = []; whole = true }) }
    {
        Ok(Network {
            config,
            calls: BTreeMap::new(alloc),
            dues: BTreeSet::new(alloc),
            given: Vec::with_capacity(alloc, room)?,
            alloc,
            whole: true,
        })
    }

    /// All items, each with its moment.
    pub fn given(&self) -> &[(u64, Body)]
        ensures items { result.now ≡ self.now.given }
        ensures in_range { All (λ item. item.0 ≤ HORIZON) result.now }
        ensures calls { (call : ℕ) → IsPlayed self.now.config call self.now.given }
    {
        self.given.as_slice()
    }

    /// All items, each with its moment, and no gsmSSF any more.
    pub fn into_given(self) -> Vec<(u64, Body)>
        ensures { result.items ≡ self.given }
    {
        self.given
    }

    /// The first moment at which a timer is due.
    pub fn first_due(&self) -> Option<Moment>
        ensures { self.now.whole ≡ true → IsFirstDue self.now.ssfs result }
    {
        let (at, _) = *self.dues.first()?;
        Some(at)
    }

    /// Starts a call at a moment. Nothing happens where it has started already.
    pub fn start(
        &mut self,
        now: Moment,
        call: u64,
        calling: Number,
        called: Number,
    ) -> Result<(), AllocError>
        requires { now ≤ HORIZON }
        ensures config { self.new.config ≡ self.old.config }
        ensures started { OnOk result
            (Starts self.old.given self.new.given call (initial now call calling called)) }
        ensures starts { OnOk result (StartsCall now call calling called self.old self.new) }
        ensures unchanged { OnErr result (self.new.given ≡ self.old.given) }
    {
        if self.calls.contains_key(&call) {
            return Ok(());
        }
        self.given.reserve(MAX_SENT)?;
        let Started { ssf, sent } = begin(self.config, now, call, calling, called);
        // Until the moment of its timer is put down, the network isn't whole.
        let whole = self.whole;
        self.whole = false;
        replace_due(&mut self.dues, call, None, ssf.next_due())?;
        self.calls.insert(call, ssf)?;
        self.whole = whole;
        post(&mut self.given, call, sent.as_slice());
        Ok(())
    }

    /// Gives the gsmSSF of a call an input at a moment. The fault by which it refuses it is the
    /// result. Nothing happens where the call has none.
    pub fn give(
        &mut self,
        now: Moment,
        call: u64,
        input: Input,
    ) -> Result<Option<SsfFault>, AllocError>
        requires { now ≤ HORIZON }
        ensures grows { Grows self.old self.new }
        ensures gives { IfOk result (GivesWithFault now call input self.old self.new) }
        ensures waited { OnOk result (input ≡ what.Wait
            → (at : ℕ) → HasTimer self.new.ssfs call at → now < at) }
    {
        self.given.reserve(MAX_SENT)?;
        let Some(fed) = feed(&mut self.calls, now, call, input) else {
            return Ok(None);
        };
        // Until the moment of its timer is put down, the network isn't whole.
        let whole = self.whole;
        self.whole = false;
        post(&mut self.given, call, fed.sent.as_slice());
        replace_due(&mut self.dues, call, fed.before, fed.after)?;
        self.whole = whole;
        Ok(fed.fault)
    }

    /// Adds a recharge: the money for an account, and its last moment from then on.
    pub fn recharge(
        &mut self,
        now: Moment,
        account: u32,
        amount: u64,
        until: Option<Moment>,
    ) -> Result<(), AllocError>
        requires { now ≤ HORIZON }
        ensures config { self.new.config ≡ self.old.config }
        ensures added { OnOk result
            (self.new.given ≡ self.old.given ++ (now, body.Recharge account amount until) ∷ []) }
        ensures recharges { OnOk result
            (Recharges now account amount until self.old self.new) }
        ensures unchanged { OnErr result (self.new ≡ self.old) }
    {
        let money = Body::Recharge {
            account,
            amount,
            until,
        };
        self.given.push((now, money))?;
        Ok(())
    }

    /// Lets the timers run that are due by a moment, in ascending order of the calls.
    pub fn advance(&mut self, now: Moment) -> Result<(), AllocError>
        requires { now ≤ HORIZON }
        ensures grows { Grows self.old self.new }
        ensures runs { OnOk result (self.old.whole ≡ true → RunsTimers now self.old self.new) }
    {
        let due = self.due_calls(now)?;
        for call in due.iter() {
            self.give(now, *call, Input::Wait)?;
        }
        Ok(())
    }

    /// The calls with a timer that is due by a moment.
    fn due_calls(&self, now: Moment) -> Result<BTreeSet<u64>, AllocError>
        requires { now ≤ HORIZON }
        ensures { IfOk result (λ calls.
            self.now.whole ≡ true → AreDueBy self.now.ssfs now calls.keys) }
    {
        let mut calls = BTreeSet::new(self.alloc);
        for due in self.dues.range(..(now + 1, 0)) {
            calls.insert(due.1)?;
        }
        Ok(calls)
    }
}

/// Puts down when a call's next timer is due, in place of what was put down of it. Where that is
/// the same it stays.
fn replace_due(
    dues: &mut BTreeSet<(Moment, u64)>,
    call: u64,
    before: Option<Moment>,
    after: Option<Moment>,
) -> Result<(), AllocError>
    ensures { OnOk result
        (IsPutDown dues.old call before → Replaces dues.old dues.new call before after) }
{
    if before == after {
        return Ok(());
    }
    if let Some(at) = before {
        dues.remove(&(at, call));
    }
    if let Some(at) = after {
        dues.insert((at, call))?;
    }
    Ok(())
}

/// A gsmSSF that was started, and what it has sent.
#[derive(Drop)]
struct Started {
    ssf: Ssf,
    sent: ArrayVec<Out, 8>,
}

/// Invokes a fresh gsmSSF, and triggers it for a call.
fn begin(config: SsfConfig, now: Moment, call: u64, calling: Number, called: Number) -> Started
    requires { now ≤ HORIZON }
    ensures { IsTriggered config now call calling called result.ssf result.sent.items }
{
    let mut ssf = Ssf::new(config);
    ssf.invoke(now);
    let sent = ssf.trigger(now, call, calling, called).sent;
    Started { ssf, sent }
}

/// What an input came to: what was sent, the fault by which it was refused, and when a timer was
/// due before it and after it.
#[derive(Drop)]
struct Sent {
    sent: ArrayVec<Out, 8>,
    fault: Option<SsfFault>,
    before: Option<Moment>,
    after: Option<Moment>,
}

/// Gives the gsmSSF of a call an input at a moment. None where the call has no gsmSSF.
fn feed(calls: &mut BTreeMap<u64, Ssf>, now: Moment, call: u64, input: Input) -> Option<Sent>
    requires { now ≤ HORIZON }
    ensures none { IfNone result (calls.new ≡ calls.old) }
    ensures absent { IfNone result (get nat_cmp calls.old call ≡ None) }
    ensures some { IfSome result (λ fed. Feeds calls.old calls.new now call input fed) }
{
    let ssf = calls.get_mut(&call)?;
    let before = ssf.next_due();
    let Step { sent, fault } = step(ssf, now, input);
    let after = ssf.next_due();
    Some(Sent {
        sent,
        fault,
        before,
        after,
    })
}

/// Gives a gsmSSF an input at a moment. What it refuses has a fault, and changes nothing else.
fn step(ssf: &mut Ssf, now: Moment, input: Input) -> Step
    requires { now ≤ HORIZON }
    ensures goes_on { SsfGoesOn ssf.old ssf.new result.sent.items }
    ensures given { (given : IsGiven ssf.old ssf.new now input result.sent.items)
        × (result.fault ≡ given.fault) }
{
    match input {
        Input::Operate(op) => ssf.operation(now, op),
        Input::Meet(event) => ssf.event(now, event),
        Input::Wait => ssf.advance(now),
    }
}

/// Posts the messages among what the gsmSSF of a call has sent, in order, each with its moment.
fn post(given: &mut Vec<(u64, Body)>, call: u64, sent: &[Out])
    requires room { vec_len given.old + length sent.now ≤ vec_capacity given.old }
    ensures items { given.new.items ≡ given.old.items ++ posts_of call sent.now }
{
    for out in sent {
        if let Item::Msg(msg) = out.item {
            given.push((out.at, Body::Ssf { call, msg })).unwrap();
        }
    }
}

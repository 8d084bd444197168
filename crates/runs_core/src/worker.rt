//! A worker: it handles the posts of its calls and the recharges of its accounts.

ghost use Rattle.std.specs.Prelude.{◌≡◌, ◌∷◌, ◌≤◌, ◌⊎◌, [], ℕ, List, None, Option, true, map, All, IfErr, IfOk, OnOk};
ghost use Rattle.std.specs.Map.{keys_of};
ghost use Rattle.runs_core.specs.Handled.{IsRecharged, IsRightlyHandled, answer_view};
ghost use Rattle.runs_core.specs.Refusals.{RefusesAt, WasAt};
ghost use Rattle.runs_core.specs.Verdicts.{Recharges, Rejects, strays, verdict, fresh_call, goes_on, home_of};
ghost use Rattle.runs_core.specs.Workers.{IsReady, accounts_of, holding, number_by, number_of, seats_of, setup_of, talks_of, standings_in};
ghost use Rattle.runs_core.specs.Calls.{AreCalled};
ghost use Rattle.runs_core.specs.Cases.{IsCase};
ghost use Rattle.account_core.specs.Entries.{EntryData};
ghost use Rattle.account_core.specs.Refusals.{Refusal};
ghost use Rattle.cap_values.specs.Orders.{Release, orders_in};
ghost use Rattle.dialogue_core.specs.Rules.{on_message};
ghost use Rattle.dialogue_core.specs.Views.{phase_of};

use crate::acting::{act, make_room, notify_gate, pass};
use account_core::{Gate, RisingMap, Shared};
use cap_values::{Number, SsfMsg};
use dialogue_core::{Dialogue, Turn};
use price_core::HORIZON;
use run_values::{Answer, Body, Post, RunFault, RunSetup};
use std::alloc::Global;
use std::sync::Wait;

/// A worker. It has a seat at each account of the run, and keeps the dialogue of each of its calls
/// to its end and beyond.
#[derive(Drop)]
pub struct Worker<'s, S: Shared> {
    number: u32,
    setup: &'s RunSetup,
    accounts: &'s [S],
    seats: Vec<S::Seat>,
    talks: RisingMap<Talk>,
}

impl<'s, S: Shared> Worker<'s, S> {
    /// The worker of this number, without dialogues: the accounts of the setup and the worker's
    /// seat at each, both in the ascending order of the accounts. It takes no memory yet.
    pub fn new(
        alloc: Global,
        number: u32,
        setup: &'s RunSetup,
        accounts: &'s [S],
        seats: Vec<S::Seat>,
    ) -> Worker<'s, S>
        requires accounts { map (number_by S.terms) accounts.now ≡ keys_of setup.now.accounts }
        requires keys { map S.reads.key seats.items ≡ map S.key accounts.now }
        requires numbers { All (λ seat. S.reads.number seat ≡ number) seats.items }
        requires empty { All (λ seat. S.reads.mine seat ≡ []) seats.items }
        ensures number { number_of result ≡ number }
        ensures setup { setup_of result ≡ setup.now }
        ensures accounts { accounts_of result ≡ accounts.now }
        ensures seats { seats_of result ≡ seats.items }
        ensures talks { (call : ℕ) → talks_of result call ≡ None }
        ensures ready { IsReady (number_by S.terms) S.key S.reads result }
    {
        Worker {
            number,
            setup,
            accounts,
            seats,
            talks: RisingMap::new(alloc),
        }
    }

    /// Handles a post.
    ///
    /// A stray is a recharge of an unknown account, a message that the dialogue of its call
    /// refuses, among them each further InitialDP, and any other message of a call without
    /// dialogue: it sends no operation and asks no account. An InitialDP from a number that is no
    /// subscriber's is answered by ReleaseCall(21), and no account is asked. Else the dialogue of
    /// the call talks with its account until it sends operations or is done, or the account is
    /// recharged. The answer has the last refusal of an ask for the post. Each ask that was
    /// refused, in the answer or not, was refused by an account that the seat there knows, as it
    /// was at the entries that the seat had then: so never with `GateClosed`.
    ///
    /// The accounts are called for these asks, in order, and for nothing else: no ask is passed
    /// over and said to have been refused, and none is put that the answer doesn't speak of.
    ///
    /// `OutOfMemory` comes before any account is asked; `GateClosed` where a gate is closed. After
    /// either the worker isn't used again.
    pub fn handle<R: Wait, G: Gate>(
        &mut self,
        rt: &R,
        post: Post,
        gate: &G,
    ) -> Result<Answer, RunFault>
        requires ready { IsReady (number_by S.terms) S.key S.reads self.old }
        ensures number { IfOk result (λ answer. answer.number ≡ post.number) }
        ensures handled { IfOk result (λ answer. IsRightlyHandled
            (RefusesAt S.was (seats_of self.new)) (setup_of self.old)
            (map S.reads.number (seats_of self.old)) post
            (holding S.reads.mine self.old) (holding S.reads.mine self.new) (answer_view answer)) }
        ensures called { IfOk result (λ answer. AreCalled S.calls (setup_of self.old) post.at
            (verdict (setup_of self.old) (talks_of self.old) post)
            (seats_of self.old) (seats_of self.new) (answer_view answer)) }
        ensures was { OnOk result ((place : ℕ) (mine : List EntryData) (refusal : Refusal)
            → WasAt S.was (seats_of self.old) place mine refusal
            → WasAt S.was (seats_of self.new) place mine refusal) }
        ensures stray { IfOk result (λ answer. answer.stray ≡ strays
            (verdict (setup_of self.old) (talks_of self.old) post)) }
        ensures stray_asks_nothing { IfOk result (λ answer. answer.stray ≡ true
            → map S.reads.mine (seats_of self.new) ≡ map S.reads.mine (seats_of self.old)) }
        ensures rejected { IfOk result
            (λ answer. verdict (setup_of self.old) (talks_of self.old) post ≡ Rejects
            → (orders_in answer.instructions ≡ Release 21 ∷ [])
            × (map S.reads.mine (seats_of self.new) ≡ map S.reads.mine (seats_of self.old))) }
        ensures recharged { IfOk result (λ answer. (place amount : ℕ) (until : Option ℕ)
            → verdict (setup_of self.old) (talks_of self.old) post
            ≡ Recharges place amount until
            → IsRecharged (map S.reads.number (seats_of self.old)) place amount until
            (holding S.reads.mine self.old) (holding S.reads.mine self.new) (answer_view answer)) }
        ensures setup { OnOk result (setup_of self.new ≡ setup_of self.old) }
        ensures accounts { OnOk result (accounts_of self.new ≡ accounts_of self.old) }
        ensures worker { OnOk result (number_of self.new ≡ number_of self.old) }
        ensures keys { OnOk result (map S.reads.key (seats_of self.new) ≡ map
            S.reads.key (seats_of self.old)) }
        ensures numbers { OnOk result (map S.reads.number (seats_of self.new) ≡ map
            S.reads.number (seats_of self.old)) }
        ensures ready { OnOk result (IsReady (number_by S.terms) S.key S.reads self.new) }
        ensures fault { IfErr result
            (λ why. (why ≡ RunFault.OutOfMemory) ⊎ (why ≡ RunFault.GateClosed)) }
        ensures memory { result ≡ Err RunFault.OutOfMemory → map S.reads.mine (seats_of self.new)
            ≡ map S.reads.mine (seats_of self.old) }
        ensures gate { result ≡ Err RunFault.GateClosed → G.may_shut }
    {
        let case = judge(self.setup, &self.talks, &post);
        make_room(&mut self.talks, &case)?;
        pass(gate, self.number, &post.body)?;
        let accounts = self.accounts;
        let answer = act(
            rt,
            gate,
            accounts,
            &mut self.seats,
            &mut self.talks,
            post.number,
            case,
        )?;
        notify_gate(gate, self.number, &post.body);
        Ok(answer)
    }

    /// Hands back the seats in the order in which they were given. It takes no memory.
    pub fn finish(self) -> Vec<S::Seat>
        ensures { result.items ≡ seats_of self.entry }
    {
        let Worker { seats, .. } = self;
        seats
    }
}

/// The dialogue of a call, and the place of the call's account in the ascending order.
#[derive(Clone, Copy)]
pub(crate) struct Talk {
    pub dialogue: Dialogue,
    pub place: usize,
}

/// What a post comes to.
#[derive(Drop)]
pub(crate) enum Case {
    /// It has no place here.
    Stray,
    /// A call asks for the service, and its calling number is no subscriber's.
    Rejected,
    /// Money for the account at a place.
    Recharge {
        place: usize,
        amount: u64,
        until: Option<u64>,
    },
    /// A dialogue that begins, or has taken a message, and its next turn.
    Talk {
        call: u64,
        talk: Talk,
        turn: Turn,
    },
}

/// Judges a post by the setup and the dialogues. Nothing is changed yet.
fn judge(setup: &RunSetup, talks: &RisingMap<Talk>, post: &Post) -> Case
    requires { post.now.at ≤ HORIZON }
    ensures { IsCase setup.now post.now.at
        (verdict setup.now (standings_in talks.now) post.now) result }
{
    match post.body {
        Body::Recharge {
            account,
            amount,
            until,
        } => match setup.place_of(account) {
            Some(place) => Case::Recharge {
                place,
                amount,
                until,
            },
            None => Case::Stray,
        },
        Body::Ssf { call, msg } => match talks.get(call) {
            Some(talk) => go_on(*talk, post.number, post.at, call, msg),
            None => begin(setup, post.at, call, msg),
        },
    }
}

/// A message of a call that has a dialogue: the dialogue takes it, or refuses it.
fn go_on(talk: Talk, number: u64, at: u64, call: u64, msg: SsfMsg) -> Case
    ensures { (setup : _) → IsCase setup at (goes_on call talk.place
        (on_message (phase_of talk.dialogue) number at msg)) result }
{
    let Talk {
        mut dialogue,
        place,
    } = talk;
    match dialogue.take(number, at, msg) {
        Ok(turn) => Case::Talk {
            call,
            talk: Talk { dialogue, place },
            turn,
        },
        Err(_) => Case::Stray,
    }
}

/// A message of a call without dialogue: an InitialDP begins one where the caller is a subscriber.
fn begin(setup: &RunSetup, at: u64, call: u64, msg: SsfMsg) -> Case
    requires { at ≤ HORIZON }
    ensures { IsCase setup.now at (fresh_call setup.now call msg) result }
{
    let SsfMsg::InitialDp {
        calling,
        called,
        ..
    } = msg
    else {
        return Case::Stray;
    };
    let Some(place) = home_of(setup, calling) else {
        return Case::Rejected;
    };
    let route = setup.tariff().plan(called.as_bytes(), at);
    let (dialogue, turn) = Dialogue::begin(call, at, route, &setup.service());
    Case::Talk {
        call,
        talk: Talk { dialogue, place },
        turn,
    }
}

/// The place of the account of a calling number, none where it isn't a subscriber's.
fn home_of(setup: &RunSetup, calling: Number) -> Option<usize>
    ensures { result ≡ home_of calling setup.now }
{
    setup.place_of(setup.account_of(calling)?)
}

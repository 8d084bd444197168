//! What is done about a post, in each case.

ghost use Rattle.std.specs.Prelude.{◌≡◌, ◌==◌, if◌then◌else◌, ℕ, List, None, Some, true, false, length, map, IfOk, IsErr, IsSome, OnOk};
ghost use Rattle.std.specs.BTreeMap.{is_at};
ghost use Rattle.std.specs.Map.{lookup};
ghost use Rattle.std.specs.Ordering.{nat_cmp};
ghost use Rattle.runs_core.specs.Calls.{AreCalledIn, IsOnceCalled};
ghost use Rattle.runs_core.specs.Cases.{HasRoom, IsCredited, IsRightlyActed, CaseIsWithin, with_room};
ghost use Rattle.runs_core.specs.Handled.{answer_view};
ghost use Rattle.runs_core.specs.Refusals.{RefusesAt, WasAt};
ghost use Rattle.runs_core.specs.Workers.{standings_in};
ghost use Rattle.account_core.specs.Entries.{EntryData, asked_of};
ghost use Rattle.account_core.specs.Refusals.{IsRefusedAt, Refusal};
ghost use Rattle.run_values.specs.declared.run_fault.RunFault.TheVariants as out;

use crate::worker::{Case, Talk};
use account_core::{AccountFault, Gate, Op, Reply, RisingMap, Shared};
use cap_values::{Cause, Instructions};
use dialogue_core::{Asker, converse};
use run_values::{Answer, Body, RunFault};
use std::alloc::AllocError;
use std::sync::Wait;

/// Makes room for the dialogue of a case, where it has one: it is kept as it is before its
/// talk.
pub(crate) fn make_room(talks: &mut RisingMap<Talk>, case: &Case) -> Result<(), AllocError>
    ensures room { OnOk result (HasRoom case.now talks.new) }
    ensures others { OnOk result ((call : ℕ) → standings_in talks.new call
        ≡ with_room case.now (standings_in talks.old) call) }
{
    if let Case::Talk { call, talk, .. } = case {
        talks.insert(*call, *talk)?;
    }
    Ok(())
}

/// A gate has answered false.
#[derive(Clone, Copy)]
pub(crate) struct Shut;

impl From<Shut> for RunFault {
    ghost from_gives = { λ _ fault. fault ≡ out.GateClosed };

    fn from(_shut: Shut) -> RunFault {
        RunFault::GateClosed
    }
}

/// Asks the gate before a message of a call is taken up.
pub(crate) fn pass<G: Gate>(gate: &G, worker: u32, body: &Body) -> Result<(), Shut>
    ensures { IsErr result → G.may_shut }
{
    match *body {
        Body::Ssf { call, .. } if !gate.before(worker, call) => Err(Shut),
        _ => Ok(()),
    }
}

/// Lets the gate know that a message of a call was answered.
pub(crate) fn notify_gate<G: Gate>(gate: &G, worker: u32, body: &Body) {
    if let Body::Ssf { call, .. } = *body {
        gate.after(worker, call);
    }
}

/// Does what the case of a post asks for, and answers the post of this number.
pub(crate) fn act<S: Shared, R: Wait, G: Gate>(
    rt: &R,
    gate: &G,
    accounts: &[S],
    seats: &mut Vec<S::Seat>,
    talks: &mut RisingMap<Talk>,
    number: u64,
    case: Case,
) -> Result<Answer, Shut>
    requires keys { map S.reads.key seats.old.items ≡ map S.key accounts.now }
    requires within { CaseIsWithin (length accounts.now) case }
    requires room { HasRoom case talks.old }
    ensures same_keys { OnOk result (map S.reads.key seats.new.items ≡ map
        S.reads.key seats.old.items) }
    ensures same_numbers { OnOk result (map S.reads.number seats.new.items ≡ map
        S.reads.number seats.old.items) }
    ensures number { IfOk result (λ answer. answer.number ≡ number) }
    ensures acted { IfOk result (λ answer. IsRightlyActed (RefusesAt S.was seats.new.items)
        (map S.reads.number seats.old.items) case
        (record { lists = map S.reads.mine seats.old.items; talks = standings_in talks.old })
        (record { lists = map S.reads.mine seats.new.items; talks = standings_in talks.new })
        (answer_view answer)) }
    ensures called { IfOk result (λ answer. AreCalledIn S.calls case
        seats.old.items seats.new.items (answer_view answer)) }
    ensures was { OnOk result ((place : ℕ) (mine : List EntryData) (refusal : Refusal)
        → WasAt S.was seats.old.items place mine refusal
        → WasAt S.was seats.new.items place mine refusal) }
    ensures gate { IsErr result → G.may_shut }
{
    match case {
        Case::Stray => Ok(unasked(number, Instructions::Nothing, true)),
        Case::Rejected => {
            // Its caller isn't known.
            let rejection = Instructions::Release(Cause::call_rejected());
            Ok(unasked(number, rejection, false))
        }
        Case::Recharge {
            place,
            amount,
            until,
        } => {
            recharge(
                rt,
                gate,
                &accounts[place],
                &mut seats[place],
                number,
                Op::Credit { amount, until },
            )
        }
        Case::Talk { call, talk, turn } => {
            let Talk {
                mut dialogue,
                place,
            } = talk;
            let mut desk = Desk {
                rt,
                gate,
                account: &accounts[place],
                refused: None,
            };
            let instructions = converse(&mut desk, &mut seats[place], &mut dialogue, turn)?;
            keep(talks, call, Talk { dialogue, place });
            Ok(Answer {
                number,
                instructions,
                stray: false,
                refused: desk.refused,
            })
        }
    }
}

/// The answer to a post for which no account is asked.
fn unasked(number: u64, instructions: Instructions, stray: bool) -> Answer
    ensures { result ≡ record {
      number = number;
      instructions = instructions;
      stray = stray;
      refused = None;
    } }
{
    Answer {
        number,
        instructions,
        stray,
        refused: None,
    }
}

/// Puts a credit to an account.
fn recharge<S: Shared, R: Wait, G: Gate>(
    rt: &R,
    gate: &G,
    account: &S,
    seat: &mut S::Seat,
    number: u64,
    credit: Op,
) -> Result<Answer, Shut>
    requires { S.reads.key seat.old ≡ S.key account.now }
    ensures same_key { S.reads.key seat.new ≡ S.reads.key seat.old }
    ensures same_number { S.reads.number seat.new ≡ S.reads.number seat.old }
    ensures number { IfOk result (λ answer. answer.number ≡ number) }
    ensures credited { IfOk result (λ answer. IsCredited (IsRefusedAt (S.was seat.new))
        (S.reads.number seat.old) (asked_of credit)
        (S.reads.mine seat.old) (S.reads.mine seat.new) (answer_view answer)) }
    ensures called { IfOk result (λ answer. IsOnceCalled S.calls (asked_of credit)
        (answer_view answer) seat.old seat.new) }
    ensures was { (mine : List EntryData) (refusal : Refusal)
        → S.was seat.old mine refusal → S.was seat.new mine refusal }
    ensures gate { IsErr result → G.may_shut }
{
    let refused = match account.call(rt, seat, credit, gate) {
        Ok(_) => None,
        Err(AccountFault::GateClosed) => return Err(Shut),
        Err(fault) => Some(fault),
    };
    Ok(Answer {
        number,
        instructions: Instructions::Nothing,
        stray: false,
        refused,
    })
}

/// Keeps a dialogue as it is, in the place that it has.
fn keep(talks: &mut RisingMap<Talk>, call: u64, talk: Talk)
    requires { IsSome (lookup (is_at (nat_cmp call)) talks.old) }
    ensures { (other : ℕ) → lookup (is_at (nat_cmp other)) talks.new
        ≡ (if other == call then Some talk else lookup (is_at (nat_cmp other)) talks.old) }
{
    talks.set(call, talk)
}

/// Where a seat asks its account, and the last fault that an ask got there.
#[derive(Drop)]
struct Desk<'a, S, R, G> {
    rt: &'a R,
    gate: &'a G,
    account: &'a S,
    refused: Option<AccountFault>,
}

impl<S: Shared, R: Wait, G: Gate> Asker<S::Seat> for Desk<'_, S, R, G> {
    ghost use Rattle.std.specs.Prelude.{◌≡◌};
    ghost use Rattle.runs_core.specs.Cases.{AtDesk};

    type End = Shut;

    ghost may_ask = { λ at. S.reads.key at.1 ≡ S.key at.0.account.now };

    ghost does = { AtDesk (λ at. (at.1, at.0.refused)) S.reads S.was S.calls };

    ghost ends = { λ _ _ _ _. G.may_shut };

    /// Asks the account from a seat. A closed gate ends the talk.
    fn ask(&mut self, seat: &mut S::Seat, op: Op) -> Result<Result<Reply, AccountFault>, Shut> {
        match self.account.call(self.rt, seat, op, self.gate) {
            Err(AccountFault::GateClosed) => Err(Shut),
            Err(fault) => {
                self.refused = Some(fault);
                Ok(Err(fault))
            }
            Ok(reply) => Ok(Ok(reply)),
        }
    }
}

//! Accounts that are handed on by turns: seats that meet.

use super::forms::{Ask, close, entries_of_each, op_of, says, two_seats};
use crate::answers::Want;
use crate::looking::gives;
use account_core::{Book, OpenGate};
use std::alloc::Global;
use std::process::Abort;
use std::sync::Wait;
use turn_account::TurnAccount;

/// The book of an account whose two seats met, and credited once more or not.
fn book_of_met<R: Abort + Wait>(rt: &R, alloc: Global, more: bool) -> Book {
    let (account, mut first, mut second) = two_seats::<TurnAccount, R>(rt, alloc, 1, 0, None);
    let op = op_of(Ask::Credit(600, None));
    let answer = account.call(rt, &mut first, op, &OpenGate);
    says(rt, op, answer, Want::Credited(600));
    gives(rt, &"seats", &(first.number(), second.number()), &(0, 1));
    account.meet(&mut first, &mut second);
    let op = op_of(Ask::Reserve(1, 0));
    let answer = account.call(rt, &mut second, op, &OpenGate);
    says(rt, op, answer, Want::Granted(330, true, 0));
    if more {
        account.meet(&mut second, &mut first);
        let op = op_of(Ask::Credit(1, None));
        let answer = account.call(rt, &mut first, op, &OpenGate);
        says(rt, op, answer, Want::Credited(1));
    }
    close(rt, alloc, account, first, second).expect(rt, "a book")
}

#[test]
fn meets_share_one_history(rt: HostRuntime) {
    for &(more, entries) in &[(false, (1, 1)), (true, (2, 1))] {
        let book = book_of_met(&rt, rt.alloc(), more);
        gives(&rt, &more, &entries_of_each(&book), &entries);
    }
}

//! Which worker handles what a driver gives.

ghost use Rattle.std.specs.Prelude.{◌≡◌, ◌≤◌, ◌<◌, ◌^◌, ◌+◌, length, map, All, IfOk};
ghost use Rattle.std.specs.List.{HoldsAt};
ghost use Rattle.runs_core.specs.Hearing.{HaveRefused};
ghost use Rattle.runs_core.specs.Shares.{AreShares, HaveHandled, item_at, item_of, worker_of};

use crate::opened::empty_piles;
use account_core::AccountFault;
use price_core::HORIZON;
use run_values::{Answer, Body, Post};
use std::alloc::{AllocError, Global};

/// What each of so many workers handles of all that a driver has given: the share of worker 0, of
/// worker 1, and so on, in the order of the items. The only error is out of memory.
pub fn handled(
    alloc: Global,
    workers: u32,
    given: &[(u64, Body)],
) -> Result<Vec<Vec<Post>>, AllocError>
    requires some { 0 < workers }
    requires moments { All (λ item. item.0 ≤ HORIZON) given.now }
    ensures { IfOk result (λ handled.
        HaveHandled workers given.now (map (λ posts. posts.items) handled.items)) }
{
    share_out(alloc, workers as usize, 0, given)
}

/// For each post that a worker handles of what was given, in the order of `handled`, the last fault
/// that an ask of an account for it got, as the answer to its item says; none where every ask
/// for it was entered, or there was none. The only error is out of memory.
pub fn refusals(
    alloc: Global,
    workers: u32,
    given: &[(u64, Body)],
    answers: &[Answer],
) -> Result<Vec<Vec<Option<AccountFault>>>, AllocError>
    requires some { 0 < workers }
    requires each { length answers.now ≡ length given.now }
    ensures { IfOk result (λ lists.
        HaveRefused workers given.now answers.now (map (λ list. list.items) lists.items)) }
{
    let mut lists = empty_piles(alloc, workers as usize)?;
    for place in 0..given.len() {
        let worker = worker_of(workers as usize, &given[place].1);
        lists[worker].push(answers[place].refused)?;
    }
    Ok(lists)
}

/// Shares out the items of a round, each to the worker of its call or account.
pub(crate) fn share_out(
    alloc: Global,
    workers: usize,
    first: usize,
    added: &[(u64, Body)],
) -> Result<Vec<Vec<Post>>, AllocError>
    requires some { 0 < workers }
    requires few { first + length added.now < 2 ^ 64 }
    requires moments { All (λ item. item.0 ≤ HORIZON) added.now }
    ensures shares { IfOk result (λ shares.
        AreShares workers first added.now (map (λ share. share.items) shares.items)) }
{
    let mut shares = empty_piles(alloc, workers)?;
    for place in 0..added.len() {
        let post = post_at(added, place, first + place);
        let worker = worker_of(workers, &post.body);
        shares[worker].push(post)?;
    }
    Ok(shares)
}

/// The item at a place, as a post of this number.
fn post_at(added: &[(u64, Body)], place: usize, number: usize) -> Post
    requires within { place < length added.now }
    requires moments { All (λ item. item.0 ≤ HORIZON) added.now }
    ensures { HoldsAt (λ item. item_of result ≡ item_at number item) added.now place }
{
    let (at, body) = added[place];
    Post {
        number: number as u64,
        at,
        body,
    }
}

/// The worker of a body, among so many.
pub(crate) fn worker_of(workers: usize, body: &Body) -> usize
    requires some { 0 < workers }
    ensures value { result ≡ worker_of workers body.now }
    ensures within { result < workers }
{
    let number = match *body {
        Body::Ssf { call, .. } => call,
        Body::Recharge { account, .. } => u64::from(account),
    };
    (number % workers as u64) as usize
}

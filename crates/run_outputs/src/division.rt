//! A script is divided.

ghost use Rattle.std.specs.Prelude.{◌≡◌, ◌≤◌, ◌<◌, ◌+◌, true, All, length, map, max, IfOk, IfSome};
ghost use Rattle.std.specs.List.Sorted.{IsStrictlySortedBy};
ghost use Rattle.std.specs.Ordering.{nat_cmp};
ghost use Rattle.run_outputs.specs.Parts.{AreParts, part_count, part_of, payer_in, payer_of};
ghost use Rattle.run_values.specs.Setups.{has_account};
ghost use Rattle.run_texts.specs.Views.{rows_are_in_order, happens_of, row_data, with_digits};

use crate::firsts::Firsts;
use crate::payers::payers_in;
use account_core::RisingMap;
use price_core::MAX_MOMENT;
use run_texts::{Happening, ScriptRow};
use run_values::RunSetup;
use std::alloc::{AllocError, Global};

/// A script that is divided.
#[derive(Drop)]
pub struct Division {
    /// Where its parts begin.
    pub firsts: Firsts,
    /// The rows of each part, in the order of the whole script.
    pub scripts: Vec<Vec<ScriptRow>>,
}

/// Divides a script among so many parts, but no more than there are accounts. The accounts of a
/// part are neighbours in the order of their numbers, and the parts have about as many rows each.
///
/// A call goes to the part of its account, a recharge to that of the account that it names, and a
/// call of no subscriber to a part by its number. Rows that are in range and in order are so in
/// each part.
pub fn divide(
    alloc: Global,
    setup: &RunSetup,
    script: Vec<ScriptRow>,
    parts: u32,
) -> Result<Division, AllocError>
    ensures count { IfOk result (λ division. 1 + length division.firsts
        ≡ part_count parts (length setup.now.accounts)) }
    ensures rising { IfOk result (λ division. IsStrictlySortedBy nat_cmp division.firsts) }
    ensures firsts { IfOk result (λ division.
        All (λ first. has_account first setup.now.accounts ≡ true) division.firsts) }
    ensures parts { IfOk result (λ division. AreParts division.firsts
        (payer_of (with_digits setup.now.subscribers) (map row_data script.items))
        script.items (map (λ rows. rows.items) division.scripts.items)) }
    ensures in_range { IfOk result (λ division. All (λ row. row.at ≤ MAX_MOMENT) script.items
        → All (λ rows. All (λ row. row.at ≤ MAX_MOMENT) rows.items) division.scripts.items) }
    ensures in_order { IfOk result (λ division. rows_are_in_order 0 script.items ≡ true
        → All (λ rows. rows_are_in_order 0 rows.items ≡ true) division.scripts.items) }
{
    let payers = payers_in(alloc, setup, script.as_slice())?;
    let weights = weights_in(alloc, setup, &payers, script.as_slice())?;
    let count = (parts as usize).min(setup.account_count()).max(1);
    let firsts = first_accounts(alloc, setup, weights.as_slice(), count)?;
    let scripts = deal(alloc, &firsts, &payers, script.as_slice())?;
    Ok(Division { firsts, scripts })
}

/// How many rows of a script there are of each account, the accounts ascending.
fn weights_in(
    alloc: Global,
    setup: &RunSetup,
    payers: &RisingMap<u32>,
    script: &[ScriptRow],
) -> Result<Vec<u64>, AllocError>
    ensures { IfOk result (λ weights. length weights.items ≡ length setup.now.accounts) }
{
    let mut weights = Vec::with_capacity(alloc, setup.account_count())?;
    for _ in 0..setup.account_count() {
        weights.push(0u64)?;
    }
    for row in script {
        if let Some(place) = place_of(setup, payers, row.what) {
            weights[place] = weights[place].saturating_add(1);
        }
    }
    Ok(weights)
}

/// The place of the account of what happens, if it has one.
fn place_of(setup: &RunSetup, payers: &RisingMap<u32>, what: Happening) -> Option<usize>
    ensures { IfSome result (λ place. place < length setup.now.accounts) }
{
    let account = match what {
        Happening::Start { call, .. } | Happening::Meets { call, .. } => *payers.get(call)?,
        Happening::Recharge { account, .. } => account,
    };
    setup.place_of(account)
}

/// The accounts with which the second of so many parts and each further one begins. A part ends
/// where it has its share of the rows, or where each account that is left is needed for a part of
/// its own.
fn first_accounts(
    alloc: Global,
    setup: &RunSetup,
    weights: &[u64],
    count: usize,
) -> Result<Firsts, AllocError>
    requires weights { length weights.now ≡ length setup.now.accounts }
    requires some { 1 ≤ count }
    requires few { count ≤ max 1 (length setup.now.accounts) }
    ensures count { IfOk result (λ firsts. 1 + length firsts ≡ count) }
    ensures rising { IfOk result (λ firsts. IsStrictlySortedBy nat_cmp firsts) }
    ensures accounts { IfOk result (λ firsts.
        All (λ first. has_account first setup.now.accounts ≡ true) firsts) }
{
    let _ = setup.accounts();
    let share = total(weights) / count as u64;
    let mut firsts = Vec::with_capacity(alloc, count)?;
    let mut taken = 0u64;
    for place in 0..weights.len() {
        let missing = count - 1 - firsts.len();
        let is_full = place > 0 && taken >= share.saturating_mul(1 + firsts.len() as u64);
        if is_begun(weights.len() - place, missing, is_full) {
            firsts.push(setup.number(place))?;
        }
        taken = taken.saturating_add(weights[place]);
    }
    Ok(Firsts::of(firsts))
}

/// Whether the next part begins, where so many accounts are left and so many parts are missing.
fn is_begun(left: usize, missing: usize, is_full: bool) -> bool
    ensures missing { result ≡ true → 1 ≤ missing }
    ensures needed { 1 ≤ missing → left ≤ missing → result ≡ true }
{
    missing > 0 && (left <= missing || is_full)
}

/// The sum of weights, or `u64::MAX` where it is larger.
fn total(weights: &[u64]) -> u64 {
    let mut total = 0u64;
    for weight in weights {
        total = total.saturating_add(*weight);
    }
    total
}

/// Lays each row of a script onto the pile of its part.
fn deal(
    alloc: Global,
    firsts: &Firsts,
    payers: &RisingMap<u32>,
    script: &[ScriptRow],
) -> Result<Vec<Vec<ScriptRow>>, AllocError>
    ensures { IfOk result (λ piles. AreParts firsts.now (payer_in payers.now)
        script.now (map (λ rows. rows.items) piles.items)) }
{
    let mut piles = Vec::with_capacity(alloc, firsts.part_count())?;
    for _ in 0..firsts.part_count() {
        piles.push(Vec::new(alloc))?;
    }
    for row in script {
        piles[part_of(firsts, payers, row.what)].push(*row)?;
    }
    Ok(piles)
}

/// The part of what happens.
fn part_of(firsts: &Firsts, payers: &RisingMap<u32>, what: Happening) -> usize
    ensures part { result ≡ part_of firsts.now (payer_in payers.now) (happens_of what) }
    ensures within { result ≤ length firsts.now }
{
    match what {
        Happening::Start { call, .. } | Happening::Meets { call, .. } => match payers.get(call) {
            Some(account) => firsts.part_of(*account),
            None => (call % firsts.part_count() as u64) as usize,
        },
        Happening::Recharge { account, .. } => firsts.part_of(account),
    }
}

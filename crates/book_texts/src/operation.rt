//! An operation in the fields of a row: its word, its call, and x1 to x9.

ghost use Rattle.std.specs.Prelude.{◌≡◌, ◌+◌, ◌≤◌, IfOk};
ghost use Rattle.std.specs.Result.{result_map_both};
ghost use Rattle.csv.specs.Records.{fields_of};
ghost use Rattle.table_core.specs.Fields.{field_in};
ghost use Rattle.account_core.specs.Entries.{asked_of};
ghost use Rattle.price_core.specs.RatesOf.{rates_of};
ghost use Rattle.book_texts.specs.Column.{units_of};
ghost use Rattle.book_texts.specs.Columns.{first_operation_at, operation_at, x6_at, x7_at, x8_at, x9_at};
ghost use Rattle.book_texts.specs.Operations.{are_added_empty, are_last_empty, asked_in, at_of, credit_in, first_column, free_of, is_asked_blank, is_money_blank, settle_without_switch, plan_in, reserve_in, return_in, settle_in, step_column, settle_with_switch, until_of};

use crate::offsets::{CALL, X1, X2, X3, X4, X5, X6, X7, X8, X9};
use crate::version::Version;
use crate::words::OpWord;
use account_core::Op;
use csv::ByteRecord;
use price_core::{DAY, HORIZON, MAX_MONEY, MAX_RATE, Plan, TimeInfo};
use table_core::{RowKind, is_blank, number, optional};

/// The operation of this word whose columns begin at `at`; else `Number`. The columns that must be
/// empty aren't judged.
#[inline(always)]
pub fn read_op(row: &ByteRecord, at: usize, version: Version, word: OpWord) -> Result<Op, RowKind>
    requires { at ≤ 16 }
    ensures { result_map_both asked_of (λ kind. kind) result
        ≡ asked_in word (operation_at version (fields_of row.now) at) }
{
    match word {
        OpWord::Credit => read_credit(row, at, version),
        OpWord::Reserve => read_reserve(row, at, version),
        OpWord::SettleNoSwitch => read_settle(row, at, read_no_switch(row, at)?),
        OpWord::SettleSwitch => read_settle(row, at, read_switch(row, at)?),
        OpWord::Return => read_return(row, at),
    }
}

/// The credit whose columns begin at `at`; else `Number`.
fn read_credit(row: &ByteRecord, at: usize, version: Version) -> Result<Op, RowKind>
    requires { at ≤ 16 }
    ensures { result_map_both asked_of (λ kind. kind) result
        ≡ credit_in (operation_at version (fields_of row.now) at) }
{
    let amount = number(row, at + X1, MAX_MONEY)?;
    let until = read_until(row, at, version)?;
    Ok(Op::Credit { amount, until })
}

/// The last moment of an opening or of a credit whose columns begin at `at`, 0 to `HORIZON`: in x2
/// from version 3 on, where it may be left out, and none before; else `Number`.
pub fn read_until(row: &ByteRecord, at: usize, version: Version) -> Result<Option<u64>, RowKind>
    requires { at ≤ 16 }
    ensures value { result ≡ until_of version (field_in (fields_of row.now) (at + 3)) }
{
    match version {
        Version::One | Version::Two => Ok(None),
        Version::Three | Version::Four => optional(row, at + X2, HORIZON),
    }
}

/// The reserve whose columns begin at `at`; else `Number`.
#[tactic(auto, unfolding(crate::specs::Operations::reserve_in))]
#[inline(always)]
fn read_reserve(row: &ByteRecord, at: usize, version: Version) -> Result<Op, RowKind>
    requires { at ≤ 16 }
    ensures { result_map_both asked_of (λ kind. kind) result
        ≡ reserve_in (operation_at version (fields_of row.now) at) }
{
    let call = number(row, at + CALL, u64::MAX)?;
    let plan = read_plan(row, at, version)?;
    let wanted = read_units(row, at + X4)?;
    let least = read_units(row, at + X5)?;
    let at = read_moment(row, at, version)?;
    Ok(Op::Reserve {
        call,
        plan,
        wanted,
        least,
        at,
    })
}

/// The plan of the reserve whose columns begin at `at`; else `Number`.
#[tactic(auto, unfolding(crate::specs::Operations::plan_in))]
#[inline(always)]
fn read_plan(row: &ByteRecord, at: usize, version: Version) -> Result<Plan, RowKind>
    requires { at ≤ 16 }
    ensures { result_map_both rates_of (λ kind. kind) result
        ≡ plan_in (operation_at version (fields_of row.now) at) }
{
    let fee = number(row, at + X1, MAX_RATE)?;
    let before = number(row, at + X2, MAX_RATE)?;
    let after = optional(row, at + X3, MAX_RATE)?;
    let free = read_free(row, at, version)?;
    let first = read_first(row, at, version)?;
    let step = read_step(row, at, version)?;
    Ok(Plan {
        fee,
        before,
        after,
        free,
        first,
        step,
    })
}

/// The moment of a reserve: 0 before version 3, and given there.
#[inline(always)]
fn read_moment(row: &ByteRecord, at: usize, version: Version) -> Result<u64, RowKind>
    requires { at ≤ 16 }
    ensures { result ≡ at_of version (x7_at version (fields_of row.now) at) }
{
    match version {
        Version::One | Version::Two => Ok(0),
        Version::Three | Version::Four => number(row, at + X7, HORIZON),
    }
}

/// The free units of a reserve: none in version 1, and given from version 2 on.
fn read_free(row: &ByteRecord, at: usize, version: Version) -> Result<u32, RowKind>
    requires { at ≤ 16 }
    ensures value { result ≡ free_of version (x6_at version (fields_of row.now) at) }
    ensures within_day { IfOk result (λ free. free ≤ DAY) }
{
    match version {
        Version::One => Ok(0),
        Version::Two | Version::Three | Version::Four => read_units(row, at + X6),
    }
}

/// The least that is billed of a reserve: 0 before version 4, and given there.
fn read_first(row: &ByteRecord, at: usize, version: Version) -> Result<u32, RowKind>
    requires { at ≤ 16 }
    ensures value { result ≡ first_column version (x8_at version (fields_of row.now) at) }
    ensures within_day { IfOk result (λ first. first ≤ DAY) }
{
    match version {
        Version::One | Version::Two | Version::Three => Ok(0),
        Version::Four => read_units(row, at + X8),
    }
}

/// The billing step of a reserve: 1 before version 4, and given there, at least 1.
fn read_step(row: &ByteRecord, at: usize, version: Version) -> Result<u32, RowKind>
    requires { at ≤ 16 }
    ensures value { result ≡ step_column version (x9_at version (fields_of row.now) at) }
    ensures positive { IfOk result (λ step. 1 ≤ step) }
    ensures within_day { IfOk result (λ step. step ≤ DAY) }
{
    match version {
        Version::One | Version::Two | Version::Three => Ok(1),
        Version::Four => match read_units(row, at + X9)? {
            0 => Err(RowKind::Number),
            step => Ok(step),
        },
    }
}

/// The settle whose columns begin at `at`, by what its report says; else `Number`.
#[inline(always)]
fn read_settle(row: &ByteRecord, at: usize, info: TimeInfo) -> Result<Op, RowKind>
    requires { at ≤ 16 }
    ensures { result_map_both asked_of (λ kind. kind) result
        ≡ settle_in (first_operation_at (fields_of row.now) at) info }
{
    let call = number(row, at + CALL, u64::MAX)?;
    let number = number(row, at + X1, u64::MAX)?;
    Ok(Op::Settle { call, number, info })
}

/// What a report without a tariff switch says, in the columns that begin at `at`; else `Number`.
fn read_no_switch(row: &ByteRecord, at: usize) -> Result<TimeInfo, RowKind>
    requires { at ≤ 16 }
    ensures { result ≡ settle_without_switch (first_operation_at (fields_of row.now) at) }
{
    let t = read_units(row, at + X3)?;
    Ok(TimeInfo::NoSwitch { t })
}

/// What a report after a tariff switch says, in the columns that begin at `at`; else `Number`.
fn read_switch(row: &ByteRecord, at: usize) -> Result<TimeInfo, RowKind>
    requires { at ≤ 16 }
    ensures { result ≡ settle_with_switch (first_operation_at (fields_of row.now) at) }
{
    let since = read_units(row, at + X3)?;
    let interval = match optional(row, at + X4, u64::from(DAY))? {
        Some(interval) => Some(interval as u32),
        None => None,
    };
    TimeInfo::switch(since, interval).map_err(|_| RowKind::Number)
}

/// The return whose columns begin at `at`; else `Number`.
fn read_return(row: &ByteRecord, at: usize) -> Result<Op, RowKind>
    requires { at ≤ 16 }
    ensures { result_map_both asked_of (λ kind. kind) result
        ≡ return_in (first_operation_at (fields_of row.now) at) }
{
    let call = number(row, at + CALL, u64::MAX)?;
    Ok(Op::Return { call })
}

/// The time in the field at `place`, 0 to a day in units of 100 ms; else `Number`.
pub(crate) fn read_units(row: &ByteRecord, place: usize) -> Result<u32, RowKind>
    ensures value { result ≡ units_of (field_in (fields_of row.now) place) }
    ensures within_day { IfOk result (λ units. units ≤ DAY) }
{
    let units = number(row, place, u64::from(DAY))?;
    Ok(units as u32)
}

/// Whether the columns are empty that this operation, whose columns begin at `at`, doesn't use.
#[inline(always)]
pub fn is_op_blank(row: &ByteRecord, at: usize, version: Version, word: OpWord) -> bool
    requires { at ≤ 16 }
    ensures { result ≡ is_asked_blank word (operation_at version (fields_of row.now) at) }
{
    match word {
        OpWord::Credit => is_money_blank(row, at, version),
        OpWord::Reserve => true,
        OpWord::SettleNoSwitch => {
            is_blank(row, at + X4) && is_blank(row, at + X5) && are_added_blank(row, at, version)
        }
        OpWord::SettleSwitch => is_blank(row, at + X5) && are_added_blank(row, at, version),
        OpWord::Return => {
            is_blank(row, at + X1) && is_blank(row, at + X2) && are_last_blank(row, at, version)
        }
    }
}

/// Whether the columns are empty that neither an opening nor a credit uses whose columns begin at
/// `at`: the call, x2 but from version 3 on, and x3 to x9.
pub fn is_money_blank(row: &ByteRecord, at: usize, version: Version) -> bool
    requires { at ≤ 16 }
    ensures { result ≡ is_money_blank (operation_at version (fields_of row.now) at) }
{
    is_blank(row, at + CALL)
        && (matches!(version, Version::Three | Version::Four) || is_blank(row, at + X2))
        && are_last_blank(row, at, version)
}

/// Whether x3 to x9 are empty of an operation whose columns begin at `at`.
fn are_last_blank(row: &ByteRecord, at: usize, version: Version) -> bool
    requires { at ≤ 16 }
    ensures { result ≡ are_last_empty (operation_at version (fields_of row.now) at) }
{
    is_blank(row, at + X3)
        && is_blank(row, at + X4)
        && is_blank(row, at + X5)
        && are_added_blank(row, at, version)
}

/// Whether x6 to x9 are empty, where there are such columns.
fn are_added_blank(row: &ByteRecord, at: usize, version: Version) -> bool
    requires { at ≤ 16 }
    ensures { result ≡ are_added_empty (operation_at version (fields_of row.now) at) }
{
    match version {
        Version::One => true,
        Version::Two => is_blank(row, at + X6),
        Version::Three => is_blank(row, at + X6) && is_blank(row, at + X7),
        Version::Four => {
            is_blank(row, at + X6)
                && is_blank(row, at + X7)
                && is_blank(row, at + X8)
                && is_blank(row, at + X9)
        }
    }
}

//! The script of a run: what happens, row after row.

ghost use Rattle.std.specs.Prelude.{◌≡◌, ◌≤◌, All, IfOk, IfSome, OnOk, map, true};
ghost use Rattle.std.specs.Result.{result_map_both};
ghost use Rattle.run_texts.specs.Scripts.{last_row_moment, script_row_at, script_of, call_in, disconnect_in, event_row_in, happens_in, read_in, recharge_row_in, start_row_in, row_word_in};
ghost use Rattle.run_texts.specs.Starts.{HasCalls, NotesStart};
ghost use Rattle.run_texts.specs.Happenings.{is_in_time};
ghost use Rattle.run_texts.specs.Views.{rows_are_in_order, row_data, happens_of};
ghost use Rattle.csv.specs.Records.{fields_of};
ghost use Rattle.table_core.specs.Faults.{GivesTable};
ghost use Rattle.table_core.specs.Rows.{rows_of};

use crate::fields::{account, amount, moment_field, party, until};
use cap_values::{Leg, Number};
use csv::ByteRecord;
use price_core::MAX_MOMENT;
use run_values::Directory;
use ssf_core::{BcsmEvent, Moment};
use std::alloc::{AllocError, Global};
use std::collections::BTreeSet;
use std::io::Read;
use table_core::{
    RowKind, TableFault, TakeFault, TakeRow, field, has_word, is_blank, number, take_table,
    when_blank,
};

/// The most rows of a script, its header not counted.
const MAX_ROWS: u32 = 1_000_000;

/// What a script says, a table with the header `moment,call,what,x,y,z`, or the older one without
/// `z`, where the directory has the accounts of the setup.
///
/// `what` is `start` (x the calling and y the called party), `answer`, `busy`, `noanswer`,
/// `routefail`, `abandon`, `disconnect` (x the leg, 1 or 2) or `recharge` (without a call, x the
/// account, y the amount, and z its last moment from then on or empty); fields not named are empty.
///
/// Rows are judged in order as they are read, a row in this order: `Csv` where it hasn't the
/// header's fields; `TooManyRows` past 1,000,000 rows; `What` where its word is another one;
/// `Number` where a field isn't a decimal, a moment, or digits, within its range; `Empty` where a
/// field that must be empty isn't; `Order` where its moment lies below the one before; `Repeated`
/// where a call starts again; `Unknown` where no earlier row starts its call, or the setup hasn't
/// its account. `Header` is the fault of row 1.
pub fn read_script<I: Read + Drop>(
    alloc: Global,
    directory: &Directory,
    reader: I,
) -> Result<Vec<ScriptRow>, TableFault>
    ensures means { IfSome (I.remaining reader) (λ text.
        GivesTable (λ rows. map row_data rows.items) result
        (script_of directory.now.accounts (rows_of text))) }
    ensures in_range { IfOk result (λ rows. All (λ row. row.at ≤ MAX_MOMENT) rows.items) }
    ensures in_time { IfOk result (λ rows.
        All (λ row. is_in_time (happens_of row.what) ≡ true) rows.items) }
    ensures in_order { IfOk result (λ rows. rows_are_in_order 0 rows.items ≡ true) }
{
    let headers: &[&[&str]] = &[
        &["moment", "call", "what", "x", "y"],
        &["moment", "call", "what", "x", "y", "z"],
    ];
    let mut script = Script {
        directory,
        calls: BTreeSet::new(alloc),
        rows: Vec::new(alloc),
        last: 0,
    };
    take_table(alloc, reader, headers, MAX_ROWS, &mut script)?;
    let Script { rows, .. } = script;
    Ok(rows)
}

/// A script, as far as it was read.
#[derive(Drop)]
struct Script<'d> {
    directory: &'d Directory,
    /// The calls that have started.
    calls: BTreeSet<u64>,
    rows: Vec<ScriptRow>,
    /// The moment of the last row.
    last: Moment,
}

impl TakeRow for Script<'_> {
    ghost use Rattle.std.specs.Prelude.{◌≡◌, ◌∷◌, ℕ, List, Ok};
    ghost use Rattle.run_texts.specs.Happenings.{RowData};
    ghost use Rattle.run_texts.specs.Scripts.{script_row_at};
    ghost use Rattle.run_texts.specs.ScriptsRead.{AreRowsOf};
    ghost use Rattle.run_values.specs.declared.directory.OpeningCredit.{OpeningCredit};
    ghost use Rattle.table_core.specs.Judging.{and_then};

    ghost Terms = { List (ℕ × OpeningCredit) };

    ghost Made = { List RowData };

    ghost judge = { λ accounts header earlier fields.
        and_then (script_row_at accounts earlier fields) (λ row. Ok (row ∷ earlier)) };

    ghost Has = { λ accounts script taken earlier. (script.directory.now.accounts ≡ accounts)
        × AreRowsOf earlier script.calls script.last script.rows.items };

    fn take(&mut self, _header: usize, row: &ByteRecord) -> Result<(), TakeFault> {
        let row = judge(self.directory, &self.calls, self.last, row)?;
        note(&mut self.calls, row.what)?;
        self.rows.push(row)?;
        self.last = row.at;
        Ok(())
    }
}

/// What a row says, after a row of the moment `last` and the calls that have started.
#[tactic(auto, unfolding(crate::specs::Scripts::script_row_at))]
fn judge(
    directory: &Directory,
    calls: &BTreeSet<u64>,
    last: Moment,
    row: &ByteRecord,
) -> Result<ScriptRow, RowKind>
    ensures says { (earlier : _) → HasCalls calls.now earlier → last ≡ last_row_moment earlier
        → result_map_both row_data (λ kind. kind) result
        ≡ script_row_at directory.now.accounts earlier (fields_of row.now) }
    ensures in_range { IfOk result (λ row. row.at ≤ MAX_MOMENT) }
    ensures in_time { IfOk result (λ row. is_in_time (happens_of row.what) ≡ true) }
    ensures in_order { IfOk result (λ row. last ≤ row.at) }
{
    let row = read_row(row)?;
    if row.at < last {
        return Err(RowKind::Order);
    }
    match row.what {
        Happening::Start { call, .. } => {
            if calls.contains(&call) {
                return Err(RowKind::Repeated);
            }
        }
        Happening::Meets { call, .. } => {
            if !calls.contains(&call) {
                return Err(RowKind::Unknown);
            }
        }
        Happening::Recharge { account, .. } => {
            if !directory.has_account(account) {
                return Err(RowKind::Unknown);
            }
        }
    }
    Ok(row)
}

/// Puts a call that starts into the set.
fn note(calls: &mut BTreeSet<u64>, what: Happening) -> Result<(), AllocError>
    ensures { OnOk result (NotesStart (happens_of what) calls.old calls.new) }
{
    if let Happening::Start { call, .. } = what {
        calls.insert(call)?;
    }
    Ok(())
}

/// What happens, and when.
#[derive(Clone, Copy)]
pub struct ScriptRow {
    /// The moment, 0 to `MAX_MOMENT`.
    pub at: Moment,
    /// What happens then.
    pub what: Happening,
}

/// What happens in a run.
#[derive(Clone, Copy)]
pub enum Happening {
    /// A call starts.
    Start {
        /// The call.
        call: u64,
        /// The number of the calling party.
        calling: Number,
        /// The number of the called party.
        called: Number,
    },
    /// A call meets an event.
    Meets {
        /// The call.
        call: u64,
        /// What it meets.
        event: BcsmEvent,
    },
    /// An account is recharged.
    Recharge {
        /// The account's number.
        account: u32,
        /// How much, 0 to `price_core::MAX_MONEY`.
        amount: u64,
        /// Its last moment from then on, 0 to `MAX_MOMENT`; none leaves it as it is.
        until: Option<Moment>,
    },
}

/// What a row says by itself: it has five fields, or six under the second header.
fn read_row(row: &ByteRecord) -> Result<ScriptRow, RowKind>
    ensures says { result_map_both row_data (λ kind. kind) result
        ≡ read_in (fields_of row.now) }
    ensures in_range { IfOk result (λ row. row.at ≤ MAX_MOMENT) }
    ensures in_time { IfOk result (λ row. is_in_time (happens_of row.what) ≡ true) }
{
    let word = read_word(row)?;
    let at = moment_field(field(row, 0), MAX_MOMENT)?;
    let what = read_happening(row, word)?;
    Ok(ScriptRow { at, what })
}

/// What happens in a row with this word.
fn read_happening(row: &ByteRecord, word: Word) -> Result<Happening, RowKind>
    ensures says { result_map_both happens_of (λ kind. kind) result
        ≡ happens_in (fields_of row.now) word }
    ensures in_time { IfOk result (λ what. is_in_time (happens_of what) ≡ true) }
{
    match word {
        Word::Start => read_start(row),
        Word::Event(event) => read_event(row, event),
        Word::Disconnect => read_disconnect(row),
        Word::Recharge => read_recharge(row),
    }
}

/// The call: any number of 64 bits.
fn read_call(row: &ByteRecord) -> Result<u64, RowKind>
    ensures { result ≡ call_in (fields_of row.now) }
{
    number(row, 1, u64::MAX)
}

/// A call starts: x is the calling and y the called party.
fn read_start(row: &ByteRecord) -> Result<Happening, RowKind>
    ensures says { result_map_both happens_of (λ kind. kind) result
        ≡ start_row_in (fields_of row.now) }
    ensures in_time { IfOk result (λ what. is_in_time (happens_of what) ≡ true) }
{
    let call = read_call(row)?;
    let calling = party(field(row, 3))?;
    let called = party(field(row, 4))?;
    let start = Happening::Start {
        call,
        calling,
        called,
    };
    when_blank(is_blank(row, 5), start)
}

/// A call meets an event that has no more to say.
fn read_event(row: &ByteRecord, event: BcsmEvent) -> Result<Happening, RowKind>
    ensures says { result_map_both happens_of (λ kind. kind) result
        ≡ event_row_in (fields_of row.now) event }
    ensures in_time { IfOk result (λ what. is_in_time (happens_of what) ≡ true) }
{
    let call = read_call(row)?;
    let blank = is_blank(row, 3) && is_blank(row, 4) && is_blank(row, 5);
    when_blank(blank, Happening::Meets { call, event })
}

/// A party of a call hangs up: x is its leg.
fn read_disconnect(row: &ByteRecord) -> Result<Happening, RowKind>
    ensures says { result_map_both happens_of (λ kind. kind) result
        ≡ disconnect_in (fields_of row.now) }
    ensures in_time { IfOk result (λ what. is_in_time (happens_of what) ≡ true) }
{
    let call = read_call(row)?;
    let leg = match number(row, 3, 2)? {
        1 => Leg::One,
        2 => Leg::Two,
        _ => return Err(RowKind::Number),
    };
    let event = BcsmEvent::Disconnect(leg);
    let blank = is_blank(row, 4) && is_blank(row, 5);
    when_blank(blank, Happening::Meets { call, event })
}

/// An account is recharged: x is the account, y the amount, and z its last moment from then on.
fn read_recharge(row: &ByteRecord) -> Result<Happening, RowKind>
    ensures says { result_map_both happens_of (λ kind. kind) result
        ≡ recharge_row_in (fields_of row.now) }
    ensures in_time { IfOk result (λ what. is_in_time (happens_of what) ≡ true) }
{
    let account = account(field(row, 3))?;
    let amount = amount(field(row, 4))?;
    let until = until(field(row, 5))?;
    let recharge = Happening::Recharge {
        account,
        amount,
        until,
    };
    when_blank(is_blank(row, 1), recharge)
}

/// What a row of a script is about.
#[derive(Clone, Copy)]
enum Word {
    /// A call starts.
    Start,
    /// A call meets an event that has no more to say.
    Event(BcsmEvent),
    /// A party of a call hangs up.
    Disconnect,
    /// An account is recharged.
    Recharge,
}

/// The word in a row, its third field.
fn read_word(row: &ByteRecord) -> Result<Word, RowKind>
    ensures { result ≡ row_word_in (fields_of row.now) }
{
    if has_word(row, 2, "start") {
        Ok(Word::Start)
    } else if has_word(row, 2, "answer") {
        Ok(Word::Event(BcsmEvent::Answer))
    } else if has_word(row, 2, "busy") {
        Ok(Word::Event(BcsmEvent::Busy))
    } else if has_word(row, 2, "noanswer") {
        Ok(Word::Event(BcsmEvent::NoAnswer))
    } else if has_word(row, 2, "routefail") {
        Ok(Word::Event(BcsmEvent::RouteSelectFailure))
    } else if has_word(row, 2, "abandon") {
        Ok(Word::Event(BcsmEvent::Abandon))
    } else if has_word(row, 2, "disconnect") {
        Ok(Word::Disconnect)
    } else if has_word(row, 2, "recharge") {
        Ok(Word::Recharge)
    } else {
        Err(RowKind::What)
    }
}

//! `replay`: a sequential account answers the operations of a table.

ghost use Rattle.std.specs.Prelude.{◌≡◌, ◌≢◌, ◌++◌, ◌≤◌, Err, IfErr, IfSome, OnOk, string_bytes};
ghost use Rattle.std.specs.Result.{result_map_both};
ghost use Rattle.book_texts.specs.ReplayLines.{response_line};
ghost use Rattle.book_texts.specs.Replays.{replayed};
ghost use Rattle.book_texts.specs.Asks.{seat_ask_in};
ghost use Rattle.book_texts.specs.AskingOf.{asking_of};
ghost use Rattle.table_core.specs.Faults.{GivesTable};
ghost use Rattle.table_core.specs.Rows.{rows_of};
ghost use Rattle.csv.specs.Records.{fields_of};
ghost use Rattle.table_core.specs.declared.taking.TakeFault.TheVariants as out;

use crate::operation::{is_op_blank, read_op};
use crate::response::write_response;
use crate::seat::read_seat;
use crate::version::Version;
use crate::words::read_op_word;
use account_core::{AccountFault, Op, Reply, Teller};
use csv::ByteRecord;
use price_core::MAX_MONEY;
use std::alloc::Global;
use std::io::Read;
use table_core::{RowKind, TableFault, TakeFault, TakeRow, take_table, when_blank};

/// The most rows of a table of operations, its header not counted.
const MAX_OPERATIONS: u32 = 10_000;

/// Where the seat is in a row.
const SEAT: usize = 0;

/// Where the columns of the operation begin in a row.
const OP: usize = 1;

/// One line a row: the account's reply, or the fault that refused the operation. The account opens
/// with this credit and no last moment, and its history may have as many entries as `limit`.
///
/// Rows are judged in order as they are read, a row in this order: `Csv` where it has another
/// number of fields than the header; `TooManyRows` past 10,000 rows; `What` where the word of its
/// operation, or of a settle's report, is another one; `Number` where a field isn't a decimal
/// within its range; `Empty` where a field that must be empty isn't. `Header` is the fault of row
/// 1.
pub fn replay<I: Read + Drop>(
    alloc: Global,
    opening: u64,
    limit: u32,
    reader: I,
) -> Result<String, TableFault>
    requires { opening ≤ MAX_MONEY }
    ensures { IfSome (I.remaining reader) (λ text.
        GivesTable string_bytes result (replayed opening limit (rows_of text))) }
{
    let headers: &[&[&str]] = &[
        &["seat", "op", "call", "x1", "x2", "x3", "x4", "x5"],
        &["seat", "op", "call", "x1", "x2", "x3", "x4", "x5", "x6"],
        &[
            "seat", "op", "call", "x1", "x2", "x3", "x4", "x5", "x6", "x7",
        ],
        &[
            "seat", "op", "call", "x1", "x2", "x3", "x4", "x5", "x6", "x7", "x8", "x9",
        ],
    ];
    let mut replay = Replaying {
        teller: Teller::new(alloc, opening, None, limit),
        text: String::new(alloc),
    };
    take_table(alloc, reader, headers, MAX_OPERATIONS, &mut replay)?;
    let Replaying { text, .. } = replay;
    Ok(text)
}

/// An account, and its answers so far.
#[derive(Drop)]
struct Replaying {
    teller: Teller,
    text: String,
}

impl TakeRow for Replaying {
    ghost use Rattle.std.specs.Prelude.{ℕ, List, None, string_bytes};
    ghost use Rattle.account_core.specs.Ledger.{Ledger};
    ghost use Rattle.account_core.specs.Tellers.{IsTellerOf};
    ghost use Rattle.book_texts.specs.Asks.{SeatAsk, seat_ask_in};
    ghost use Rattle.book_texts.specs.Replays.{IsReplayed};
    ghost use Rattle.book_texts.specs.Versions.{version_at};
    ghost use Rattle.table_core.specs.Judging.{adds};

    ghost Terms = { ℕ × ℕ };

    ghost Made = { List SeatAsk };

    ghost judge = { λ terms header. adds (λ asks. seat_ask_in (version_at header)) };

    ghost Has = { λ terms replay rows asks. (ledger : Ledger) × IsTellerOf ledger replay.teller
        × IsReplayed terms.0 None terms.1 (string_bytes replay.text) ledger asks };

    fn take(&mut self, header: usize, row: &ByteRecord) -> Result<(), TakeFault> {
        let ask = read_ask(row, Version::of_header(header))?;
        write_answer(&mut self.text, self.teller.apply(ask.seat, ask.op))
    }
}

/// Adds the line of an answer. Memory that runs out has no line: it ends the replay.
fn write_answer(text: &mut String, answer: Result<Reply, AccountFault>) -> Result<(), TakeFault>
    ensures line { OnOk result (string_bytes text.new ≡ string_bytes text.old
        ++ response_line answer) }
    ensures known { OnOk result (answer ≢ Err AccountFault.OutOfMemory) }
    ensures fault { IfErr result (λ fault. fault ≡ out.OutOfMemory) }
{
    if let Err(AccountFault::OutOfMemory) = answer {
        return Err(TakeFault::OutOfMemory);
    }
    write_response(text, answer)?;
    Ok(text.push('\n')?)
}

/// What a seat asks.
#[derive(Clone, Copy)]
struct Ask {
    /// The seat, 0 to 15.
    seat: u32,
    /// What it asks.
    op: Op,
}

/// What a row of a table of this version asks.
#[tactic(auto, unfolding(crate::specs::Asks::asking_in))]
fn read_ask(row: &ByteRecord, version: Version) -> Result<Ask, RowKind>
    ensures { result_map_both asking_of (λ kind. kind) result
        ≡ seat_ask_in version (fields_of row.now) }
{
    let word = read_op_word(row, OP)?;
    let seat = read_seat(row, SEAT)?;
    let op = read_op(row, OP, version, word)?;
    when_blank(is_op_blank(row, OP, version, word), Ask { seat, op })
}

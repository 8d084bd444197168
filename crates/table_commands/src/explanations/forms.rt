//! The forms of the tables: their headers, their words, and what their columns take.

use crate::explanations::Slip;
use crate::explanations::wants::Wants;
use csv::ByteRecord;
use price_core::{DAY, HORIZON, MAX_MOMENT, MAX_MONEY, MAX_RATE};
use table_core::{field, has_word, is_word};

/// The words of the column `what` of a script.
pub(crate) const SCRIPT_WORDS: &[&str] = &[
    "start",
    "answer",
    "busy",
    "noanswer",
    "routefail",
    "abandon",
    "disconnect",
    "recharge",
];

/// What a column takes that has a time of at most a day.
pub(crate) const TIME: Wants = Wants::Number(0, DAY as u64);

/// What a column takes that has the number of a call.
const CALL: Wants = Wants::Number(0, u64::MAX);

/// What a column takes that has the number of an account.
const ACCOUNT: Wants = Wants::Number(0, u32::MAX as u64);

/// What a column takes that has a sum of money.
const MONEY: Wants = Wants::Number(0, MAX_MONEY);

/// What a column takes that has a fee or a rate.
const RATE: Wants = Wants::Number(0, MAX_RATE);

/// What a column takes that has the number of a party.
const PARTY: Wants = Wants::Digits(1, 15);

/// What a column takes that has a seat.
const SEAT: Wants = Wants::Number(0, 15);

/// What a column takes that has the moment of an event.
const MOMENT: Wants = Wants::Moment(MAX_MOMENT);

/// What a column takes that has the last moment of an account, or nothing: a decimal or a date.
const UNTIL_MOMENT: Wants = Wants::OptionalMoment(MAX_MOMENT);

/// What a column takes that has the last moment of an account as a decimal, or nothing.
const UNTIL: Wants = Wants::Optional(0, HORIZON);

/// A part of a row, of which some columns take something and the others nothing.
#[derive(Clone, Copy)]
pub(crate) struct Part {
    /// Its first column.
    pub start: usize,
    /// The column behind its last one.
    pub end: usize,
    /// The column of the word that says which take something.
    pub word: usize,
    /// These, counted from the first one on, in the order in which the reader judges them.
    pub columns: &'static [(usize, Wants)],
}

impl Part {
    /// A part from a column to before another.
    fn new(start: usize, end: usize, word: usize, columns: &'static [(usize, Wants)]) -> Part {
        Part {
            start,
            end,
            word,
            columns,
        }
    }
}

/// The parts of a row of the table of a slip.
pub(crate) fn parts_of(slip: Slip, row: &ByteRecord) -> [Part; 3] {
    let end = row.len();
    match slip {
        Slip::Script(_) => alone(end, 2, columns_of_script(field(row, 2))),
        Slip::Setup(_) => alone(end, 0, columns_of_setup(field(row, 0))),
        Slip::Reports(_) => alone(end, 0, &[(0, TIME), (1, TIME)]),
        Slip::Tariff(_) | Slip::RunTariff(_) => alone(end, 0, &[(2, RATE), (3, RATE)]),
        Slip::Ops(_) => parts_of_operation(row),
        Slip::Book(_) => parts_of_entry(row),
    }
}

/// A row that is one part.
fn alone(end: usize, word: usize, columns: &'static [(usize, Wants)]) -> [Part; 3] {
    let none = Part::new(end, end, word, &[]);
    [Part::new(0, end, word, columns), none, none]
}

/// The parts of a row of operations.
fn parts_of_operation(row: &ByteRecord) -> [Part; 3] {
    let end = row.len();
    [
        Part::new(0, 1, 1, &[(0, SEAT)]),
        Part::new(1, end, 1, columns_of_operation(row, 1, end)),
        Part::new(end, end, 1, &[]),
    ]
}

/// The parts of a row of a book: an opening has no seat, and no reply.
fn parts_of_entry(row: &ByteRecord) -> [Part; 3] {
    let end = row.len();
    let reply = end.saturating_sub(4);
    let operation = Part::new(2, reply, 2, columns_of_operation(row, 2, reply));
    if has_word(row, 2, "opening") {
        [
            Part::new(0, 2, 2, &[(0, ACCOUNT)]),
            operation,
            Part::new(reply, end, 2, &[]),
        ]
    } else {
        [
            Part::new(0, 2, 2, &[(0, ACCOUNT), (1, SEAT)]),
            operation,
            Part::new(reply, end, reply, columns_of_reply(field(row, reply))),
        ]
    }
}

/// The columns of a row of a script with this word.
fn columns_of_script(what: &[u8]) -> &'static [(usize, Wants)] {
    if is_word(what, "start") {
        &[
            (0, MOMENT),
            (1, CALL),
            (2, Wants::Word),
            (3, PARTY),
            (4, PARTY),
        ]
    } else if is_word(what, "disconnect") {
        &[
            (0, MOMENT),
            (1, CALL),
            (2, Wants::Word),
            (3, Wants::Number(1, 2)),
        ]
    } else if is_word(what, "recharge") {
        &[
            (0, MOMENT),
            (2, Wants::Word),
            (3, ACCOUNT),
            (4, MONEY),
            (5, UNTIL_MOMENT),
        ]
    } else {
        &[(0, MOMENT), (1, CALL), (2, Wants::Word)]
    }
}

/// The columns of a row of a setup with this word.
fn columns_of_setup(kind: &[u8]) -> &'static [(usize, Wants)] {
    if is_word(kind, "account") {
        &[
            (0, Wants::Word),
            (1, ACCOUNT),
            (2, MONEY),
            (3, UNTIL_MOMENT),
        ]
    } else {
        &[(0, Wants::Word), (1, PARTY), (2, ACCOUNT)]
    }
}

/// The columns of an operation, or of an opening, counted from its word on. Older tables have none
/// for a last moment.
fn columns_of_operation(row: &ByteRecord, op: usize, end: usize) -> &'static [(usize, Wants)] {
    let word = field(row, op);
    if is_word(word, "reserve") {
        RESERVE
    } else if is_word(word, "return") {
        &[(0, Wants::Word), (1, CALL)]
    } else if !is_word(word, "settle") {
        if end.saturating_sub(op) > 8 {
            &[(0, Wants::Word), (2, MONEY), (3, UNTIL)]
        } else {
            &[(0, Wants::Word), (2, MONEY)]
        }
    } else if has_word(row, op.saturating_add(3), "s") {
        SETTLE_SWITCHED
    } else {
        SETTLE
    }
}

/// The columns of a reserve.
const RESERVE: &[(usize, Wants)] = &[
    (0, Wants::Word),
    (1, CALL),
    (2, RATE),
    (3, RATE),
    (4, Wants::Optional(0, MAX_RATE)),
    (7, TIME),
    (9, TIME),
    (10, Wants::Number(1, DAY as u64)),
    (5, TIME),
    (6, TIME),
    (8, Wants::Number(0, HORIZON)),
];

/// The columns of a settle without a switch.
const SETTLE: &[(usize, Wants)] = &[
    (0, Wants::Word),
    (3, Wants::Word),
    (4, TIME),
    (1, CALL),
    (2, CALL),
];

/// The columns of a settle with a switch.
const SETTLE_SWITCHED: &[(usize, Wants)] = &[
    (0, Wants::Word),
    (3, Wants::Word),
    (4, TIME),
    (5, Wants::Optional(1, DAY as u64)),
    (1, CALL),
    (2, CALL),
];

/// The columns of a reply with this word, counted from it on.
fn columns_of_reply(word: &[u8]) -> &'static [(usize, Wants)] {
    if is_word(word, "granted") {
        &[(0, Wants::Word), (3, MONEY), (1, TIME), (2, Wants::Word)]
    } else if is_word(word, "credited") || is_word(word, "over") || is_word(word, "denied") {
        &[(0, Wants::Word), (3, MONEY)]
    } else {
        &[(0, Wants::Word), (3, MONEY), (1, MONEY)]
    }
}

/// The headers of the table of a slip.
pub(crate) fn headers_of(slip: Slip) -> &'static str {
    match slip {
        Slip::Reports(_) => "before,after",
        Slip::Ops(_) => {
            "seat,op,call,x1,x2,x3,x4,x5,x6,x7,x8,x9, or without x8 and x9, x7 to x9, or x6 to x9"
        }
        Slip::Book(_) => {
            "account,seat,op,call,x1,x2,x3,x4,x5,x6,x7,x8,x9,reply,y1,y2,y3, or an older one"
        }
        Slip::Tariff(_) | Slip::RunTariff(_) => {
            "prefix,from,fee,rate,free,first,step,days, or without days, first to days, \
             or free to days"
        }
        Slip::Setup(_) => "kind,key,value,until or kind,key,value",
        Slip::Script(_) => "moment,call,what,x,y,z or moment,call,what,x,y",
    }
}

/// How many rows the table of a slip has at most.
pub(crate) fn most_rows_of(slip: Slip) -> &'static str {
    match slip {
        Slip::Script(_) | Slip::Book(_) => "1000000 rows",
        Slip::Setup(_) => "10000 rows and 1000 accounts",
        _ => "10000 rows",
    }
}

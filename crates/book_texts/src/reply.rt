//! A reply in the fields of a row: its word, and y1 to y3.

ghost use Rattle.std.specs.Prelude.{◌≡◌, ◌≤◌};
ghost use Rattle.csv.specs.Records.{fields_of};
ghost use Rattle.table_core.specs.Fields.{field_in};
ghost use Rattle.book_texts.specs.Column.{money_of};
ghost use Rattle.book_texts.specs.Columns.{answer_at};
ghost use Rattle.book_texts.specs.Replies.{granted_in, is_reply_blank, reply_in};

use crate::offsets::{Y1, Y2, Y3};
use crate::operation::read_units;
use crate::words::ReplyWord;
use account_core::Reply;
use csv::ByteRecord;
use price_core::MAX_MONEY;
use table_core::{RowKind, is_blank, number};

/// The reply of this word whose columns begin at `at`; else `Number`. The columns that must be
/// empty aren't judged.
pub fn read_reply(row: &ByteRecord, at: usize, word: ReplyWord) -> Result<Reply, RowKind>
    requires { at ≤ 16 }
    ensures { result ≡ reply_in word (answer_at (fields_of row.now) at) }
{
    let available = read_money(row, at + Y3)?;
    match word {
        ReplyWord::Credited => Ok(Reply::Credited { available }),
        ReplyWord::CreditOver => Ok(Reply::CreditOver { available }),
        ReplyWord::GrantedMore => read_granted(row, at, false, available),
        ReplyWord::GrantedLast => read_granted(row, at, true, available),
        ReplyWord::Denied => Ok(Reply::Denied { available }),
        ReplyWord::Settled => {
            let paid = read_money(row, at + Y1)?;
            Ok(Reply::Settled { paid, available })
        }
        ReplyWord::Forfeit => {
            let paid = read_money(row, at + Y1)?;
            Ok(Reply::Forfeit { paid, available })
        }
        ReplyWord::Returned => {
            let paid = read_money(row, at + Y1)?;
            Ok(Reply::Returned { paid, available })
        }
    }
}

/// The grant whose columns begin at `at`, the last of its call or not; else `Number`.
fn read_granted(row: &ByteRecord, at: usize, last: bool, available: u64) -> Result<Reply, RowKind>
    requires { at ≤ 16 }
    ensures { result ≡ granted_in (answer_at (fields_of row.now) at) last available }
{
    let units = read_units(row, at + Y1)?;
    Ok(Reply::Granted {
        units,
        last,
        available,
    })
}

/// The money in the field at `place`, 0 to `MAX_MONEY`; else `Number`.
fn read_money(row: &ByteRecord, place: usize) -> Result<u64, RowKind>
    ensures { result ≡ money_of (field_in (fields_of row.now) place) }
{
    number(row, place, MAX_MONEY)
}

/// Whether the columns are empty that this reply, whose columns begin at `at`, doesn't use.
pub fn is_reply_blank(row: &ByteRecord, at: usize, word: ReplyWord) -> bool
    requires { at ≤ 16 }
    ensures { result ≡ is_reply_blank word (answer_at (fields_of row.now) at) }
{
    match word {
        ReplyWord::GrantedMore | ReplyWord::GrantedLast => true,
        ReplyWord::Settled | ReplyWord::Forfeit | ReplyWord::Returned => is_blank(row, at + Y2),
        ReplyWord::Credited | ReplyWord::CreditOver | ReplyWord::Denied => {
            is_blank(row, at + Y1) && is_blank(row, at + Y2)
        }
    }
}

//! What an account is asked and what it answers, in words.

ghost use Rattle.std.specs.Prelude.{◌≡◌, ◌++◌, OnOk, string_bytes};
ghost use Rattle.account_core.specs.Entries.{asked_of};
ghost use Rattle.book_texts.specs.Responses.{available_text, paid_text, reply_text, response_text, operation_word};

use account_core::{AccountFault, Op, Reply};
use std::alloc::AllocError;

/// Adds what an account answers an operation: its reply, such as `settled paid 550 available 450`,
/// or `refused` and the name of the fault.
pub fn write_response(
    text: &mut String,
    response: Result<Reply, AccountFault>,
) -> Result<(), AllocError>
    ensures { OnOk result (string_bytes text.new ≡ string_bytes text.old
        ++ response_text response) }
{
    match response {
        Ok(reply) => write_reply(text, reply),
        Err(fault) => write!(text, "refused {fault}"),
    }
}

/// The word of an operation, as it is in a row.
pub fn op_word(op: &Op) -> &'static str
    ensures { result.now ≡ operation_word (asked_of op.now) }
{
    match op {
        Op::Credit { .. } => "credit",
        Op::Reserve { .. } => "reserve",
        Op::Settle { .. } => "settle",
        Op::Return { .. } => "return",
    }
}

/// Adds a reply, such as `settled paid 550 available 450`.
pub fn write_reply(text: &mut String, reply: Reply) -> Result<(), AllocError>
    ensures { OnOk result (string_bytes text.new ≡ string_bytes text.old ++ reply_text reply) }
{
    match reply {
        Reply::Credited { available } => write_available(text, "credited", available),
        Reply::CreditOver { available } => write_available(text, "over", available),
        Reply::Granted {
            units,
            last,
            available,
        } => {
            let word = if last { "last" } else { "more" };
            write!(text, "granted {units} {word} available {available}")
        }
        Reply::Denied { available } => write_available(text, "denied", available),
        Reply::Settled { paid, available } => write_paid(text, "settled", paid, available),
        Reply::Forfeit { paid, available } => write_paid(text, "forfeit", paid, available),
        Reply::Returned { paid, available } => write_paid(text, "returned", paid, available),
    }
}

/// Adds the word of a reply, and what is available.
fn write_available(text: &mut String, word: &str, available: u64) -> Result<(), AllocError>
    ensures { OnOk result (string_bytes text.new
        ≡ string_bytes text.old ++ (word.now ++ available_text available)) }
{
    write!(text, "{word} available {available}")
}

/// Adds the word of a reply, what was paid, and what is available.
fn write_paid(text: &mut String, word: &str, paid: u64, available: u64) -> Result<(), AllocError>
    ensures { OnOk result (string_bytes text.new
        ≡ string_bytes text.old ++ (word.now ++ paid_text paid available)) }
{
    write!(text, "{word} paid {paid} available {available}")
}

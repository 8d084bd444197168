//! The words of a message row, each matched once.

ghost use Rattle.std.specs.Prelude.{◌≡◌};
ghost use Rattle.run_texts.specs.Messages.{event_message_in, mode_in, report_state_in, switch_word_in, switched_in, message_word_in};
ghost use Rattle.csv.specs.Records.{fields_of};

use cap_values::{Event, Mode};
use csv::ByteRecord;
use table_core::{RowKind, has_word};

/// What a message row is about, with all that its words say.
#[derive(Clone, Copy)]
pub(crate) enum Word {
    /// A call asks for the service.
    InitialDp,
    /// An event of a call, and how it was watched.
    EventReport(Event, Mode),
    /// The times of a call: whether it goes on, and whether they know of a tariff switch.
    ChargingReport(bool, bool),
    /// A call's dialogue has ended.
    Ended,
    /// An account is recharged.
    Recharge,
}

/// The word of a row; else `What`.
pub(crate) fn read_word(row: &ByteRecord) -> Result<Word, RowKind>
    ensures { result ≡ message_word_in (fields_of row.now) }
{
    if has_word(row, 3, "switch") {
        read_switch_word(row)
    } else if has_word(row, 3, "operator") && has_word(row, 4, "Recharge") {
        Ok(Word::Recharge)
    } else {
        Err(RowKind::What)
    }
}

/// The word of a row of the switch.
fn read_switch_word(row: &ByteRecord) -> Result<Word, RowKind>
    ensures { result ≡ switch_word_in (fields_of row.now) }
{
    if has_word(row, 4, "InitialDP") {
        Ok(Word::InitialDp)
    } else if has_word(row, 4, "EventReportBCSM") {
        let event = read_event(row)?;
        let mode = read_mode(row)?;
        Ok(Word::EventReport(event, mode))
    } else if has_word(row, 4, "ApplyChargingReport") {
        let active = read_state(row)?;
        let switched = read_switched(row)?;
        Ok(Word::ChargingReport(active, switched))
    } else if has_word(row, 4, "Ended") {
        Ok(Word::Ended)
    } else {
        Err(RowKind::What)
    }
}

/// The event of a report.
fn read_event(row: &ByteRecord) -> Result<Event, RowKind>
    ensures { result ≡ event_message_in (fields_of row.now) }
{
    if has_word(row, 5, "collectedInfo") {
        Ok(Event::CollectedInfo)
    } else if has_word(row, 5, "routeSelectFailure") {
        Ok(Event::RouteSelectFailure)
    } else if has_word(row, 5, "busy") {
        Ok(Event::CalledPartyBusy)
    } else if has_word(row, 5, "noAnswer") {
        Ok(Event::NoAnswer)
    } else if has_word(row, 5, "answer") {
        Ok(Event::Answer)
    } else if has_word(row, 5, "disconnect") {
        Ok(Event::Disconnect)
    } else if has_word(row, 5, "abandon") {
        Ok(Event::Abandon)
    } else {
        Err(RowKind::What)
    }
}

/// How the event of a report was watched.
fn read_mode(row: &ByteRecord) -> Result<Mode, RowKind>
    ensures { result ≡ mode_in (fields_of row.now) }
{
    if has_word(row, 7, "interrupted") {
        Ok(Mode::Interrupted)
    } else if has_word(row, 7, "notify") {
        Ok(Mode::NotifyAndContinue)
    } else if has_word(row, 7, "transparent") {
        Ok(Mode::Transparent)
    } else {
        Err(RowKind::What)
    }
}

/// Whether the call of a charging report goes on.
fn read_state(row: &ByteRecord) -> Result<bool, RowKind>
    ensures { result ≡ report_state_in (fields_of row.now) }
{
    if has_word(row, 5, "active") {
        Ok(true)
    } else if has_word(row, 5, "inactive") {
        Ok(false)
    } else {
        Err(RowKind::What)
    }
}

/// Whether the times of a charging report know of a tariff switch.
fn read_switched(row: &ByteRecord) -> Result<bool, RowKind>
    ensures { result ≡ switched_in (fields_of row.now) }
{
    if has_word(row, 6, "n") {
        Ok(false)
    } else if has_word(row, 6, "s") {
        Ok(true)
    } else {
        Err(RowKind::What)
    }
}

//! What is wrong with a row.

use crate::explanations::Slip;
use crate::explanations::earlier::{push_order, push_repeated, push_unknown};
use crate::explanations::empties::push_not_empty;
use crate::explanations::forms::{TIME, headers_of, most_rows_of, parts_of};
use crate::explanations::found_rows::{shown_at, take_rows};
use crate::explanations::midnight::{push_no_midnight, push_repeated_band};
use crate::explanations::said::Said;
use crate::explanations::unknown_words::push_unknown_word;
use crate::explanations::wants::{Column, Wants, first_refused, push_refusal};
use csv::ByteRecord;
use price_core::DAY;
use std::alloc::Global;
use table_core::{RowFault, RowKind, Rows, field};
use tariff_core::{TariffFault, TariffKind};

/// A table that has a fault.
#[derive(Clone, Copy)]
pub(crate) struct Faulty<'a> {
    /// The bytes of the table.
    pub text: &'a [u8],
    /// The table, and its fault.
    pub slip: Slip,
    /// The row that has it.
    pub row: u32,
}

/// Adds the lines that say what is wrong with a row.
pub(crate) fn push_reason(said: &mut Said, alloc: Global, table: Faulty<'_>) {
    let mut header = Rows::new(alloc, table.text);
    let mut rows = Rows::new(alloc, table.text);
    push_reason_among(said, alloc, table, &mut header, &mut rows);
}

/// The same, by two readers of the table: one for its header, one for the row.
fn push_reason_among(
    said: &mut Said,
    alloc: Global,
    table: Faulty<'_>,
    header: &mut Rows<&[u8]>,
    rows: &mut Rows<&[u8]>,
) {
    if !take_rows(said, header, 1) {
        push_header(said, table.slip, None);
    } else if take_rows(said, rows, table.row) {
        push_any_reason(said, alloc, table, header.row(), rows.row());
    }
}

/// Adds what is wrong with a row, by the kind of its table.
fn push_any_reason(
    said: &mut Said,
    alloc: Global,
    table: Faulty<'_>,
    names: &ByteRecord,
    row: &ByteRecord,
) {
    match table.slip {
        Slip::Tariff(fault) | Slip::RunTariff(fault) => {
            push_tariff_reason(said, alloc, table, fault, names, row)
        }
        Slip::Reports(fault)
        | Slip::Ops(fault)
        | Slip::Book(fault)
        | Slip::Setup(fault)
        | Slip::Script(fault) => push_row_reason(said, alloc, table, fault, names, row),
    }
}

/// Adds what is wrong with a row of a table that isn't a tariff.
fn push_row_reason(
    said: &mut Said,
    alloc: Global,
    table: Faulty<'_>,
    fault: RowFault,
    names: &ByteRecord,
    row: &ByteRecord,
) {
    match fault.kind {
        RowKind::Csv => push_csv(said, names, row),
        RowKind::Header => push_header(said, table.slip, Some(row)),
        RowKind::TooManyRows => push_most_rows(said, table.slip),
        RowKind::What => push_unknown_word(said, table.slip, names, row),
        RowKind::Number => {
            if let Some(column) = first_refused(row, parts_of(table.slip, row)) {
                push_refusal(said, names, row, column);
            }
        }
        RowKind::Empty => push_not_empty(said, table.slip, names, row),
        RowKind::Order => push_order(said, alloc, table, row),
        RowKind::Repeated => push_repeated(said, alloc, table, row),
        RowKind::Unknown => push_unknown(said, table.slip, row),
    }
}

/// Adds what is wrong with a row of a tariff.
fn push_tariff_reason(
    said: &mut Said,
    alloc: Global,
    table: Faulty<'_>,
    fault: TariffFault,
    names: &ByteRecord,
    row: &ByteRecord,
) {
    match fault.kind {
        TariffKind::Csv => push_csv(said, names, row),
        TariffKind::Header => push_header(said, table.slip, Some(row)),
        TariffKind::TooManyRows => push_most_rows(said, table.slip),
        TariffKind::Repeated => push_repeated_band(said, alloc, table, row),
        TariffKind::NoMidnightBand => push_no_midnight(said, alloc, table, row),
        TariffKind::OutOfMemory | TariffKind::Device => {}
        kind => {
            if let Some(column) = refused_in_tariff(kind, table.slip, row) {
                push_refusal(said, names, row, column);
            }
        }
    }
}

/// The column whose field is refused of a row of a tariff.
fn refused_in_tariff(kind: TariffKind, slip: Slip, row: &ByteRecord) -> Option<Column> {
    let (place, wants) = match kind {
        TariffKind::Digits => (0, Wants::Digits(0, 15)),
        TariffKind::From => (1, Wants::TimeOfDay),
        TariffKind::Free => (4, TIME),
        TariffKind::First => (5, TIME),
        TariffKind::Step => (6, Wants::Number(1, u64::from(DAY))),
        TariffKind::Days => (7, Wants::Days),
        _ => return first_refused(row, parts_of(slip, row)),
    };
    Some(Column { place, wants })
}

/// Adds how many fields a row has, and how many its header.
fn push_csv(said: &mut Said, names: &ByteRecord, row: &ByteRecord) {
    let found = row.len();
    let wanted = names.len();
    let fields = if found == 1 { "field" } else { "fields" };
    write!(said, "{found} {fields}, and the header has {wanted}: ");
    push_fields(said, names);
    said.push("\n");
}

/// Adds the fields of a row, with commas between them.
pub(crate) fn push_fields(said: &mut Said, row: &ByteRecord) {
    let mut comma = "";
    for place in 0..row.len() {
        let field = shown_at(row, place);
        write!(said, "{comma}{field}");
        comma = ",";
    }
}

/// Adds the headers that a table may have, the one that it has, and what separates its fields.
fn push_header(said: &mut Said, slip: Slip, found: Option<&ByteRecord>) {
    let wanted = headers_of(slip);
    write!(said, "wanted: {wanted}\nfound: ");
    let Some(row) = found else {
        said.push("no row\n");
        return;
    };
    push_fields(said, row);
    if row.len() == 1 && is_separated(field(row, 0)) {
        said.push("\nthe separator is a comma\n");
    } else {
        said.push("\n");
    }
}

/// Whether a field has another separator in it than a comma.
fn is_separated(field: &[u8]) -> bool {
    field.iter().any(|byte| *byte == b';' || *byte == b'\t')
}

/// Adds how many rows a table has at most.
fn push_most_rows(said: &mut Said, slip: Slip) {
    let most_rows = most_rows_of(slip);
    writeln!(
        said,
        "at most {most_rows}; docs/SCALING.md has larger loads"
    );
}

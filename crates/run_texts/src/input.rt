//! The input of a run is read.

ghost use Rattle.std.specs.Prelude.{◌≡◌, ◌≤◌, ◌==◌, ◌<◌, ◌∷◌, [], true, map, All, IfOk, length, take, drop, IfNone, IfSome};
ghost use Rattle.std.specs.List.{position};
ghost use Rattle.std.specs.Option.{option_map};
ghost use Rattle.run_texts.specs.InputFaults.{GivesInput};
ghost use Rattle.run_texts.specs.Inputs.{input_in, input_of, tariff_in, as_input_fault};
ghost use Rattle.run_texts.specs.Scripts.{script_of};
ghost use Rattle.run_texts.specs.Setups.{table_setup_of};
ghost use Rattle.run_texts.specs.Happenings.{is_in_time};
ghost use Rattle.run_texts.specs.Views.{rows_are_in_order, happens_of, row_data, setup_in, texts_of_sections};
ghost use Rattle.run_texts.specs.Sections.{IsDivided, is_divider, lines_in_text, sections_of, texts_of};
ghost use Rattle.run_texts.specs.declared.input_fault.InputFault.TheVariants as out;
ghost use Rattle.table_core.specs.Rows.{rows_of};
ghost use Rattle.run_values.specs.Setups.{ListingIsWithin};

use crate::{InputFault, ScriptRow, script, setup};
use price_core::MAX_MOMENT;
use run_values::Directory;
use std::alloc::Global;
use tariff_core::Tariff;

/// What the input of a run says.
#[derive(Drop)]
pub struct RunTexts {
    /// What calls cost.
    pub tariff: Tariff,
    /// The accounts and the subscribers.
    pub directory: Directory,
    /// What happens, in order.
    pub script: Vec<ScriptRow>,
}

/// Reads an input of three sections. The first fault is the result, the sections judged in order.
pub fn read_texts(alloc: Global, input: &[u8]) -> Result<RunTexts, InputFault>
    ensures means { GivesInput input_in result (input_of input.now) }
    ensures within { IfOk result (λ texts. ListingIsWithin texts.directory) }
    ensures in_range { IfOk result
        (λ texts. All (λ row. row.at ≤ MAX_MOMENT) texts.script.items) }
    ensures in_time { IfOk result
        (λ texts. All (λ row. is_in_time (happens_of row.what) ≡ true) texts.script.items) }
    ensures in_order { IfOk result (λ texts. rows_are_in_order 0 texts.script.items ≡ true) }
{
    let Sections {
        tariff,
        setup,
        script,
    } = divide(input).ok_or(InputFault::Parts)?;
    let tariff = read_tariff(alloc, tariff)?;
    let directory = read_directory(alloc, setup)?;
    let script = read_script(alloc, &directory, script)?;
    Ok(RunTexts {
        tariff,
        directory,
        script,
    })
}

/// Reads a tariff alone. Its first fault is given as that of an input.
pub fn read_tariff(alloc: Global, text: &[u8]) -> Result<Tariff, InputFault>
    ensures { GivesInput (λ tariff. tariff) result (tariff_in text.now) }
{
    match Tariff::read(alloc, text) {
        Ok(tariff) => Ok(tariff),
        Err(fault) => Err(InputFault::of_tariff(fault)),
    }
}

/// Reads a setup alone. Its first fault is given as that of an input.
pub fn read_directory(alloc: Global, text: &[u8]) -> Result<Directory, InputFault>
    ensures means { GivesInput setup_in result (as_input_fault out.Setup (table_setup_of
        (rows_of text.now))) }
    ensures within { IfOk result ListingIsWithin }
{
    match setup::read_setup(alloc, text) {
        Ok(directory) => Ok(directory),
        Err(fault) => Err(InputFault::of_setup(fault)),
    }
}

/// Reads a script over the accounts of a setup. Its first fault is given as that of an input.
fn read_script(
    alloc: Global,
    directory: &Directory,
    text: &[u8],
) -> Result<Vec<ScriptRow>, InputFault>
    ensures means { GivesInput (λ rows. map row_data rows.items) result
        (as_input_fault out.Script (script_of directory.now.accounts (rows_of text.now))) }
    ensures in_range { IfOk result (λ rows. All (λ row. row.at ≤ MAX_MOMENT) rows.items) }
    ensures in_time { IfOk result (λ rows.
        All (λ row. is_in_time (happens_of row.what) ≡ true) rows.items) }
    ensures in_order { IfOk result (λ rows. rows_are_in_order 0 rows.items ≡ true) }
{
    match script::read_script(alloc, directory, text) {
        Ok(script) => Ok(script),
        Err(fault) => Err(InputFault::of_script(fault)),
    }
}

/// The three texts of a run.
#[derive(Clone, Copy)]
pub struct Sections<'a> {
    /// The tariff table.
    pub tariff: &'a [u8],
    /// The accounts and the subscribers.
    pub setup: &'a [u8],
    /// What happens.
    pub script: &'a [u8],
}

/// The three texts of an input, which two lines `%%` divide. Each of these stands alone and is
/// ended by LF, CR LF or the end of the input. None where there are more or fewer such lines.
pub fn divide(input: &[u8]) -> Option<Sections<'_>>
    ensures { option_map texts_of_sections result ≡ texts_of input.now }
{
    let (tariff, rest) = split_section(input)?;
    let (setup, script) = split_section(rest)?;
    match split_section(script) {
        Some(_) => None,
        None => Some(Sections {
            tariff,
            setup,
            script,
        }),
    }
}

/// What is in front of the first divider of a text, and what is behind it; none where it has none.
pub fn split_section(text: &[u8]) -> Option<(&[u8], &[u8])>
    ensures divided { IfSome result (λ both. IsDivided text.now both.0.now both.1.now) }
    ensures whole { IfNone result (sections_of (lines_in_text text.now) ≡ text.now ∷ []) }
{
    let mut start = 0;
    while start < text.len() {
        let end = start + line_length(&text[start..]);
        if is_divider(&text[start..end]) {
            return Some((&text[..start], &text[end..]));
        }
        start = end;
    }
    None
}

/// The length of the first line of a text, with the LF that ends it.
fn line_length(text: &[u8]) -> usize
    requires { 0 < length text.now }
    ensures line { lines_in_text text.now
        ≡ take result text.now ∷ lines_in_text (drop result text.now) }
    ensures some { 0 < result }
    ensures within { result ≤ length text.now }
{
    match line_end(text) {
        Some(place) => place + 1,
        None => text.len(),
    }
}

/// The place of the first LF.
fn line_end(text: &[u8]) -> Option<usize>
    ensures { result ≡ position (λ byte. byte == 10) text.now }
{
    text.iter().position(|byte| *byte == b'\n')
}

/// Whether a line, with its line end, divides two sections.
pub fn is_divider(line: &[u8]) -> bool
    ensures { result ≡ is_divider line.now }
{
    line == b"%%\n".as_slice() || line == b"%%\r\n".as_slice() || line == b"%%".as_slice()
}

//! What is in front of the message rows of an input: a tariff, a setup and the header.

ghost use Rattle.std.specs.Prelude.{◌≡◌, IfErr, IfOk, IfSome};
ghost use Rattle.live_answers.specs.Inputs.{is_message_header};
ghost use Rattle.live_answers.specs.Heads.{IsOfHead, ReadsHead, ReadsSetup, SaysHead, TakesHeader};
ghost use Rattle.run_values.specs.Setups.{ListingIsWithin};
ghost use Rattle.run_values.specs.Options.{live_ask_of};

use crate::ServeError;
use account_core::MAX_LIMIT;
use run_texts::{InputFault, read_directory, read_line, read_section, read_tariff};
use run_values::{Directory, LiveOptions, RunSetup};
use std::alloc::Global;
use std::io::Read;
use tariff_core::Tariff;

/// The most bytes of a header that is exact: it may end with CR LF.
const MAX_HEADER: usize = 42;

/// What the sections of an input say.
#[derive(Drop)]
struct Head {
    /// What calls cost.
    tariff: Tariff,
    /// The accounts and the subscribers.
    directory: Directory,
}

impl Head {
    /// What these sections say. The tariff is judged first, then the setup.
    fn of(alloc: Global, tariff: &[u8], setup: &[u8]) -> Result<Head, InputFault>
        ensures says { SaysHead tariff.now setup.now result }
        ensures within { IfOk result (λ head. ListingIsWithin head.directory) }
    {
        let tariff = read_tariff(alloc, tariff)?;
        let directory = read_directory(alloc, setup)?;
        Ok(Head { tariff, directory })
    }
}

/// Reads the tariff, the setup and the header of an input, which then has its rows left, and gives
/// what a run over these is set up with. The first fault is that of `run`: the dividers are judged
/// first, then the tariff, then the setup.
pub(crate) fn read_setup<I: Read>(
    alloc: Global,
    options: &LiveOptions,
    input: &mut I,
) -> Result<RunSetup, ServeError>
    ensures reads { IfSome (I.remaining input.old) (λ text.
        ReadsSetup (live_ask_of options.now) text (I.remaining input.new) result) }
    ensures fault { IfErr result IsOfHead }
{
    let head = read_head(alloc, input)?;
    take_header(alloc, input)?;
    let Head { tariff, directory } = head;
    let setup = RunSetup::of(alloc, directory, tariff, options.service, MAX_LIMIT)?;
    Ok(setup)
}

/// Reads the tariff and the setup of an input, which then has its header left.
fn read_head<I: Read>(alloc: Global, input: &mut I) -> Result<Head, InputFault>
    ensures reads { IfSome (I.remaining input.old)
        (λ text. ReadsHead text (I.remaining input.new) result) }
    ensures within { IfOk result (λ head. ListingIsWithin head.directory) }
{
    let tariff = read_section(alloc, input)?;
    let setup = read_section(alloc, input)?;
    Head::of(alloc, tariff.as_slice(), setup.as_slice())
}

/// Takes the first line of what is left of an input, which has to be the header of message rows.
fn take_header<I: Read>(alloc: Global, input: &mut I) -> Result<(), ServeError>
    ensures takes { IfSome (I.remaining input.old)
        (λ text. TakesHeader text (I.remaining input.new) result) }
    ensures fault { IfErr result IsOfHead }
{
    match read_line(alloc, input, MAX_HEADER)? {
        Some(line) if is_header(line.as_slice()) => Ok(()),
        _ => Err(ServeError::Header),
    }
}

/// Whether a line is the header of message rows.
fn is_header(line: &[u8]) -> bool
    ensures { result ≡ is_message_header line.now }
{
    line == b"moment,number,call,from,what,x1,x2,x3,x4\n".as_slice()
        || line == b"moment,number,call,from,what,x1,x2,x3,x4\r\n".as_slice()
        || line == b"moment,number,call,from,what,x1,x2,x3,x4".as_slice()
}

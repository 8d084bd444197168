//! A run that is driven by messages of one's own in place of a script: those of a switch with one
//! call. Prints the operations that the service sends after each message, and what the account
//! comes to.
#![tactic(auto)]

mod switch;

use account_core::OpenGate;
use anyhow::Result;
use book_texts::run_lines;
use cap_values::Number;
use dialogue_core::ServiceConfig;
use run_values::{OpeningCredit, RunSetup};
use runs_core::serve;
use std::alloc::Global;
use switch::Switch;
use tariff_core::Tariff;

const TARIFF: &[u8] = b"prefix,from,fee,rate\n49,00:00,50,1000\n";

/// How many entries the history of an account may have.
const LIMIT: u32 = 1000;

fn main(rt: HostRuntime) -> Result<()> {
    let alloc = rt.alloc();
    let calling = Number::new("491700001")?;
    let setup = set_up(alloc, calling)?;
    let mut switch = Switch::new(alloc, 1, calling, Number::new("4930")?);
    let books = serve(&rt, alloc, &setup, &mut switch, 1, &OpenGate)?;
    print!(&rt; "{}", switch.log())?;
    print!(&rt; "{}", run_lines(alloc, books.as_slice())?)?;
    Ok(())
}

/// One account of 1500, with this subscriber, and a service that asks for 60 seconds each time and
/// takes no less than 5.
fn set_up(alloc: Global, calling: Number) -> Result<RunSetup> {
    let tariff = Tariff::read(alloc, TARIFF)?;
    let service = ServiceConfig::new(600, 50, 50)?;
    let opening = OpeningCredit {
        amount: 1500,
        until: None,
    };
    Ok(RunSetup::new(
        alloc,
        &[(7, opening)],
        &[(calling, 7)],
        tariff,
        service,
        LIMIT,
    )?)
}

//! The laws of a run in parts, each the contract of a function that does nothing else.

ghost use Rattle.part_laws.specs.Laws.{
  AccountsDontInterfere,
  FrontsAreAnsweredAlike,
  FrontsDontInterfere,
};
ghost use Rattle.part_laws.specs.OneInput.{PartsPrintAsOneRun};
ghost use Rattle.part_laws.specs.OneText.{BooksHaveOneText};
ghost use Rattle.part_laws.specs.Parts.{PartsAreAsOneRun};
ghost use Rattle.part_laws.specs.Printed.{LinesHaveNoNumbers, RecordsAreThoseOfAll};
ghost use Rattle.part_laws.specs.Rows.{SomeRowsGiveTheirItems};
ghost use Rattle.part_laws.specs.ScriptParts.{ScriptsInPartsHaveOneRun, ScriptsInPartsHaveOneTable};
ghost use Rattle.part_laws.specs.Scripts.{ScriptsHaveOneRun};

use crate::one_way::timers_run_one_way;
use ssf_core::initial_dp_is_first;
use tariff_core::{read_tariffs_are_proper, routes_are_single};

/// Accounts don't interfere. One run of one worker is given items, and another over the same setup
/// just those of some accounts: the recharges of these, and the messages of the calls that their
/// subscribers begin, and perhaps of calls that no subscriber begins. Where the tariff is proper
/// and no account refuses an ask in either run:
///
/// * the second answers each of its items as the first does: the same operations, and a stray where
///   it is one there;
/// * its books of these accounts have the same entries in the same order, but for the numbers that
///   settles carry, which are those of their items;
/// * its books of the other accounts have no entry.
pub fn accounts_dont_interfere()
    ensures { AccountsDontInterfere }
{}

/// Two runs of one worker over the same setup that are given the same at first answer that alike,
/// with the same numbers, whatever comes behind it in either, where no account refuses an ask. So
/// what a driver hears in a round is known by what it has given before.
pub fn fronts_are_answered_alike()
    ensures { FrontsAreAnsweredAlike }
{}

/// Of two runs of one worker over the same setup one is given some items at first, and the other
/// at first just those of them that are of some accounts: the recharges of these, and the messages
/// of the calls that their subscribers begin. The other answers these as the one does, but for
/// their numbers, whatever comes behind them in either, where no account refuses an ask. So what a
/// driver of some accounts hears in a round is what one of all hears of them.
pub fn fronts_dont_interfere()
    ensures { FrontsDontInterfere }
{}

/// What `run_lines` of `book_texts` says of its text leaves no byte of it open.
pub fn books_have_one_text()
    ensures { BooksHaveOneText }
{}

/// Books that are the same but for the numbers of settles have the same lines, byte for byte.
pub fn lines_have_no_numbers()
    ensures { LinesHaveNoNumbers }
{
    books_have_one_text();
}

/// Of two such runs, the records that the first has of the calls of these accounts are the records
/// of the second: one of each of its calls, ascending, with the same fields.
pub fn records_are_those_of_all()
    ensures { RecordsAreThoseOfAll }
{}

/// The books of all parts, one part's after another's, are the books of one run, but for the
/// numbers of settles, and have its lines, byte for byte. The parts are those of `run_outputs`:
/// each has its accounts, and of the calls those that subscribers of these begin. Each part was
/// given just its own items of the one run, in their order, and no account refused an ask in any
/// run.
pub fn parts_are_as_one_run()
    ensures { PartsAreAsOneRun }
{
    books_have_one_text();
}

/// A script has one run: two runs of one worker that play the same rows, over the same setup, with
/// gsmSSFs of the same configuration and the same delay, are given the same items in the same
/// order, answer them alike, and come to the same books, where no account refuses an ask in either.
pub fn scripts_have_one_run()
    ensures { ScriptsHaveOneRun }
{
    timers_run_one_way();
}

/// One worker plays the rows of a script, and another over the same setup those of some accounts:
/// their recharges, and the rows of the calls that their subscribers begin, and perhaps of calls
/// that no subscriber begins. The other's rows give just their own items of all that the script
/// gives, in the same order, with gsmSSFs of the same configuration and the same delay, where the
/// rows are in order and no account refuses an ask in either; and just those of them have no place
/// that have none there.
pub fn some_rows_give_their_items()
    ensures { SomeRowsGiveTheirItems }
{
    timers_run_one_way();
}

/// A script that is played in parts comes to what one run of it comes to. The parts are those of
/// `run_outputs`, each is played by its own rows and by one worker, over the same setup, with
/// gsmSSFs of the same configuration and the same delay, and no account refuses an ask in any run:
///
/// * the books of the parts' own accounts, one part's after another's, are the books of one worker
///   that plays all rows, but for the numbers of settles, and have its lines, byte for byte;
/// * the table of the calls of all parts is its table of calls, byte for byte.
pub fn scripts_in_parts_have_one_run()
    ensures books { ScriptsInPartsHaveOneRun }
    ensures calls { ScriptsInPartsHaveOneTable }
{
    some_rows_give_their_items();
    books_have_one_text();
    initial_dp_is_first();
    routes_are_single();
}

/// So a run in parts prints what one run prints, as `run` of `run_command` answers both. Where an
/// input is played in parts of one worker each, and by one run of one worker with the same options,
/// and no account refuses an ask in either, the lines are the same, byte for byte, and so is the
/// table of calls; and the same events had no place.
///
/// The parts have the values of the one run: its setup, its configuration and its rows. What an
/// answer says of these names a number by its digits alone, so it is a premise that they are the
/// same.
pub fn parts_print_as_one_run()
    ensures { PartsPrintAsOneRun }
{
    some_rows_give_their_items();
    books_have_one_text();
    initial_dp_is_first();
    routes_are_single();
    read_tariffs_are_proper();
}

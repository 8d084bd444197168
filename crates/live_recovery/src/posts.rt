//! What is printed of a message is read back: a law, the contract of a function that does nothing
//! else.

ghost use Rattle.live_recovery.specs.Posts.{PostsAreRead};

use table_core::{printed_decimals_are_read, printed_tables_are_read};
use tariff_core::printed_moments_are_read;

/// The row that a trace prints of a message of a switch, or of a recharge, is read as that message,
/// with its number, whichever clock has printed its moments.
pub fn printed_posts_are_read()
    ensures { PostsAreRead }
{
    printed_decimals_are_read();
    printed_tables_are_read();
    printed_moments_are_read();
}

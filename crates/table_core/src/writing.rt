//! A text on its way to a writer.

ghost use Rattle.table_core.specs.Fronts.{Writes};

use std::io::{ErrorKind, Write};

/// Writes a text, and answers whether the writer took all of it. Where it didn't, it failed, and
/// what it took before is a front of the text.
pub fn write_text<W: Write>(writer: &mut W, text: &[u8]) -> bool
    ensures { Writes (W.contents writer.old) (W.contents writer.new) text.now result }
{
    let mut written = 0;
    for _turn in 0..u64::MAX {
        if written == text.len() {
            return true;
        }
        match writer.write(&text[written..]) {
            Ok(0) => return false,
            Ok(count) => written += count,
            Err(error) if error.kind() == ErrorKind::Interrupted => {}
            Err(_) => return false,
        }
    }
    false
}

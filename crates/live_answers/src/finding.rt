//! What a log holds.

ghost use Rattle.std.specs.Prelude.{◌≡◌, ◌≢◌, All, drop, length, take};
ghost use Rattle.std.specs.Io.{IsEmptyOrEndsWith};
ghost use Rattle.live_answers.specs.Logs.{IsFound};

use memchr::memrchr;

/// What the text of a log is, by the head that it has to have.
#[derive(Clone, Copy)]
pub enum Found<'a> {
    /// It has the whole head, and behind it these whole lines. What is behind the last LF is torn.
    Lines(&'a [u8]),
    /// It has only a part of the head: it was cut off when it was begun.
    Begun,
    /// It begins otherwise.
    Other,
}

/// What the text of a log is, by the head that it has to have.
pub fn find_lines<'a>(text: &'a [u8], head: &[u8]) -> Found<'a>
    ensures { IsFound head.now text.now result }
{
    match text.strip_prefix(head) {
        Some(behind) => Found::Lines(whole_lines(behind)),
        None if head.starts_with(text) => Found::Begun,
        None => Found::Other,
    }
}

/// A text up to its last LF, that counted.
fn whole_lines(text: &[u8]) -> &[u8]
    ensures front { result.now ≡ take (length result.now) text.now }
    ensures whole { IsEmptyOrEndsWith result.now 10 }
    ensures torn { All (λ byte. byte ≢ 10) (drop (length result.now) text.now) }
{
    match memrchr(b'\n', text) {
        Some(place) => &text[..place + 1],
        None => &[],
    }
}

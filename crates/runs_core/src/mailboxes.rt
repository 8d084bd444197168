//! A mailbox is opened, and its ends are compared when both are back.

ghost use Rattle.std.specs.Prelude.{◌≡◌, ◌<◌, ◌≤◌, ◌++◌, [], List, true, IfOk};
ghost use Rattle.runs_core.specs.Ends.{ArePaired, sent, taken};
ghost use Rattle.runs_core.specs.Logs.{ends_at_close, has_close};
ghost use Rattle.runs_core.specs.declared.mailboxes.Mail.{Mail};

use crate::ends::{Inbox, Outbox};
use crossbeam_channel::bounded_with;
use crossbeam_channel::protocol::{Join, Lesson, Outcome, Protocol, Split};
use std::alloc::{AllocError, Global};
use std::collections::LinkedList;

/// A mailbox with room for `capacity` mails, 1 to 1,024, that wait to be taken.
pub(crate) fn mailbox<T: Drop>(
    alloc: Global,
    capacity: u32,
) -> Result<(Outbox<T>, Inbox<T>), AllocError>
    requires least { 0 < capacity }
    requires most { capacity ≤ 1024 }
    ensures { IfOk result (λ ends. ArePaired ends.0 ends.1 × (sent ends.0 ≡ [])
        × (taken ends.1 ≡ [])) }
{
    let (sender, receiver, mut sending) = bounded_with::<Mail<T>, Log<T>, InOrder, Global>(
        alloc,
        capacity as usize,
    )?;
    let taking = sender.another::<Ends>(&mut sending);
    Ok((
        Outbox {
            sender,
            pass: sending,
            closed: false,
        },
        Inbox {
            receiver,
            pass: taking,
        },
    ))
}

/// What the two ends of a mailbox say of each other when both are back in one place: what was
/// taken is what was sent first, in order, and all of it where the last mail was taken.
pub(crate) fn compare_ends<T: Drop>(outbox: Outbox<T>, inbox: Inbox<T>)
    requires { ArePaired outbox inbox }
    ensures prefix { (waiting : List (Mail T)) × (sent outbox ≡ taken inbox ++ waiting) }
    ensures close { ends_at_close (sent outbox) ≡ true }
    ensures whole { has_close (taken inbox) ≡ true → taken inbox ≡ sent outbox }
{
    let Outbox {
        sender,
        mut pass,
        ..
    } = outbox;
    let Inbox { pass: taking, .. } = inbox;
    sender.absorb::<Ends>(&mut pass, taking);
    sender.learn_as::<Whole>(&mut pass);
}

/// What a mailbox carries.
#[derive(Drop)]
pub(crate) enum Mail<T> {
    /// What the mailbox is for.
    Work(T),
    /// The last mail: nothing follows it.
    Close,
}

/// What an end knows: whether it sends, whether it takes, and all that it has sent and taken. It
/// is in contracts alone; no value of it is made.
pub(crate) struct Log<T> {
    pub sends: bool,
    pub takes: bool,
    pub sent: LinkedList<Mail<T>>,
    pub taken: LinkedList<Mail<T>>,
}

/// The rule over what waits and what the ends know.
pub(crate) struct InOrder;

impl<T> Protocol<Mail<T>, Log<T>> for InOrder {
    ghost use Rattle.std.specs.Prelude.{[], true};
    ghost use Rattle.runs_core.specs.Logs.{Delivered, log};

    ghost holds = { Delivered };

    ghost first = { log true true [] [] };
}

/// One end sends and the other takes.
pub(crate) struct Ends;

impl<T> Split<Log<T>> for Ends {
    ghost use Rattle.std.specs.Prelude.{[], true, false};
    ghost use Rattle.runs_core.specs.Logs.{log};

    ghost left = { λ v. log true false v.sent [] };

    ghost right = { λ v. log false true [] v.taken };
}

impl<T> Join<Log<T>> for Ends {
    ghost use Rattle.std.specs.Prelude.{[], true, false};
    ghost use Rattle.runs_core.specs.Logs.{log};

    ghost both = { λ v w. log true true v.sent w.taken };

    ghost spent = { log false false [] [] };
}

/// A mail was sent: it is the last one now.
pub(crate) struct Sent;

impl<T> Outcome<Mail<T>, Log<T>> for Sent {
    ghost use Rattle.std.specs.Prelude.{◌≡◌, ◌++◌, ◌∷◌, []};
    ghost use Rattle.runs_core.specs.Logs.{log};

    ghost then = { λ v mail w. w ≡ log v.sends v.takes (v.sent ++ mail ∷ []) v.taken };
}

impl<T> Lesson<Mail<T>, Log<T>> for Sent {
    ghost use Rattle.std.specs.Prelude.{⊤};

    ghost fact = { λ v waiting. ⊤ };
}

/// A mail was taken: the first of those that waited. No Close was taken before it.
pub(crate) struct Taken;

impl<T> Outcome<Mail<T>, Log<T>> for Taken {
    ghost use Rattle.std.specs.Prelude.{◌≡◌, ◌++◌, ◌∷◌, [], false};
    ghost use Rattle.runs_core.specs.Logs.{has_close, log};

    ghost then = { λ v mail w. (w ≡ log v.sends v.takes v.sent (v.taken ++ mail ∷ []))
        × (has_close v.taken ≡ false) };
}

impl<T> Lesson<Mail<T>, Log<T>> for Taken {
    ghost use Rattle.std.specs.Prelude.{⊤};

    ghost fact = { λ v waiting. ⊤ };
}

/// With both ends in one place: what was sent is what was taken and then what waits, and nothing
/// follows a Close.
pub(crate) struct Whole;

impl<T> Lesson<Mail<T>, Log<T>> for Whole {
    ghost use Rattle.std.specs.Prelude.{◌≡◌, ◌++◌, true};
    ghost use Rattle.runs_core.specs.Logs.{ends_at_close};

    ghost fact = { λ v waiting. (v.sent ≡ v.taken ++ waiting) × (ends_at_close v.sent ≡ true) };
}

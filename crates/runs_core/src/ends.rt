//! The two ends of a mailbox.

ghost use Rattle.std.specs.Prelude.{◌≡◌, ◌∷◌, [], true};
ghost use Rattle.runs_core.specs.Logs.{has_close};
ghost use Rattle.crossbeam_channel.specs.Claims.{IsSeatAt, view};
ghost use Rattle.crossbeam_channel.specs.Ends.{sends_on, receives_on};
ghost use Rattle.run_values.specs.declared.run_fault.RunFault.TheVariants as out;

use crate::mailboxes::{InOrder, Log, Mail, Sent, Taken};
use crossbeam_channel::{Pass, RuledReceiver, RuledSender};
use run_values::RunFault;
use std::sync::Wait;

/// The sending end of a mailbox. It knows all that it has sent.
#[derive(Drop)]
pub(crate) struct Outbox<T: Drop> {
    pub(crate) sender: RuledSender<Mail<T>, Log<T>, InOrder>,
    pub(crate) pass: Pass<Mail<T>, Log<T>>,
    pub(crate) closed: bool,
    pub ghost seated: { IsSeatAt (sends_on sender) pass },
    pub ghost may_send: { (view pass).sends ≡ true },
    pub ghost closed_is: { has_close (view pass).sent ≡ closed },
}

impl<T: Drop> Outbox<T> {
    ghost use Rattle.std.specs.Prelude.{◌++◌, IsErr, MatchResult};
    ghost use Rattle.runs_core.specs.Ends.{IsSameOutbox, sent};

    /// Sends a mail, and waits while the mailbox is full.
    ///
    /// An error sends nothing: a Close was sent before, or the other end is gone.
    pub(crate) fn send_mail<R: Wait>(&mut self, rt: &R, mail: Mail<T>) -> Result<(), Gone>
        ensures same { IsSameOutbox self.old self.new }
        ensures sent { MatchResult result (λ _. sent self.new ≡ sent self.old ++ mail ∷ [])
            (λ _. sent self.new ≡ sent self.old) }
        ensures closed { has_close (sent self.old) ≡ true → IsErr result }
    {
        if self.closed {
            return Err(Gone);
        }
        let last = is_close(&mail);
        match self.sender.send_as::<Sent, R>(rt, &mut self.pass, mail) {
            Ok(()) => {
                self.closed = last;
                Ok(())
            }
            Err(_) => Err(Gone),
        }
    }
}

/// Whether a mail is the last one.
fn is_close<T>(mail: &Mail<T>) -> bool
    ensures { result ≡ has_close (mail.now ∷ []) }
{
    match mail {
        Mail::Close => true,
        Mail::Work(_) => false,
    }
}

/// The other end of a mailbox is gone, or its next mail is another one than is due.
#[derive(Clone, Copy)]
pub(crate) struct Gone;

impl From<Gone> for RunFault {
    ghost from_gives = { λ _ fault. fault ≡ out.Channel };

    fn from(_gone: Gone) -> RunFault {
        RunFault::Channel
    }
}

/// The taking end of a mailbox. It knows all that it has taken.
#[derive(Drop)]
pub(crate) struct Inbox<T: Drop> {
    pub(crate) receiver: RuledReceiver<Mail<T>, Log<T>, InOrder>,
    pub(crate) pass: Pass<Mail<T>, Log<T>>,
    pub ghost seated: { IsSeatAt (receives_on receiver) pass },
    pub ghost may_take: { (view pass).takes ≡ true },
}

impl<T: Drop> Inbox<T> {
    ghost use Rattle.std.specs.Prelude.{◌++◌, ◌∷◌, [], IsErr, MatchResult};
    ghost use Rattle.runs_core.specs.Ends.{IsSameInbox, taken};
    ghost use Rattle.runs_core.specs.Logs.{has_close};

    /// Takes the first of the mails that wait, and waits for one where there is none.
    ///
    /// After a Close no mail is taken: it was the last one.
    pub(crate) fn take_mail<R: Wait>(&mut self, rt: &R) -> Result<Mail<T>, Gone>
        ensures same { IsSameInbox self.old self.new }
        ensures closed { has_close (taken self.old) ≡ true → IsErr result }
        ensures taken { MatchResult result (λ mail. taken self.new ≡ taken self.old ++ mail
            ∷ []) (λ _. taken self.new ≡ taken self.old) }
    {
        match self.receiver.recv_as::<Taken, R>(rt, &mut self.pass) {
            Ok(mail) => Ok(mail),
            Err(_) => Err(Gone),
        }
    }
}

//! A driver whose rounds are known beforehand.

ghost use Rattle.std.specs.Prelude.{◌≡◌, ◌≤◌, ◌++◌, ◌∷◌, [], false, All, OnOk};
ghost use Rattle.price_core.specs.declared.times.TheConstants.{HORIZON};

use account_core::AccountFault;
use price_core::HORIZON;
use run_values::{Answer, Body, Driver};
use std::alloc::{AllocError, Global};

/// Gives one or two bodies in each round, all at moment 0, and keeps what the answers say that was
/// refused. It takes an answer only with the number of its post.
#[derive(Drop)]
pub(crate) struct Rounds<'a> {
    rounds: &'a [(Body, Option<Body>)],
    played: usize,
    given: Vec<(u64, Body)>,
    refused: Vec<Option<AccountFault>>,
    ended: bool,
    ghost in_range: { All (λ item. item.0 ≤ HORIZON) given.items },
}

impl<'a> Rounds<'a> {
    pub(crate) fn new(alloc: Global, rounds: &'a [(Body, Option<Body>)]) -> Rounds<'a>
        ensures given { result.given.items ≡ [] }
        ensures goes_on { result.ended ≡ false }
    {
        Rounds {
            rounds,
            played: 0,
            given: Vec::new(alloc),
            refused: Vec::new(alloc),
            ended: false,
        }
    }

    /// For each post, the last fault that an ask of an account got.
    pub(crate) fn into_refused(self) -> Vec<Option<AccountFault>> {
        self.refused
    }

    fn give(&mut self, body: Body) -> Result<(), AllocError>
        ensures given { OnOk result (self.new.given.items ≡ self.old.given.items ++ (0, body)
            ∷ []) }
        ensures ended { self.new.ended ≡ self.old.ended }
    {
        self.given.push((0, body))?;
        Ok(())
    }
}

/// Keeps what answers say that was refused, each where it has the next number.
fn hear(refused: &mut Vec<Option<AccountFault>>, answers: &[Answer]) -> Result<(), AllocError> {
    for answer in answers {
        if answer.number == refused.len() as u64 {
            refused.push(answer.refused)?;
        }
    }
    Ok(())
}

impl Driver for Rounds<'_> {
    ghost given = { λ driver. driver.given.items };

    ghost ended = { λ driver. driver.ended };

    ghost Agenda = { Unit {0} };

    ghost agenda = { λ _. tt };

    fn given(&self) -> &[(u64, Body)] {
        self.given.as_slice()
    }

    fn ended(&self) -> bool {
        self.ended
    }

    fn round(&mut self, answers: &[Answer]) -> Result<bool, AllocError> {
        hear(&mut self.refused, answers)?;
        if self.played >= self.rounds.len() {
            self.ended = true;
            return Ok(false);
        }
        let (body, more) = self.rounds[self.played];
        self.played += 1;
        self.ended = false;
        self.give(body)?;
        if let Some(body) = more {
            self.give(body)?;
        }
        Ok(true)
    }
}

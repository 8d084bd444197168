//! What became of a call.

ghost use Rattle.std.specs.Prelude.{◌≡◌};
ghost use Rattle.run_outputs.specs.Records.{granted_outcome, outcome_of};

use crate::reports::CallReports;
use crate::standing::Standing;

/// What became of a call: the first of these that fits.
#[derive(Clone, Copy)]
pub enum Outcome {
    /// The calling number is no subscriber's.
    Unknown,
    /// No prefix of the tariff fits the called number.
    NoRoute,
    /// It was never granted anything, and its account has denied it.
    Denied,
    /// It was never granted anything, and its account hasn't denied it either.
    Refused,
    /// A report of it passed what was granted, or took back what an earlier one said.
    Forfeit,
    /// The switch has sent no Ended of it.
    Open,
    /// The called party was busy.
    Busy,
    /// The called party didn't answer.
    NoAnswer,
    /// No route to the called number was found.
    RouteFail,
    /// The calling party hung up before the answer.
    Abandoned,
    /// A party of the answered call hung up.
    Ended,
    /// Its credit ended: it was denied after a grant, or has used up its last grant.
    Cut,
    /// A timer or the service ended it, or it was given up before its instructions came.
    Released,
}

impl Outcome {
    /// That of a call with this account, if it has one, and this route, by what was reported of it
    /// and what its account knows of it.
    pub(crate) fn of(
        account: Option<u32>,
        has_route: bool,
        reports: &CallReports,
        standing: &Standing,
    ) -> Outcome
        ensures { result ≡ outcome_of account has_route reports.now standing.now }
    {
        if account.is_none() {
            Outcome::Unknown
        } else if !has_route {
            Outcome::NoRoute
        } else if standing.granted {
            Outcome::of_granted(reports, standing)
        } else if standing.denied {
            Outcome::Denied
        } else {
            Outcome::Refused
        }
    }

    /// That of a call that was granted something.
    fn of_granted(reports: &CallReports, standing: &Standing) -> Outcome
        ensures { result ≡ granted_outcome reports.now standing.now }
    {
        if standing.forfeited {
            Outcome::Forfeit
        } else if reports.end.is_none() {
            Outcome::Open
        } else if reports.busy {
            Outcome::Busy
        } else if reports.no_answer {
            Outcome::NoAnswer
        } else if reports.route_failed {
            Outcome::RouteFail
        } else if reports.abandoned {
            Outcome::Abandoned
        } else if reports.disconnected {
            Outcome::Ended
        } else if standing.cut {
            Outcome::Cut
        } else {
            Outcome::Released
        }
    }
}

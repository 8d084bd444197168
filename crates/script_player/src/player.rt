//! The driver that plays a script.

ghost use Rattle.std.specs.Prelude.{◌≡◌, ◌≤◌, ◌+◌, ◌*◌, ◌++◌, All, IfOk, OnErr, OnOk, drop, length, take};
ghost use Rattle.script_player.specs.Networks.{Grows};
ghost use Rattle.script_player.specs.Rows.{Adds, FollowsRows, TakesRow, next_row};
ghost use Rattle.script_player.specs.Steps.{DeliversDue};
ghost use Rattle.script_player.specs.Unplaced.{PlaysDueWithout, PlaysRowWithFault, where_refused};
ghost use Rattle.script_player.specs.Deliveries.{deliveries_of};

use crate::network::{Input, MAX_SENT, Network};
use price_core::{DAY, HORIZON, MAX_MOMENT};
use run_texts::{Happening, ScriptRow};
use run_values::{Answer, Body, Driver};
use ssf_core::{Delivery, Moment, SsfConfig, SsfFault, next_delivery, next_moment, send, take_due};
use std::alloc::{AllocError, Global};
use std::collections::VecDeque;
use std::marker::Model;

/// Plays a script: it drives a run by the rows of a script, with one gsmSSF for each call that has
/// started.
///
/// The operations of the answer to a post of a moment are delivered to the post's call `delay`
/// units of 100 ms later, one after the other. The moment of the next round is the least of the
/// next row's, the next delivery's, and that at which a timer of a gsmSSF is due. A round first
/// delivers the operations that are due, in order of their answers; then it takes the rows of its
/// moment, in order; then the timers that are due run, in ascending order of the calls. Those of a
/// call that are due by then have run before it takes an operation or an event. At a `Start` row
/// the gsmSSF of the call is invoked and triggered, an event is met by its call, and a recharge is
/// a post in its place. Each message that a gsmSSF sends is a post, in the order in which they were
/// sent. An event that its gsmSSF refuses has no place, and its row is put down as such; an
/// operation that is refused is ignored, and so is an event of a call that hasn't started, and a
/// further start of one that has.
///
/// It ends where no row is left, and no delivery and no due moment within `HORIZON`, the last
/// moment that a gsmSSF takes: a run breaks off there. The last row lies at half of it at most, and
/// what follows that one takes a few days: the periods of a call, a day together, and its timers.
#[derive(Drop)]
pub struct ScriptPlayer {
    network: Network,
    deliveries: VecDeque<Delivery>,
    delay: u32,
    rows: Vec<ScriptRow>,
    taken: usize,
    ended: bool,
    /// The rows taken whose event had no place.
    unplaced: Vec<ScriptRow>,
    /// Whether the rounds so far came to their ends. Where memory ran out in one, no further round
    /// is played.
    sound: bool,
}

impl Model for ScriptPlayer {
    ghost use Rattle.std.specs.Prelude.{◌≡◌, true};
    ghost use Rattle.script_player.specs.Plays.{Play, play_at};
    ghost use Rattle.script_player.specs.Playing.{IsKept};
    ghost use Rattle.script_player.specs.Runs.{IsReached};

    ghost Value = { Play };

    ghost view = { λ p.
        play_at p.network p.deliveries.items p.delay p.rows.items p.taken p.ended
        p.unplaced.items };

    ghost invariant = { λ p. IsKept p.network.given p.delay p.rows.items p.taken p.ended
        × (p.ended ≡ true → p.sound ≡ true)
        × (p.sound ≡ true → IsReached p.network.config p.delay p.rows.items
        (play_at p.network p.deliveries.items p.delay p.rows.items p.taken p.ended
        p.unplaced.items)) };
}

impl ScriptPlayer {
    ghost use Rattle.std.specs.Prelude.{◌≡◌, ◌≤◌, [], true, false, All, IfOk};
    ghost use Rattle.run_texts.specs.Views.{rows_are_in_order};
    ghost use Rattle.script_player.specs.Runs.{fresh_play};

    /// The player of these rows, before its first round. They are in the order of their moments,
    /// which are at most `MAX_MOMENT`. Each gsmSSF has this configuration, and the delay is 1 to
    /// 864,000 units of 100 ms.
    pub fn new(
        alloc: Global,
        rows: Vec<ScriptRow>,
        config: SsfConfig,
        delay: u32,
    ) -> Result<ScriptPlayer, AllocError>
        requires delay_positive { 1 ≤ delay }
        requires delay_within_day { delay ≤ DAY }
        requires in_range { All (λ row. row.at ≤ MAX_MOMENT) rows.items }
        requires in_order { rows_are_in_order 0 rows.items ≡ true }
        ensures fresh { IfOk result (λ player. player ≡ fresh_play config delay rows.items) }
        ensures config { IfOk result (λ player. player.network.config ≡ config) }
        ensures taken { IfOk result (λ player. player.taken ≡ []) }
        ensures left { IfOk result (λ player. player.left ≡ rows.items) }
        ensures given { IfOk result (λ player. player.network.given ≡ []) }
        ensures running { IfOk result (λ player. player.ended ≡ false) }
    {
        Ok(ScriptPlayer {
            network: Network::new(alloc, config, first_room(rows.len()))?,
            deliveries: VecDeque::new(alloc),
            delay,
            rows,
            taken: 0,
            ended: false,
            unplaced: Vec::new(alloc),
            sound: true,
        })
    }

    /// The rows that it has taken, in order.
    pub fn rows_taken(&self) -> &[ScriptRow]
        ensures { result.now ≡ self.now.taken }
    {
        &self.rows[..self.taken]
    }

    /// What is left of it: all that it has given, and those of the rows taken whose event had no
    /// place, in order: the gsmSSF of the call refused it, as a second answer, or what a party does
    /// where the call was released before.
    pub fn into_parts(self) -> (Vec<(u64, Body)>, Vec<ScriptRow>)
        ensures given { result.0.items ≡ self.network.given }
        ensures unplaced { result.1.items ≡ self.unplaced }
    {
        (self.network.into_given(), self.unplaced)
    }
}

impl Driver for ScriptPlayer {
    ghost use Rattle.std.specs.Prelude.{◌≡◌, ◌≤◌, ◌++◌, ◌∷◌, [], ℕ, List, not, true, false, All, IfOk, OnOk};
    ghost use Rattle.run_texts.specs.declared.script.ScriptRow.{ScriptRow};
    ghost use Rattle.ssf_core.specs.declared.config.SsfConfig.{SsfConfig};
    ghost use Rattle.run_values.specs.declared.post.Body.{Body};
    ghost use Rattle.script_player.specs.Plays.{IsPlayed};
    ghost use Rattle.script_player.specs.Rounds.{IsTurn};
    ghost use Rattle.script_player.specs.Runs.{HasHeard, Hears, IsReached, LivesByItsDeeds};
    ghost use Rattle.run_values.specs.declared.post.Answer.{Answer};
    ghost use Rattle.script_player.specs.Posts.{Begins, items_of, opening_item_of, recharges_in, recharge_items_of};

    ghost given = { λ player. player.network.given };

    ghost ended = { λ player. player.ended };

    ghost Agenda = { SsfConfig × ℕ × List ScriptRow };

    ghost agenda = { λ player.
        (player.network.config, player.delay, player.taken ++ player.left) };

    ghost hears = { λ before answers after. before.ended ≡ false → Hears before answers after };

    /// All that it has given: the messages of the gsmSSFs, and the recharges of the rows taken.
    fn given(&self) -> &[(u64, Body)]
        ensures items { result.now ≡ self.now.network.given }
        ensures moments { All (λ item. item.0 ≤ HORIZON) result.now }
        ensures calls { (call : ℕ)
            → IsPlayed self.now.network.config call self.now.network.given }
        ensures begins { (call : ℕ)
            → Begins (opening_item_of call self.now.taken) (items_of call self.now.network.given) }
        ensures recharges { recharges_in self.now.network.given ≡ recharge_items_of self.now.taken }
    {
        self.network.given()
    }

    /// Whether it has ended: then no row is left, and it is what a fresh player of its rows has
    /// come to, round by round. What it has given of a call is what the call's gsmSSF has sent by
    /// what it was given, one after the other.
    fn ended(&self) -> bool
        ensures value { result ≡ self.now.ended }
        ensures left { result ≡ true → self.now.left ≡ [] }
        ensures reached { result ≡ true → IsReached self.now.network.config self.now.delay
            (self.now.taken ++ self.now.left) self.now }
        ensures lives { LivesByItsDeeds self.now.network.config self.now.delay
            (self.now.taken ++ self.now.left) self.now }
    {
        self.ended
    }

    /// Takes the answers to the items of the round before: the number of an answer is the place of
    /// its item. Plays the round of the next moment; false where there is none. The recharge of a
    /// row has no operations.
    ///
    /// Where memory runs out, so it does in each further round.
    fn round(&mut self, answers: &[Answer]) -> Result<bool, AllocError>
        ensures grows { OnOk result ((added : List (ℕ × Body))
            × (self.new.network.given ≡ self.old.network.given ++ added)) }
        ensures ended { IfOk result (λ more. self.new.ended ≡ not more) }
        ensures end { IfOk result (λ more.
            more ≡ false → self.new.network.given ≡ self.old.network.given) }
        ensures turn { IfOk result (λ more.
            self.old.ended ≡ false → IsTurn more self.old self.new answers.now) }
        ensures hears { OnOk result (self.old.ended ≡ false → Hears self.old answers.now self.new) }
        ensures heard { OnOk result (self.old.ended ≡ false
            → (config : SsfConfig) (delay : ℕ) (rows : List ScriptRow) (heard : List (List Answer))
            → HasHeard config delay rows heard self.old
            → HasHeard config delay rows (heard ++ answers.now ∷ []) self.new) }
        ensures config { self.new.network.config ≡ self.old.network.config }
        ensures delay { self.new.delay ≡ self.old.delay }
        ensures rows { self.new.taken ++ self.new.left ≡ self.old.taken ++ self.old.left }
    {
        if self.ended {
            return Ok(false);
        }
        if !self.sound {
            return Err(AllocError);
        }
        self.sound = false;
        put_down(
            &mut self.deliveries,
            self.delay,
            self.network.given(),
            answers,
        )?;
        let row = next_row(self.rows.as_slice(), self.taken);
        let delivery = next_delivery(&self.deliveries);
        let Some(now) = next_moment(row, delivery, self.network.first_due()) else {
            self.ended = true;
            self.sound = true;
            return Ok(false);
        };
        deliver(&mut self.network, &mut self.deliveries, now)?;
        take_rows(
            &mut self.network,
            self.rows.as_slice(),
            &mut self.taken,
            &mut self.unplaced,
            now,
        )?;
        self.network.advance(now)?;
        self.sound = true;
        Ok(true)
    }
}

/// For how many items there is room at first, where there are so many rows: a little more than
/// twice as many, which is mostly enough for what the gsmSSFs of their calls send.
fn first_room(rows: usize) -> usize
    ensures some { rows ≤ result }
    ensures few { result ≤ 3 * rows + 8 }
{
    let spare = (rows / 8).saturating_add(MAX_SENT);
    rows.saturating_mul(2).saturating_add(spare)
}

/// The moment of the first row that wasn't taken yet.
fn next_row(rows: &[ScriptRow], taken: usize) -> Option<Moment>
    ensures { result ≡ next_row (drop taken rows.now) }
{
    if taken < rows.len() {
        return Some(rows[taken].at);
    }
    None
}

/// Takes the rows that are due by now, in order, and puts down those whose event had no place.
fn take_rows(
    network: &mut Network,
    rows: &[ScriptRow],
    taken: &mut usize,
    unplaced: &mut Vec<ScriptRow>,
    now: Moment,
) -> Result<(), AllocError>
    requires in_range { All (λ row. row.at ≤ MAX_MOMENT) rows.now }
    requires within { taken.old ≤ length rows.now }
    requires follows { FollowsRows (take taken.old rows.now) network.old.given }
    ensures within { taken.new ≤ length rows.now }
    ensures plays { OnOk result (PlaysDueWithout now network.old network.new
        (drop taken.old rows.now) (drop taken.new rows.now)
        unplaced.old.items unplaced.new.items) }
    ensures follows { FollowsRows (take taken.new rows.now) network.new.given }
    ensures added { Adds network.old network.new }
{
    while *taken < rows.len() && rows[*taken].at <= now {
        let row = rows[*taken];
        let fault = take_row(network, row)?;
        *taken += 1;
        put_down_refused(unplaced, row, fault)?;
    }
    Ok(())
}

/// Puts down a row, where it was refused by a fault.
fn put_down_refused(
    unplaced: &mut Vec<ScriptRow>,
    row: ScriptRow,
    fault: Option<SsfFault>,
) -> Result<(), AllocError>
    ensures { OnOk result
        (unplaced.new.items ≡ unplaced.old.items ++ where_refused row fault) }
{
    if fault.is_some() {
        unplaced.push(row)?;
    }
    Ok(())
}

/// Takes a row. The fault by which its event was refused is the result.
fn take_row(network: &mut Network, row: ScriptRow) -> Result<Option<SsfFault>, AllocError>
    requires { row.at ≤ MAX_MOMENT }
    ensures taken { OnOk result (TakesRow network.old network.new row.at row.what) }
    ensures plays { IfOk result (PlaysRowWithFault network.old row network.new) }
    ensures failed { OnErr result (Grows network.old network.new) }
{
    match row.what {
        Happening::Start {
            call,
            calling,
            called,
        } => {
            network.start(row.at, call, calling, called)?;
            Ok(None)
        }
        Happening::Meets { call, event } => network.give(row.at, call, Input::Meet(event)),
        Happening::Recharge {
            account,
            amount,
            until,
        } => {
            network.recharge(row.at, account, amount, until)?;
            Ok(None)
        }
    }
}

/// Puts down the operations of answers, one after the other, each for the call of its post and a
/// delay after the post's moment. A recharge has none.
fn put_down(
    deliveries: &mut VecDeque<Delivery>,
    delay: u32,
    given: &[(u64, Body)],
    answers: &[Answer],
) -> Result<(), AllocError>
    requires delay { delay ≤ DAY }
    requires in_range { All (λ item. item.0 ≤ HORIZON) given.now }
    ensures { OnOk result (deliveries.new.items
        ≡ deliveries.old.items ++ deliveries_of delay given.now answers.now) }
{
    for answer in answers {
        if let Some(item) = given.get(answer.number as usize) {
            let (at, body) = *item;
            if let Body::Ssf { call, .. } = body {
                send(deliveries, at + u64::from(delay), call, answer.instructions)?;
            }
        }
    }
    Ok(())
}

/// Delivers the operations that are due by now, in order.
fn deliver(
    network: &mut Network,
    deliveries: &mut VecDeque<Delivery>,
    now: Moment,
) -> Result<(), AllocError>
    requires { now ≤ HORIZON }
    ensures grows { Grows network.old network.new }
    ensures delivers { OnOk result
        (DeliversDue now network.old network.new deliveries.old.items deliveries.new.items) }
{
    while let Some(delivery) = take_due(deliveries, now) {
        network.give(now, delivery.call, Input::Operate(delivery.op))?;
    }
    Ok(())
}

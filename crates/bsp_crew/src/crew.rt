//! Workers that make the supersteps of a run beside the calling thread until it is over.

ghost use Rattle.std.specs.Prelude.{◌≡◌, ◌<◌, IfOk, IfSome, OnOk, min, true};
ghost use Rattle.bsp_run.specs.TurnBy.{turn_by};
ghost use Rattle.bsp_crew.specs.Parts.{IsLeft, IsPart, asks_turns, has_turns, with_part};

use crate::part::Part;
use crate::shared_run::SharedRun;
use crate::task::{Made, Means, Task};
use crate::worksheet::{Pieces, Worksheet, large_piece};
use bsp_gate::Gate;
use bsp_model::{OutOfMemory, TryCopy};
use bsp_pool::{Deal, Desk, MOST_WORKERS, Patience, Pool};
use bsp_step::{Gathering, Program};
use std::alloc::Global;
use std::marker::Model;
use std::thread::Threads;

/// How many units of turns a lane has, about. Deliveries go over all requests, so those of a lane are one unit.
const TURN_UNITS_A_LANE: usize = 2;

/// The workers of a run, of which the calling thread is one. Contracts see a crew as the number of the workers beside it.
#[derive(Drop)]
pub struct Crew<J: SharedRun> {
    pool: Pool<Worksheet<J>>,
}

impl<J: SharedRun> Model for Crew<J> {
    ghost use Rattle.std.specs.Prelude.{ℕ, ◌-◌};

    ghost Value = { ℕ };

    ghost view = { λ c. c.pool - 1 };
}

impl<J: SharedRun> Crew<J> {
    /// A crew of so many workers beside the calling thread, 15 at most. None where there is no worker, or no memory.
    pub fn new(alloc: Global, beside: usize) -> Option<Crew<J>>
        ensures { IfSome result (λ crew. (0 < crew) × (crew ≡ min beside 15)) }
    {
        if beside == 0 {
            return None;
        }
        let workers = beside.min(MOST_WORKERS - 1) + 1;
        let mut sheets = Vec::new(alloc);
        for _worker in 0..workers {
            sheets.push(Worksheet::new(alloc)).ok()?;
        }
        let pool = Pool::new(alloc, sheets).ok()?;
        Some(Crew { pool })
    }

    /// Tells the workers to leave.
    pub fn dismiss(&self) {
        self.pool.dismiss();
    }

    /// Lets the workers draw units until they are told to leave, each in a thread of its own where one can be made.
    pub fn attend<P: Program, G: Gate, R: Threads + Sync>(&self, rt: &R, means: &Means<'_, P, G>)
    where
        J: Send,
        requires { J.turn ≡ turn_by P.Program means.now.program.now }
    {
        let work = |sheet: &mut Worksheet<J>, unit: usize|
            requires { J.turn ≡ turn_by P.Program means.now.program.now }
        { sheet.work(means, unit) };
        let rest = || drop(large_piece(means.alloc));
        self.pool.attend(rt, means.alloc, &work, &rest);
    }

    /// Orders the work of a list, of which so many processes are a unit, from the workers beside the calling thread.
    fn hand_out(&self, deal: &Deal, whole: &Part<'_>, size: usize, task: &Task)
        requires { IsPart J.turn (J.views whole.now.step) whole.now.processes.now task.now }
    {
        for seat in self.pool.useful(deal) {
            if let Some(mut desk) = seat.take_anew()
                && let Ok(copy) = task.copy()
            {
                desk.sheet.order(whole, size, copy);
                seat.open(desk, deal);
            }
        }
    }

    /// Works a unit that the calling thread has drawn: into `made` where the rest of the list begins with it, else into its own pieces. It answers what is
    /// left of the list.
    fn work_unit<'a, P: Program, G: Gate>(
        &self,
        means: &Means<'_, P, G>,
        task: &Task,
        rest: &Part<'a>,
        unit: &Part<'a>,
        own: &mut Pieces<J>,
        spare: &mut Option<Gathering>,
        made: &mut Made,
    ) -> Result<Part<'a>, OutOfMemory>
        requires turn { asks_turns task.now ≡ true → J.turn ≡ turn_by P.Program means.now.program.now }
        requires part { IsPart J.turn (J.views rest.now.step) rest.now.processes.now task.now }
        requires unit { IsPart J.turn (J.views unit.now.step) unit.now.processes.now task.now }
        requires alike { has_turns made.old ≡ asks_turns task.now }
        ensures { IfOk result (λ left. IsLeft J.turn J.views rest.now made.old left made.new) }
    {
        if unit.first == rest.first {
            let (part, behind) = rest.split(unit.processes.len());
            means.work::<J>(task, &part, spare, made)?;
            return Ok(behind);
        }
        own.work(means, task, unit);
        Ok(*rest)
    }

    /// Draws units until none is left, and works them. Meanwhile it takes over what the workers have answered. It answers what is left of the list.
    fn draw<'a, P: Program, G: Gate>(
        &self,
        means: &Means<'_, P, G>,
        task: &Task,
        whole: &Part<'a>,
        size: usize,
        own: &mut Desk<Worksheet<J>>,
        spare: &mut Option<Gathering>,
        made: &mut Made,
    ) -> Result<Part<'a>, OutOfMemory>
        requires turn { asks_turns task.now ≡ true → J.turn ≡ turn_by P.Program means.now.program.now }
        requires part { IsPart J.turn (J.views whole.now.step) whole.now.processes.now task.now }
        requires alike { has_turns made.old ≡ asks_turns task.now }
        ensures { IfOk result (λ rest. IsLeft J.turn J.views whole.now made.old rest made.new) }
    {
        let mut rest = *whole;
        for _drawn in 0..u64::MAX {
            let Some(unit) = own.hands.draw() else {
                return Ok(rest);
            };
            let pieces = &mut own.sheet.pieces;
            rest = self.work_unit(
                means,
                task,
                &rest,
                &whole.unit(unit, size),
                pieces,
                spare,
                made,
            )?;
            rest = self.add_pieces(&rest, false, made)?;
        }
        Ok(rest)
    }

    /// Adds to `made` the pieces of the workers that have answered, where the rest of the list begins with them. Once no unit is left to draw, orders that
    /// no worker has begun are taken back.
    fn add_pieces<'a>(
        &self,
        rest: &Part<'a>,
        are_drawn: bool,
        made: &mut Made,
    ) -> Result<Part<'a>, OutOfMemory>
        ensures { IfOk result (λ left. IsLeft J.turn J.views rest.now made.old left made.new) }
    {
        let mut left = *rest;
        for seat in self.pool.beside() {
            let desk = if are_drawn {
                seat.take_back()
            } else {
                seat.answer()
            };
            if let Some(mut desk) = desk {
                desk.sheet.take_back();
                left = desk.sheet.pieces.add_to(&left, made)?;
            }
        }
        Ok(left)
    }

    /// The same once no unit is left to draw. It waits for a piece as long as a worker is at work, and patience lasts.
    fn await_pieces<'a, G: Gate>(
        &self,
        own: &mut Pieces<J>,
        rest: &Part<'a>,
        patience: &mut Patience,
        gate: &G,
        made: &mut Made,
    ) -> Result<Part<'a>, OutOfMemory>
        ensures { IfOk result (λ left. IsLeft J.turn J.views rest.now made.old left made.new) }
    {
        let mut left = own.add_to(rest, made)?;
        for _look in 0..u64::MAX {
            let waits = self.pool.waits(patience, gate);
            left = self.add_pieces(&left, true, made)?;
            if !waits || left.processes.len() < rest.processes.len() {
                return Ok(left);
            }
        }
        Ok(left)
    }

    /// Adds to `made` what the workers made of the rest of a list. A unit that none has answered in time is made by the calling thread.
    fn gather<P: Program, G: Gate>(
        &self,
        means: &Means<'_, P, G>,
        task: &Task,
        rest: &Part<'_>,
        size: usize,
        own: &mut Pieces<J>,
        patience: &mut Patience,
        spare: &mut Option<Gathering>,
        made: &mut Made,
    ) -> Result<(), OutOfMemory>
        requires size { 0 < size }
        requires turn { asks_turns task.now ≡ true → J.turn ≡ turn_by P.Program means.now.program.now }
        requires part { IsPart J.turn (J.views rest.now.step) rest.now.processes.now task.now }
        requires alike { has_turns made.old ≡ asks_turns task.now }
        ensures alike { OnOk result (has_turns made.new ≡ has_turns made.old) }
        ensures made { OnOk result (made.new
            ≡ with_part J.turn (J.views rest.now.step) rest.now.processes.now made.old) }
    {
        let mut rest = *rest;
        while !rest.processes.is_empty() {
            let left = self.await_pieces(own, &rest, patience, means.gate, made)?;
            if left.processes.len() == rest.processes.len() {
                let (part, behind) = left.split(size);
                means.work::<J>(task, &part, spare, made)?;
                rest = behind;
            } else {
                rest = left;
            }
        }
        Ok(())
    }

    /// Works a task at the processes of a list, and adds the turns or deliveries to `made`. The list is cut into units, which the workers and the calling
    /// thread draw. The calling thread makes the units that no worker has answered: where one is late, or was refused memory.
    pub(crate) fn work_units<P: Program, G: Gate>(
        &self,
        means: &Means<'_, P, G>,
        task: &Task,
        whole: &Part<'_>,
        spare: &mut Option<Gathering>,
        made: &mut Made,
    ) -> Result<(), OutOfMemory>
        requires turn { asks_turns task.now ≡ true → J.turn ≡ turn_by P.Program means.now.program.now }
        requires part { IsPart J.turn (J.views whole.now.step) whole.now.processes.now task.now }
        requires alike { has_turns made.old ≡ asks_turns task.now }
        ensures alike { OnOk result (has_turns made.new ≡ has_turns made.old) }
        ensures made { OnOk result (made.new
            ≡ with_part J.turn (J.views whole.now.step) whole.now.processes.now made.old) }
    {
        match self.pool.own_desk() {
            Some(mut own) => self.work_at(&mut own, means, task, whole, spare, made),
            None => means.work::<J>(task, whole, spare, made),
        }
    }

    /// The same, where this is the desk of the calling thread.
    fn work_at<P: Program, G: Gate>(
        &self,
        own: &mut Desk<Worksheet<J>>,
        means: &Means<'_, P, G>,
        task: &Task,
        whole: &Part<'_>,
        spare: &mut Option<Gathering>,
        made: &mut Made,
    ) -> Result<(), OutOfMemory>
        requires turn { asks_turns task.now ≡ true → J.turn ≡ turn_by P.Program means.now.program.now }
        requires part { IsPart J.turn (J.views whole.now.step) whole.now.processes.now task.now }
        requires alike { has_turns made.old ≡ asks_turns task.now }
        ensures alike { OnOk result (has_turns made.new ≡ has_turns made.old) }
        ensures made { OnOk result (made.new
            ≡ with_part J.turn (J.views whole.now.step) whole.now.processes.now made.old) }
    {
        let count = whole.processes.len();
        let lanes = self.pool.beside().len().saturating_add(1);
        let least = match task {
            Task::Turns(_) => lanes.saturating_mul(TURN_UNITS_A_LANE),
            Task::Deliveries(_) => lanes,
        };
        let size = count.div_ceil(least.max(1)).max(1);
        let units = count.div_ceil(size);
        let deal = own.hands.deal(units);
        own.sheet.pieces.clear();
        self.hand_out(&deal, whole, size, task);
        let began = means.gate.now();
        let rest = self.draw(means, task, whole, size, own, spare, made)?;
        let mut patience = Patience::new(began, means.gate);
        let pieces = &mut own.sheet.pieces;
        self.gather(means, task, &rest, size, pieces, &mut patience, spare, made)
    }
}

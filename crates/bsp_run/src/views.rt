//! What the processes see in a superstep.

ghost use Rattle.std.specs.Prelude.{◌≡◌, ◌<◌, [], All, None, IfNone, IfOk, IfSome, length, map, nat_eq, slice_index_or};
ghost use Rattle.bsp_model.specs.Input.{input_fault};
ghost use Rattle.bsp_model.specs.Replaced.{replaced, IsAscending};
ghost use Rattle.bsp_run.specs.State.{cell_of, views_of};
ghost use Rattle.bsp_run.specs.Run.{Run, start, open_views};
ghost use Rattle.bsp_run.specs.Setting.{next_setting};
ghost use Rattle.bsp_run.specs.Ending.{end_of};
ghost use Rattle.bsp_run.specs.Condition.{no_view};
ghost use Rattle.bsp_run.specs.Inside.Opening.{CanOpen, state_of};
ghost use Rattle.bsp_run.specs.Inside.Settings.{IsSettingOf, AreTurned, HaveTurns};

use crate::ending::end_of;
use crate::opening::{Recording, add_first_cells, shared_args};
use crate::{Arguments, Setting, Status};
use bsp_deliver::{Cells, next_tag_size};
use bsp_model::{Input, Layered, MemoryRef, OutOfMemory, Shared, TryCopy, numbers};
use bsp_step::{Outcomes, View};
use std::alloc::Global;
use std::marker::Model;

/// The views of the processes in a superstep, by process. The memories lie in flat lists. The parts that all processes see alike are kept once.
pub struct Views {
    setting: Setting,
    cells: Layered<Cells>,
}

// docs/DECISIONS.md says why it has a drop of its own.
impl Drop for Views {
    fn drop(self) {
        let Self { setting, cells } = self;
    }
}

impl Model for Views {
    ghost use Rattle.std.specs.Prelude.{List};
    ghost use Rattle.bsp_step.specs.ViewParts.{ViewParts};

    ghost Value = { List ViewParts };

    ghost use Rattle.bsp_run.specs.Inside.Views.{seen_in, IsLawful};

    ghost view = { seen_in };

    ghost invariant = { IsLawful };
}

impl Views {
    /// What the processes see with these memories and queues, or `OutOfMemory`.
    pub fn open(alloc: Global, setting: Setting, cells: Cells) -> Result<Views, OutOfMemory>
        requires { CanOpen setting.args setting.step (state_of cells setting.table setting.tag_size) }
        ensures { IfOk result
            (λ v. v ≡ views_of setting.args setting.step (state_of cells setting.table setting.tag_size)) }
    {
        let cells = Layered::new(alloc, cells)?;
        Ok(Views { setting, cells })
    }

    /// What the processes see in another setting with the same memories and queues, but for new ones of some processes, which are in ascending order.
    pub(crate) fn replaced(
        &self,
        alloc: Global,
        setting: Setting,
        processes: Vec<usize>,
        cells: Cells,
    ) -> Result<Views, OutOfMemory>
        requires known { All (λ p. p < length self.now) processes.items }
        requires ascending { IsAscending processes.items }
        requires count { length cells ≡ length processes.items }
        requires opens { CanOpen setting.args setting.step
            (state_of (replaced (map cell_of self.now) processes.items cells) setting.table setting.tag_size) }
        ensures { IfOk result (λ v. v ≡ views_of setting.args setting.step
            (state_of (replaced (map cell_of self.now) processes.items cells) setting.table setting.tag_size)) }
    {
        let cells = self.cells.replaced(alloc, processes, cells)?;
        Ok(Views { setting, cells })
    }

    /// What the processes see in superstep 0 of the run of a lawful input.
    pub fn first(alloc: Global, input: &Input, recording: Recording) -> Result<Views, OutOfMemory>
        requires { input_fault input.now ≡ None }
        ensures { IfOk result (λ views. views ≡ open_views (start input.now)) }
    {
        let args = shared_args(&input.args)?;
        let setting = Setting::first(alloc, args, input.mems.len())?;
        let mut cells = Cells::new(alloc);
        let mems = input.mems.as_slice();
        let processes = numbers(mems.len());
        add_first_cells(&mut cells, mems, processes, recording)?;
        Views::open(alloc, setting, cells)
    }

    /// What all processes see alike.
    pub fn setting(&self) -> &Setting
        ensures { IsSettingOf self.now result.now }
    {
        &self.setting
    }

    /// What all processes see alike in the next superstep, where these views were open, and the turns left these outcomes.
    pub fn next_setting(&self, outcomes: &Outcomes) -> Result<Setting, OutOfMemory>
        requires turned { (r : Run) × AreTurned r self.now outcomes.now }
        ensures { (r : Run) → AreTurned r self.now outcomes.now
            → IfOk result (λ setting. setting ≡ next_setting r) }
    {
        let setting = self.setting();
        Ok(Setting {
            step: setting.step + 1,
            args: setting.args.copy()?,
            table: setting.table.next(outcomes)?,
            tag_size: next_tag_size(setting.tag_size, outcomes),
        })
    }

    /// How a superstep of these outcomes ends the run, or none where it ends by delivery.
    pub fn end(&self, alloc: Global, outcomes: &Outcomes) -> Result<Option<Status>, OutOfMemory>
        requires turns { (r : Run) × HaveTurns r self.now outcomes.now }
        ensures { (r : Run) → HaveTurns r self.now outcomes.now
            → IfOk result (λ end. end ≡ end_of (length r.past) r.state.table outcomes.now) }
    {
        let setting = self.setting();
        end_of(alloc, setting.step, &setting.table, outcomes)
    }

    fn into_cells(self) -> Layered<Cells> {
        let Views { setting, cells } = self;
        drop(setting);
        cells
    }

    /// An empty list of cells. Its room is that of views that nobody needs, unless a copy shares them or the room is too small or large for so many processes.
    pub fn room_of(alloc: Global, views: Shared<Views>, count: usize) -> Cells
        ensures { result ≡ [] }
    {
        let Ok(views) = views.try_unwrap() else {
            return Cells::new(alloc);
        };
        match views.into_cells().into_room(count) {
            Some(cells) => cells,
            None => Cells::new(alloc),
        }
    }

    /// The number of processes.
    pub fn len(&self) -> usize
        ensures { result ≡ length self.now }
    {
        self.cells.len()
    }

    /// Whether there is no process.
    pub fn is_empty(&self) -> bool
        ensures { result ≡ nat_eq (length self.now) 0 }
    {
        self.len() == 0
    }

    /// What a process sees.
    #[inline(always)]
    pub fn get(&self, pid: usize) -> View<'_>
        requires { pid < length self.now }
        ensures { result ≡ slice_index_or self.now pid no_view }
    {
        let setting = &self.setting;
        let args: &Arguments = &setting.args;
        let (cells, place) = self.cells.find(pid);
        View {
            nprocs: self.cells.len() as u64,
            pid: pid as u64,
            step: setting.step,
            args: args.as_slice()[pid].as_slice(),
            memory: cells.memory(place),
            table: &setting.table,
            tag_size: setting.tag_size,
            queue: cells.queue(place),
        }
    }

    /// The memory that a process sees.
    #[inline(always)]
    pub fn memory(&self, pid: usize) -> MemoryRef<'_>
        requires { pid < length self.now }
        ensures { result ≡ (slice_index_or self.now pid no_view).memory }
    {
        self.get(pid).memory
    }

    /// These views, to be read where they lie.
    pub fn as_ref(&self) -> ViewsRef<'_>
        ensures { result ≡ self.now }
    {
        ViewsRef { views: Some(self) }
    }
}

/// What the processes see in a superstep, read where it lies; nothing where there is no such superstep.
#[derive(Drop)]
pub struct ViewsRef<'a> {
    views: Option<&'a Views>,
}

impl<'a> Model for ViewsRef<'a> {
    ghost use Rattle.std.specs.Prelude.{List, option_map};
    ghost use Rattle.bsp_step.specs.ViewParts.{ViewParts};
    ghost use Rattle.bsp_run.specs.Inside.ViewsRef.{views_there};

    ghost Value = { List ViewParts };

    ghost view = { λ r. views_there (option_map (λ v. v.now) r.views) };
}

impl<'a> ViewsRef<'a> {
    /// Where there is no superstep.
    pub fn none() -> ViewsRef<'a>
        ensures { result ≡ [] }
    {
        ViewsRef { views: None }
    }

    /// The number of processes.
    pub fn len(&self) -> usize
        ensures { result ≡ length self.now }
    {
        match self.views {
            Some(views) => views.len(),
            None => 0,
        }
    }

    /// Whether there is no process.
    pub fn is_empty(&self) -> bool
        ensures { result ≡ nat_eq (length self.now) 0 }
    {
        self.len() == 0
    }

    /// The views, where there is such a superstep.
    pub fn views(&self) -> Option<&'a Views>
        ensures some { IfSome result (λ views. views.now ≡ self.now) }
        ensures none { IfNone result (self.now ≡ []) }
    {
        self.views
    }

    /// What a process sees.
    #[inline(always)]
    pub fn get(&self, pid: usize) -> View<'a>
        requires { pid < length self.now }
        ensures { result ≡ slice_index_or self.now pid no_view }
    {
        match self.views {
            Some(views) => views.get(pid),
            None => unreachable!(),
        }
    }
}

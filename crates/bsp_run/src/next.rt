//! The next superstep of a tape whose turns are taken: its setting and its views.

ghost use Rattle.std.specs.Prelude.{◌≡◌, ◌<◌, All, IfOk, length, map};
ghost use Rattle.bsp_model.specs.Replaced.{replaced, IsAscending};
ghost use Rattle.bsp_run.specs.State.{next_state, cell_of};
ghost use Rattle.bsp_run.specs.Setting.{next_setting, next_views};
ghost use Rattle.bsp_run.specs.Condition.{deliveries_of};

use crate::{Phase, Setting, Tape, Views};
use bsp_deliver::Cells;
use bsp_model::{OutOfMemory, TryCopy};
use bsp_step::View;

impl Tape {
    /// What all processes see alike in the next superstep.
    pub fn next_setting(&self) -> Result<Setting, OutOfMemory>
        requires { self.now.phase ≡ Phase.Turned }
        ensures { IfOk result (λ setting. setting ≡ next_setting self.now) }
    {
        self.views.next_setting(&self.outcomes)
    }

    /// What all processes see alike in the next superstep, where the table and the tag size are those of this view.
    pub fn next_setting_like(&self, view: &View<'_>) -> Result<Setting, OutOfMemory>
        requires turned { self.now.phase ≡ Phase.Turned }
        requires table { view.now.table ≡ (next_state self.now.state self.now.outcomes).table }
        requires tag_size { view.now.tag_size ≡ (next_state self.now.state self.now.outcomes).tag_size }
        ensures { IfOk result (λ setting. setting ≡ next_setting self.now) }
    {
        let setting = self.views.setting();
        Ok(Setting {
            step: self.past.len() as u64 + 1,
            args: setting.args.copy()?,
            table: view.table.copy()?,
            tag_size: view.tag_size,
        })
    }

    /// The views of the next superstep: those whose memories and queues are the same as in other views but for some processes, in ascending order.
    pub fn next_views_like(
        &self,
        like: &Views,
        setting: Setting,
        processes: Vec<usize>,
        cells: Cells,
    ) -> Result<Views, OutOfMemory>
        requires turned { self.now.phase ≡ Phase.Turned }
        requires setting { setting ≡ next_setting self.now }
        requires known { All (λ p. p < length like.now) processes.items }
        requires ascending { IsAscending processes.items }
        requires count { length cells ≡ length processes.items }
        requires cells { replaced (map cell_of like.now) processes.items cells ≡ deliveries_of self.now.outcomes }
        ensures { IfOk result (λ views. views ≡ next_views self.now) }
    {
        let alloc = *self.past.allocator();
        like.replaced(alloc, setting, processes, cells)
    }
}

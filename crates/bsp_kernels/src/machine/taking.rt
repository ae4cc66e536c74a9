//! Messages that are taken.

ghost use Rattle.std.specs.Prelude.{◌≡◌, ◌+◌, ◌<◌, ◌^◌};
ghost use Rattle.bsp_kernels.specs.declared.call.Call.TheVariants.{Take, StoreTaken};
ghost use Rattle.bsp_kernels.specs.Inside.Making.{Makes, state_at};
ghost use Rattle.bsp_kernels.specs.Machine.{call_effect};

use super::reading::first_len;
use super::{Machine, acted};
use crate::exit::Exit;
use bsp_model::Words;
use bsp_step::{Ctx, Stop};

impl<'k> Machine<'k> {
    pub(super) fn take(&mut self, ctx: &mut Ctx<'_>, place: usize, r: u8) -> Result<usize, Exit>
        requires { place + 1 < 2 ^ 64 }
        ensures { Makes ctx.old (call_effect (state_at self.old ctx.old place) (Take r)) ctx.new self.new result }
    {
        let len = first_len(ctx);
        let Ok(mut words) = vec![in self.taken.allocator(); 0; len as usize] else {
            return Err(Exit::Stopped(Stop::OutOfMemory));
        };
        match ctx.move_into(words.as_mut_slice()) {
            Ok(_count) => {
                self.taken = Words::from_vec(words);
                self.registers[r as usize] = len;
                Ok(place + 1)
            }
            Err(stop) => Err(Exit::Stopped(stop)),
        }
    }

    pub(super) fn store_taken(
        &self,
        ctx: &mut Ctx<'_>,
        place: usize,
        into: u8,
        count: u8,
    ) -> Result<usize, Exit>
        requires { place + 1 < 2 ^ 64 }
        ensures { Makes ctx.old (call_effect (state_at self.now ctx.old place) (StoreTaken into count))
            ctx.new self.now result }
    {
        let taken = self.taken.as_slice();
        let count = self.word(count).min(taken.len() as u64);
        acted(
            ctx.store_words(self.word(into), &taken[..count as usize]),
            place + 1,
        )
    }
}

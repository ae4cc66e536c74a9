//! How calls are made.

ghost use Rattle.std.specs.Prelude.{◌≡◌, ◌+◌, ◌<◌, ◌^◌};
ghost use Rattle.bsp_kernels.specs.Inside.Making.{Makes, state_at};
ghost use Rattle.bsp_kernels.specs.Machine.{call_effect};

use super::{Machine, acted};
use crate::Call;
use crate::exit::Exit;
use bsp_step::Ctx;

impl<'k> Machine<'k> {
    /// Makes the call of the instruction at a place, and answers the place of the next.
    pub(super) fn make(
        &mut self,
        call: Call,
        ctx: &mut Ctx<'_>,
        place: usize,
    ) -> Result<usize, Exit>
        requires { place + 1 < 2 ^ 64 }
        ensures { Makes ctx.old (call_effect (state_at self.old ctx.old place) call) ctx.new self.new result }
    {
        let next = place + 1;
        match call {
            Call::Charge(n) => acted(ctx.charge(self.word(n)), next),
            Call::Put(pid, first, count, area, offset) => {
                self.put(ctx, place, (pid, area, offset), self.words(first, count))
            }
            Call::PutBlock(pid, from, len, area, offset) => {
                self.put_block(ctx, place, (pid, area, offset), (from, len))
            }
            Call::PutConstants(pid, from, len, area, offset) => {
                self.put_constants(ctx, place, (pid, area, offset), (from, len))
            }
            Call::Get(pid, area, offset, into, len) => {
                let (offset, into, len) = (self.word(offset), self.word(into), self.word(len));
                acted(
                    ctx.get(self.word(pid), self.word(area), offset, into, len),
                    next,
                )
            }
            Call::Send(pid, tag, tag_len, first, count) => {
                self.send(ctx, place, (pid, tag, tag_len), self.words(first, count))
            }
            Call::SendBlock(pid, tag, tag_len, from, len) => {
                self.send_block(ctx, place, (pid, tag, tag_len), (from, len))
            }
            Call::SendConstants(pid, tag, tag_len, from, len) => {
                self.send_constants(ctx, place, (pid, tag, tag_len), (from, len))
            }
            Call::PushReg(start, len) => acted(
                ctx.push_reg(self.word(start), self.word(len)),
                next,
            ),
            Call::PopReg(start) => acted(ctx.pop_reg(self.word(start)), next),
            Call::SetTagsize(r, size) => self.set_tagsize(ctx, place, r, size),
            Call::Print(first, count) => acted(ctx.print(self.words(first, count)), next),
            Call::PrintBlock(from, len) => self.print_block(ctx, place, (from, len)),
            Call::Take(r) => self.take(ctx, place, r),
            Call::StoreTaken(into, count) => self.store_taken(ctx, place, into, count),
        }
    }

    fn set_tagsize(
        &mut self,
        ctx: &mut Ctx<'_>,
        place: usize,
        r: u8,
        size: u8,
    ) -> Result<usize, Exit>
        requires { place + 1 < 2 ^ 64 }
        ensures { Makes ctx.old (call_effect (state_at self.old ctx.old place) (Call.SetTagsize r size))
            ctx.new self.new result }
    {
        match ctx.set_tagsize(self.word(size)) {
            Ok(in_force) => {
                self.registers[r as usize] = in_force;
                Ok(place + 1)
            }
            Err(stop) => Err(Exit::Stopped(stop)),
        }
    }
}

//! The first halves: what is sent.

ghost use Rattle.std.specs.Prelude.{◌≡◌, ◌≤◌, ◌<◌, ◌-◌, ◌∷◌, [], length, drop, slice_index, sum, take};
ghost use Rattle.std.specs.List.{range_with_len};
ghost use Rattle.bsp_step.specs.Act as act;
ghost use Rattle.bsp_step.specs.Calls.{Performs, Runs};
ghost use Rattle.bsp_collectives.specs.Messages.{blank_tag, sends};
ghost use Rattle.bsp_collectives.specs.Halves.{all_gather, all_reduce, block, block_size, broadcast, everyone, exchange, exchange_parts, gather, part, reduce, scan, scatter, spread};

use crate::block;
use bsp_model::limits::MOST_TAG_WORDS;
use bsp_step::{Ctx, Stop};

/// The size of blocks in which `count` words make one for each of `nprocs` processes: their quotient, rounded up.
pub fn block_size(count: usize, nprocs: u64) -> usize
    requires some { 1 ≤ nprocs }
    ensures { result ≡ block_size count nprocs }
{
    count.div_ceil(nprocs as usize)
}

/// All-gather: sends the words to all processes, the own one among them. In the next superstep `receive` answers the words of all, those of process 0 first.
pub fn all_gather(ctx: &mut Ctx<'_>, words: &[u64]) -> Result<(), Stop>
    ensures { Runs ctx.old (all_gather ctx.old.view words.now) tt ctx.new result }
{
    send_from(ctx, 0, words)
}

/// Total exchange: sends block d of the words, in blocks of `size` words, to process d, for all d. In the next superstep `receive` answers the blocks that
/// all processes sent here, that of process 0 first.
pub fn exchange(ctx: &mut Ctx<'_>, words: &[u64], size: usize) -> Result<(), Stop>
    ensures { Runs ctx.old (exchange ctx.old.view words.now size) tt ctx.new result }
{
    for pid in 0..ctx.nprocs() {
        send(ctx, pid, block(words, size, pid as usize))?;
    }
    Ok(())
}

/// Total exchange of parts of any lengths: sends part d of the words to process d, for all d. Part 0 begins with the first word, and each other part
/// where the part before it ends; part d has `lengths[d]` words. Where the words end, the last parts are shorter, or empty, and a part without a length
/// is empty. In the next superstep `receive` answers the parts that all processes sent here, that of process 0 first, and `receive_parts` each of them.
#[tactic(auto, using(bsp_step::proofs::Laws::running, crate::proofs::Parts::parts_left))]
pub fn exchange_parts(ctx: &mut Ctx<'_>, words: &[u64], lengths: &[usize]) -> Result<(), Stop>
    ensures { Runs ctx.old (exchange_parts ctx.old.view words.now lengths.now) tt ctx.new result }
{
    let mut left = words;
    for pid in 0..ctx.nprocs() {
        let (part, later) = split_part(left, lengths, pid as usize);
        send(ctx, pid, part)?;
        left = later;
    }
    Ok(())
}

/// The first words, as many as the length at this place says, and those after them. Without a length there is no first word.
fn split_part<'a>(words: &'a [u64], lengths: &[usize], place: usize) -> (&'a [u64], &'a [u64])
    ensures part { result.0.now ≡ take (slice_index lengths.now place) words.now }
    ensures later { result.1.now ≡ drop (slice_index lengths.now place) words.now }
{
    let len = lengths.get(place).copied().unwrap_or(0);
    words.split_at(len.min(words.len()))
}

/// Gather: sends the words to the root. In the next superstep `receive` answers the words of all there, those of process 0 first, and none elsewhere.
pub fn gather(ctx: &mut Ctx<'_>, root: u64, words: &[u64]) -> Result<(), Stop>
    ensures { Runs ctx.old (gather ctx.old.view root words.now) tt ctx.new result }
{
    send(ctx, root, words)
}

/// Broadcast: the root sends the words to all processes, itself among them; the others send nothing. In the next superstep `receive` answers them.
pub fn broadcast(ctx: &mut Ctx<'_>, root: u64, words: &[u64]) -> Result<(), Stop>
    ensures { Runs ctx.old (broadcast ctx.old.view root words.now) tt ctx.new result }
{
    if ctx.pid() != root {
        return Ok(());
    }
    all_gather(ctx, words)
}

/// Scatter: the root sends block d of the words, in blocks of `size` words, to process d, for all d; the others send nothing. In the next superstep `receive`
/// answers the own block.
pub fn scatter(ctx: &mut Ctx<'_>, root: u64, words: &[u64], size: usize) -> Result<(), Stop>
    ensures { Runs ctx.old (scatter ctx.old.view root words.now size) tt ctx.new result }
{
    if ctx.pid() != root {
        return Ok(());
    }
    exchange(ctx, words, size)
}

/// Broadcast in two supersteps: the root scatters the words. In the next superstep each process calls `forward`, and in the one after it `receive` answers them.
pub fn spread(ctx: &mut Ctx<'_>, root: u64, words: &[u64]) -> Result<(), Stop>
    ensures { Runs ctx.old (spread ctx.old.view root words.now) tt ctx.new result }
{
    scatter(ctx, root, words, block_size(words.len(), ctx.nprocs()))
}

/// Reduce: sends the word to the root. In the next superstep `combine` answers what is made of the words of all there.
pub fn reduce(ctx: &mut Ctx<'_>, root: u64, word: u64) -> Result<(), Stop>
    ensures { Runs ctx.old (reduce ctx.old.view root word) tt ctx.new result }
{
    gather(ctx, root, &[word])
}

/// All-reduce: sends the word to all processes. In the next superstep `combine` answers what is made of the words of all.
pub fn all_reduce(ctx: &mut Ctx<'_>, word: u64) -> Result<(), Stop>
    ensures { Runs ctx.old (all_reduce ctx.old.view word) tt ctx.new result }
{
    all_gather(ctx, &[word])
}

/// Inclusive scan: sends the word to the own process and to all later ones. In the next superstep `combine` answers what is made of the words of
/// the processes up to the own one.
pub fn scan(ctx: &mut Ctx<'_>, word: u64) -> Result<(), Stop>
    ensures { Runs ctx.old (scan ctx.old.view word) tt ctx.new result }
{
    send_from(ctx, ctx.pid(), &[word])
}

/// Sends the words to the processes from `first` on.
fn send_from(ctx: &mut Ctx<'_>, first: u64, words: &[u64]) -> Result<(), Stop>
    requires { first ≤ ctx.old.view.nprocs }
    ensures { Runs ctx.old (sends ctx.old.view (λ _. words.now) (range_with_len first
        (ctx.old.view.nprocs - first))) tt ctx.new result }
{
    for pid in first..ctx.nprocs() {
        send(ctx, pid, words)?;
    }
    Ok(())
}

/// Sends the words to a process, in a message whose tag says nothing: zeros, as many as the tag size in force.
///
/// Faults: those of `Ctx::send`, but for F6.
pub fn send(ctx: &mut Ctx<'_>, pid: u64, words: &[u64]) -> Result<(), Stop>
    ensures { Performs ctx.old (act.send pid (blank_tag ctx.old.view) words.now) ctx.new result }
{
    let tag = [0; MOST_TAG_WORDS as usize];
    ctx.send(pid, &tag[..ctx.tag_size() as usize], words)
}

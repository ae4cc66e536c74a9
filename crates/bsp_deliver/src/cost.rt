//! The h-relation of a superstep.

ghost use Rattle.std.specs.Prelude.{◌≡◌, ℕ, ◌+◌, ◌<◌, ◌≤◌, length, map, fold, take, max, false, All, slice_index_or};
ghost use Rattle.std.specs.Bool.{OnTrue};
ghost use Rattle.bsp_model.specs.Limits.{most_h};
ghost use Rattle.bsp_step.specs.OutcomeParts.{outcome_of};
ghost use Rattle.bsp_deliver.specs.Inside.Puts.{HasPutsAlone};
ghost use Rattle.bsp_deliver.specs.Condition.{AreDeliverable};
ghost use Rattle.bsp_deliver.specs.Cost.{put_transfer, get_transfer, send_transfer, largest, h_relation, h_relation_to};
ghost use Rattle.bsp_deliver.specs.Inside.Sums.{is_target, counted_to, no_words, transfers_from, HasRoom};

use bsp_model::limits::{MOST_PROCESSES, MOST_REQUESTS};
use bsp_model::{Get, ProcessSet, PutsRef, SendsRef};
use bsp_step::{ListKind, Outcomes};

/// Whether all requests are puts, pops and pushes.
fn are_puts_alone(outcomes: &Outcomes) -> bool
    ensures { OnTrue result (All HasPutsAlone outcomes.now) }
{
    outcomes.is_without(ListKind::Gets) && outcomes.is_without(ListKind::Sends)
}

/// The processes to which words are counted. All calls that count are inlined, so that a count for everyone looks at no set.
#[derive(Clone, Copy)]
enum Targets {
    Everyone,
    Members(ProcessSet),
}

impl Targets {
    #[inline(always)]
    fn contain(&self, process: u64) -> bool
        ensures { result ≡ is_target self.now process }
    {
        match self {
            Targets::Everyone => true,
            Targets::Members(set) => set.contains(process as usize),
        }
    }
}

/// The words that each process sends to and receives from others.
#[derive(Clone, Copy)]
struct Sums {
    sent: [u64; MOST_PROCESSES],
    received: [u64; MOST_PROCESSES],
}

impl Sums {
    ghost use Rattle.bsp_deliver.specs.Inside.Sums.{is_target, counted_to, no_words, transfers_of, transfers_from, HasRoom, IsSmall};

    /// Counts words on their way. Those to oneself count nowhere.
    #[inline(always)]
    fn count(&mut self, targets: &Targets, source: u64, target: u64, count: u64)
        requires small { IsSmall (record { source = source; target = target; count = count }) }
        requires room { HasRoom self.old 1 }
        ensures { self.new ≡ counted_to (is_target targets.now) self.old
            (record { source = source; target = target; count = count }) }
    {
        if source != target && targets.contain(target) {
            self.sent[source as usize] += count;
            self.received[target as usize] += count;
        }
    }

    #[inline(always)]
    fn count_puts(&mut self, targets: &Targets, sender: u64, puts: &PutsRef<'_>)
        requires small { All (λ p. IsSmall (put_transfer sender p)) puts.now }
        requires room { HasRoom self.old (length puts.now) }
        ensures { self.new ≡ fold (counted_to (is_target targets.now)) self.old (map (put_transfer sender) puts.now) }
    {
        for place in 0..puts.len() {
            let put = puts.at(place);
            self.count(targets, sender, put.target, put.words.len() as u64);
        }
    }

    #[inline(always)]
    fn count_gets(&mut self, targets: &Targets, sender: u64, gets: &[Get])
        requires small { All (λ g. IsSmall (get_transfer sender g)) gets.now }
        requires room { HasRoom self.old (length gets.now) }
        ensures { self.new ≡ fold (counted_to (is_target targets.now)) self.old (map (get_transfer sender) gets.now) }
    {
        for get in gets {
            self.count(targets, get.owner, sender, get.len);
        }
    }

    #[inline(always)]
    fn count_sends(&mut self, targets: &Targets, sender: u64, sends: &SendsRef<'_>)
        requires small { All (λ m. IsSmall (send_transfer sender m)) sends.now }
        requires room { HasRoom self.old (length sends.now) }
        ensures { self.new ≡ fold (counted_to (is_target targets.now)) self.old (map (send_transfer sender) sends.now) }
    {
        for place in 0..sends.len() {
            let send = sends.at(place);
            let words = send.tag.len() + send.words.len();
            self.count(targets, sender, send.target, words as u64);
        }
    }

    fn none() -> Sums
        ensures { result ≡ no_words }
    {
        Sums {
            sent: [0; MOST_PROCESSES],
            received: [0; MOST_PROCESSES],
        }
    }

    /// Counts all requests of a process. Where all issue puts alone, no others are looked for.
    #[inline(always)]
    fn count_requests(&mut self, targets: &Targets, outcomes: &Outcomes, p: usize, puts_alone: bool)
        requires known { p < length outcomes.now }
        requires alone { OnTrue puts_alone (All HasPutsAlone outcomes.now) }
        requires deliverable { AreDeliverable outcomes.now }
        requires room { HasRoom self.old MOST_REQUESTS }
        ensures sums { self.new ≡ fold (counted_to (is_target targets.now)) self.old (transfers_of p
            (outcome_of outcomes.now p)) }
        ensures room { (n : ℕ) → HasRoom self.old (MOST_REQUESTS + n) → HasRoom self.new n }
    {
        let own = outcomes.get(p);
        self.count_puts(targets, p as u64, &own.puts);
        if puts_alone {
            return;
        }
        self.count_gets(targets, p as u64, own.gets);
        self.count_sends(targets, p as u64, &own.sends);
    }

    /// The sums over all requests to these processes.
    #[inline(always)]
    fn of(targets: &Targets, outcomes: &Outcomes) -> Sums
        requires { AreDeliverable outcomes.now }
        ensures sums { result ≡ fold (counted_to (is_target targets.now)) no_words (transfers_from 0 outcomes.now) }
        ensures room { HasRoom result 0 }
    {
        let mut sums = Sums::none();
        let puts_alone = are_puts_alone(outcomes);
        for p in 0..outcomes.len() {
            sums.count_requests(targets, outcomes, p, puts_alone);
        }
        sums
    }

    /// The largest number of words that one of so many processes sends or receives.
    fn most(&self, nprocs: usize) -> u64
        requires few { nprocs ≤ MOST_PROCESSES }
        requires room { HasRoom self.now 0 }
        ensures value { result ≡ max (largest (take nprocs self.now.sent)) (largest (take nprocs self.now.received)) }
        ensures small { result ≤ most_h }
    {
        let sent = largest(&self.sent[..nprocs]);
        let received = largest(&self.received[..nprocs]);
        sent.max(received)
    }
}

/// The largest number, 0 where there is none.
fn largest(numbers: &[u64]) -> u64
    ensures { result ≡ largest numbers.now }
{
    let mut most = 0;
    for number in numbers {
        most = most.max(*number);
    }
    most
}

/// The h-relation of a superstep that ends by delivery: the largest number of words that a process sends or receives. A put counts its words
/// from sender to target, a get from owner to requester, a message its tag and payload; words to oneself count nowhere (the usual additive BSP
/// cost formula; what counts: this profile). It takes no memory.
pub fn h_of(outcomes: &Outcomes) -> u64
    requires { AreDeliverable outcomes.now }
    ensures value { result ≡ h_relation outcomes.now }
    ensures small { result ≤ most_h }
{
    let sums = Sums::of(&Targets::Everyone, outcomes);
    sums.most(outcomes.len())
}

/// The h-relation counted over the requests to these processes alone: puts and messages by their target, gets by the process that asks
/// (this profile). It takes no memory.
pub fn h_to(outcomes: &Outcomes, targets: &ProcessSet) -> u64
    requires { AreDeliverable outcomes.now }
    ensures value { result ≡ h_relation_to (λ p. slice_index_or targets.now p false) outcomes.now }
    ensures small { result ≤ most_h }
{
    let sums = Sums::of(&Targets::Members(*targets), outcomes);
    sums.most(outcomes.len())
}

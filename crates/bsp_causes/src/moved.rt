//! How many words the requests move that travel again.

ghost use Rattle.std.specs.Prelude.{◌≡◌, ℕ, ◌+◌, ◌<◌, ◌≤◌, true, All, filter, fold, length, map, max, take};
ghost use Rattle.bsp_model.specs.Limits.{most_h};
ghost use Rattle.bsp_step.specs.OutcomeParts.{outcome_of};
ghost use Rattle.bsp_deliver.specs.Condition.{AreDeliverable};
ghost use Rattle.bsp_deliver.specs.Cost.{put_transfer, get_transfer, send_transfer, largest, h_relation};
ghost use Rattle.bsp_deliver.specs.Inside.Sums.{transfers_of, transfers_from};
ghost use Rattle.bsp_causes.specs.Inside.Moved.{counted, no_words, HasRoom};
ghost use Rattle.bsp_causes.specs.Inside.Travel.{reads_other};
ghost use Rattle.bsp_causes.specs.Travel.{requests_again};
ghost use Rattle.bsp_causes.specs.Inside.Travel.{is_in, requests_of, requests_in, HasAddresses};

use crate::travel::{Redone, reads_other};
use bsp_model::limits::{MOST_PROCESSES, MOST_REQUESTS};
use bsp_model::{Get, ProcessSet, PutsRef, SendsRef};
use bsp_step::Outcomes;

/// The words that each process sends to and receives from others.
#[derive(Clone, Copy)]
struct Moved {
    sent: [u64; MOST_PROCESSES],
    received: [u64; MOST_PROCESSES],
}

impl Moved {
    ghost use Rattle.bsp_deliver.specs.Inside.Sums.{IsSmall};

    fn none() -> Moved
        ensures { result ≡ no_words }
    {
        Moved {
            sent: [0; MOST_PROCESSES],
            received: [0; MOST_PROCESSES],
        }
    }

    /// Counts words on their way. Those to oneself count nowhere.
    fn count(&mut self, source: u64, target: u64, count: u64)
        requires small { IsSmall (record { source = source; target = target; count = count }) }
        requires room { HasRoom self.old 1 }
        ensures { self.new ≡ counted self.old (record { source = source; target = target; count = count }) }
    {
        if source != target {
            self.sent[source as usize] += count;
            self.received[target as usize] += count;
        }
    }

    fn count_puts(&mut self, targets: &ProcessSet, sender: u64, puts: &PutsRef<'_>)
        requires small { All (λ p. IsSmall (put_transfer sender p)) puts.now }
        requires room { HasRoom self.old (length puts.now) }
        ensures { self.new ≡ fold counted self.old
            (map (put_transfer sender) (filter (λ p. is_in targets.now p.target) puts.now)) }
    {
        for place in 0..puts.len() {
            let put = puts.at(place);
            if targets.contains(put.target as usize) {
                self.count(sender, put.target, put.words.len() as u64);
            }
        }
    }

    fn count_sends(&mut self, targets: &ProcessSet, sender: u64, sends: &SendsRef<'_>)
        requires small { All (λ m. IsSmall (send_transfer sender m)) sends.now }
        requires room { HasRoom self.old (length sends.now) }
        ensures { self.new ≡ fold counted self.old
            (map (send_transfer sender) (filter (λ m. is_in targets.now m.target) sends.now)) }
    {
        for place in 0..sends.len() {
            let send = sends.at(place);
            if targets.contains(send.target as usize) {
                let words = send.tag.len() + send.words.len();
                self.count(sender, send.target, words as u64);
            }
        }
    }

    fn count_gets(&mut self, asker: u64, gets: &[Get])
        requires small { All (λ g. IsSmall (get_transfer asker g)) gets.now }
        requires room { HasRoom self.old (length gets.now) }
        ensures { self.new ≡ fold counted self.old (map (get_transfer asker) gets.now) }
    {
        for get in gets {
            self.count(get.owner, asker, get.len);
        }
    }

    /// Counts the gets that read other words.
    fn count_other_gets(&mut self, before: &Outcomes, after: &Outcomes, asker: u64, gets: &[Get])
        requires small { All (λ g. IsSmall (get_transfer asker g)) gets.now }
        requires room { HasRoom self.old (length gets.now) }
        requires addresses { All HasAddresses gets.now }
        ensures { self.new ≡ fold counted self.old
            (map (get_transfer asker) (filter (reads_other before.now after.now) gets.now)) }
    {
        for get in gets {
            if reads_other(before, after, get) {
                self.count(get.owner, asker, get.len);
            }
        }
    }

    /// Counts the requests of a process whose turn was taken again.
    fn count_issued(&mut self, targets: &ProcessSet, outcomes: &Outcomes, p: usize)
        requires known { p < length outcomes.now }
        requires deliverable { AreDeliverable outcomes.now }
        requires room { HasRoom self.old MOST_REQUESTS }
        ensures sums { self.new ≡ fold counted self.old (transfers_of p
            (requests_again true (is_in targets.now) (λ g. true) (outcome_of outcomes.now p))) }
        ensures room { (n : ℕ) → HasRoom self.old (MOST_REQUESTS + n) → HasRoom self.new n }
    {
        let own = outcomes.get(p);
        self.count_puts(targets, p as u64, &own.puts);
        self.count_gets(p as u64, own.gets);
        self.count_sends(targets, p as u64, &own.sends);
    }

    /// Counts the requests of a process that travel again.
    fn count_requests(&mut self, redone: &Redone, before: &Outcomes, after: &Outcomes, p: usize)
        requires known { p < length after.now }
        requires deliverable { AreDeliverable after.now }
        requires room { HasRoom self.old MOST_REQUESTS }
        ensures sums { self.new ≡ fold counted self.old (transfers_of p
            (requests_of redone.now before.now after.now p (outcome_of after.now p))) }
        ensures room { (n : ℕ) → HasRoom self.old (MOST_REQUESTS + n) → HasRoom self.new n }
    {
        if redone.turned.contains(p) {
            self.count_issued(&redone.delivered, after, p);
            return;
        }
        if !redone.delivered.contains(p) {
            return;
        }
        let own = after.get(p);
        self.count_other_gets(before, after, p as u64, own.gets);
    }

    /// The sums over all requests that travel again.
    fn of(redone: &Redone, before: &Outcomes, after: &Outcomes) -> Moved
        requires { AreDeliverable after.now }
        ensures sums { result ≡ fold counted no_words (transfers_from 0
            (requests_in redone.now before.now after.now after.now)) }
        ensures room { HasRoom result 0 }
    {
        let mut sums = Moved::none();
        for p in 0..after.len() {
            sums.count_requests(redone, before, after, p);
        }
        sums
    }

    /// The largest number of words that one of so many processes sends or receives.
    fn most(&self, nprocs: usize) -> u64
        requires few { nprocs ≤ MOST_PROCESSES }
        requires room { HasRoom self.now 0 }
        ensures value { result ≡ max (largest (take nprocs self.now.sent)) (largest (take nprocs self.now.received)) }
        ensures small { result ≤ most_h }
    {
        let sent = largest(&self.sent[..nprocs]);
        let received = largest(&self.received[..nprocs]);
        sent.max(received)
    }
}

/// The largest number, 0 where there is none.
fn largest(numbers: &[u64]) -> u64
    ensures { result ≡ largest numbers.now }
{
    let mut most = 0;
    for number in numbers {
        most = most.max(*number);
    }
    most
}

/// The h-relation of the requests that travel again. It takes no memory.
pub(crate) fn h_again(redone: &Redone, before: &Outcomes, after: &Outcomes) -> u64
    requires { AreDeliverable after.now }
    ensures value { result ≡ h_relation (requests_in redone.now before.now after.now after.now) }
    ensures small { result ≤ most_h }
{
    let sums = Moved::of(redone, before, after);
    sums.most(after.len())
}

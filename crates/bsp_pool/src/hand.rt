//! The right of a worker to draw from a lane.

ghost use Rattle.std.specs.Prelude.{◌≡◌, ◌+◌, ◌<◌, ◌≤◌, [], All, IfNone, IfSome};
ghost use Rattle.std.specs.Arc.{arc_value};
ghost use Rattle.bsp_pool.specs.Passes.{drawn};
ghost use Rattle.bsp_pool.specs.Lanes.{DrewNoUnit};

use crate::OutOfMemory;
use crate::deck::{Deck, Pass};
use std::alloc::Global;
use std::marker::Model;
use std::sync::Arc;

/// The most numbers that a hand draws, so that its pass stays within 2^32 for its unit.
const MOST_DRAWS: u64 = 2147483648;

/// A pass of a lane's deck, which draws where a look says that a number is left. Contracts see it as that pass.
#[derive(Drop)]
pub struct Hand {
    deck: Arc<Deck, Global>,
    pass: Pass,
    drawn: u64,
}

impl Model for Hand {
    ghost use Rattle.std.specs.Prelude.{◌≡◌, ◌<◌, ◌≤◌, length};
    ghost use Rattle.std.specs.Arc.{arc_value};
    ghost use Rattle.bsp_pool.specs.Passes.{PassContent};

    ghost Value = { PassContent };

    ghost view = { λ h. h.pass };

    ghost invariant = { λ h. (h.pass.deck ≡ arc_value h.deck) × (0 < h.pass.units) × (length h.pass.numbers ≤ h.drawn) };
}

impl Hand {
    /// A hand with this pass, which has drawn nothing yet.
    pub(crate) fn new(deck: Arc<Deck, Global>, pass: Pass) -> Hand
        requires deck { pass.deck ≡ arc_value deck }
        requires unit { 0 < pass.units }
        requires fresh { pass.numbers ≡ [] }
        ensures { result ≡ pass }
    {
        Hand {
            deck,
            pass,
            drawn: 0,
        }
    }

    /// The number that the next draw of the lane takes, unless another draw comes before it.
    pub fn next(&self) -> u64 {
        self.deck.next()
    }

    /// Draws a number of the lane's units, which are `count` from `first` on: which of them. It is above all that the hand drew before. None where a look says that none is left, and where the
    /// number drawn, which another draw has brought about, belongs to no unit.
    pub fn draw(&mut self, first: u64, count: u64) -> Option<u64>
        ensures below { IfSome result (λ unit. unit < count) }
        ensures some { IfSome result (λ unit. self.new ≡ drawn self.old (first + unit)) }
        ensures above { IfSome result (λ unit. All (λ x. x < first + unit) self.old.numbers) }
        ensures none { IfNone result (DrewNoUnit first count self.old self.new) }
    {
        let next = self.next();
        if self.drawn >= MOST_DRAWS || next < first || next - first >= count {
            return None;
        }
        let number = self.deck.draw(&mut self.pass);
        self.drawn += 1;
        if number < first || number - first >= count {
            return None;
        }
        Some(number - first)
    }
}

/// The hands of so many workers at one lane, or `OutOfMemory`.
pub(crate) fn hands_of_lane(alloc: Global, workers: usize) -> Result<Vec<Hand>, OutOfMemory>
    requires { workers ≤ 16 }
{
    let (deck, mut pass) = Deck::open(alloc)?;
    let deck = Arc::new(alloc, deck)?;
    let mut hands = Vec::with_capacity(alloc, workers)?;
    for _worker in 0..workers {
        let part = deck.share(&mut pass);
        hands.push(Hand::new(Arc::try_clone(&deck)?, part))?;
    }
    Ok(hands)
}

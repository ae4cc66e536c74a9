//! The deck that workers draw from, and their passes.

ghost use Rattle.std.specs.Prelude.{◌≡◌, ℕ, ◌*◌, ◌<◌, [], All, IfOk, length};
ghost use Rattle.bsp_pool.specs.Numbers.{all_units, numbers_a_unit, occurrences, AreApart, IsDistinct};
ghost use Rattle.bsp_pool.specs.Passes.{pass_of, drawn, kept, given, joined};

use crate::OutOfMemory;
use crate::claim::{ClaimRule, Draw, JoinPasses, Look, PassView, ShareUnit};
use atomic_table::{Seat, Table};
use std::alloc::Global;
use std::convert::Infallible;
use std::marker::Model;

/// The words of a deck's table, of which one is used. It lies in their middle, so that no other value lies on its cache line.
const TABLE_WORDS: usize = 16;

/// The place of the claim word among them.
const CLAIM_PLACE: usize = 8;

/// A deck of the numbers 0, 1, 2, .. that threads draw, each number once. It is one claim word:
/// the number that is drawn next.
///
/// Contracts see a deck as which one it is.
#[derive(Drop)]
pub struct Deck {
    // It has no slots, so nothing to put into them, and its rule is given nothing.
    table: Table<Infallible, PassView, (), ClaimRule, Global>,
}

impl Model for Deck {
    ghost use Rattle.std.specs.Prelude.{◌≡◌};
    ghost use Rattle.atomic_table.specs.Seated.{TableId, table_id_coded};

    ghost Value = { TableId };

    ghost coded = { table_id_coded };

    ghost view = { λ d. d.table.shared.table_id };

    ghost invariant = { λ d. (d.table.shared.table_id.words ≡ 16) × (d.table.shared.table_id.slots ≡ 0) };
}

/// The right to draw from one deck. It has no bytes: its numbers and units are seen by contracts alone, so
/// whoever needs the numbers keeps them.
///
/// Contracts see a pass as its deck, its units, and the numbers that it has drawn or taken in, in order. All
/// passes of a deck have 2^31 units together, and a pass has at most 2^32 numbers for each of its units.
#[derive(Drop)]
pub struct Pass {
    seat: Seat<Infallible, PassView>,
}

impl Model for Pass {
    ghost use Rattle.std.specs.Prelude.{◌≡◌, []};
    ghost use Rattle.bsp_pool.specs.Passes.{PassContent, pass_of};

    ghost Value = { PassContent };

    ghost view = { λ p. pass_of p.seat.table_id p.seat.me.0.units p.seat.me.0.numbers };

    ghost invariant = { λ p. p.seat.me.1 ≡ [] };
}

impl Deck {
    /// A deck of which nothing is drawn yet, and its first pass, which has all units and no number.
    ///
    /// # Errors
    /// `OutOfMemory` where there is none for the claim word.
    pub fn open(alloc: Global) -> Result<(Deck, Pass), OutOfMemory>
        ensures { IfOk result (λ r. r.1 ≡ pass_of r.0 all_units []) }
    {
        let (table, seat) = Table::of_words(alloc, &[0; TABLE_WORDS], &())?;
        Ok((Deck { table }, Pass { seat }))
    }

    /// A further pass of this deck, without numbers. One unit moves to it where `pass` has two units or more, and
    /// at most 2^32 numbers for each unit that it keeps. Otherwise none moves, and the new pass can't draw.
    pub fn share(&self, pass: &mut Pass) -> Pass
        requires { pass.old.deck ≡ self.now }
        ensures kept { pass.new ≡ kept pass.old }
        ensures given { result ≡ given pass.old }
    {
        Pass {
            seat: self.table.shared.split_seat::<ShareUnit>(&mut pass.seat),
        }
    }

    /// The next number: one `fetch_add` of 1 on the claim word, which never waits and takes no memory. It is
    /// above all numbers of the pass. The pass needs a unit, and fewer than 2^32 numbers for each of its units.
    pub fn draw(&self, pass: &mut Pass) -> u64
        requires deck { pass.old.deck ≡ self.now }
        requires room { length pass.old.numbers < pass.old.units * numbers_a_unit }
        ensures above { All (λ x. x < result) pass.old.numbers }
        ensures drawn { pass.new ≡ drawn pass.old result }
    {
        self.table
            .shared
            .fetch_add::<Draw>(&mut pass.seat, CLAIM_PLACE, 1)
    }

    /// The number that the next draw takes, unless another draw comes before it.
    pub fn next(&self) -> u64 {
        self.table.shared.peek(CLAIM_PLACE)
    }

    /// Takes in the numbers and units of another pass. No number stands in both.
    pub fn join(&self, pass: &mut Pass, other: Pass)
        requires deck { pass.old.deck ≡ self.now }
        requires other { other.deck ≡ self.now }
        ensures joined { pass.new ≡ joined pass.old other }
        ensures apart { AreApart pass.old.numbers other.numbers }
    {
        self.table
            .shared
            .join_seat::<JoinPasses>(&mut pass.seat, other.seat);
        self.table.shared.load::<Look>(&mut pass.seat, CLAIM_PLACE);
    }

    /// How many numbers were drawn. Those of the pass are distinct and below it. Where the pass has all units they
    /// are all the numbers below it, each once.
    pub fn close(self, pass: Pass) -> u64
        requires { pass.deck ≡ self }
        ensures distinct { IsDistinct pass.numbers }
        ensures below { All (λ x. x < result) pass.numbers }
        ensures whole { pass.units ≡ all_units → (x : ℕ) → x < result → occurrences x pass.numbers ≡ 1 }
    {
        let closed = self.table.close_with(pass.seat);
        let drawn = closed.word(CLAIM_PLACE);
        closed.free();
        drawn
    }
}

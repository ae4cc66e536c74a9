//! The requests that are addressed to a process.

ghost use Rattle.std.specs.Prelude.{◌≡◌, ◌<◌, ◌↔◌, length, IsTrue, slice_index_or};

use bsp_model::{Block, BlocksRef, Put, Send};

/// A kind of requests that are addressed to processes.
pub(crate) trait Addressed: Block {
    ghost use Rattle.std.specs.Prelude.{◌≡◌, ℕ};

    ghost addressee: { Self → ℕ };

    fn addressee_at(requests: &BlocksRef<'_, Self>, place: usize) -> u64
        requires { place < length requests.now }
        ensures { (r : Self) × (r ≡ slice_index_or requests.now place r) × (result ≡ addressee r) };

    /// Whether the request at a place is that of another list at another.
    fn same_at(
        requests: &BlocksRef<'_, Self>,
        place: usize,
        others: &BlocksRef<'_, Self>,
        other_place: usize,
    ) -> bool
        requires known { place < length requests.now }
        requires known_other { other_place < length others.now }
        ensures { (r : Self) × (s : Self) × (r ≡ slice_index_or requests.now place r)
            × (s ≡ slice_index_or others.now other_place s) × (IsTrue result ↔ (r ≡ s)) }
    {
        requests.same_at(place, others, other_place)
    }
}

impl Addressed for Put {
    ghost addressee = { λ p. p.target };

    fn addressee_at(puts: &BlocksRef<'_, Put>, place: usize) -> u64 {
        let put = puts.at(place);
        put.target
    }
}

impl Addressed for Send {
    ghost addressee = { λ m. m.target };

    fn addressee_at(sends: &BlocksRef<'_, Send>, place: usize) -> u64 {
        let send = sends.at(place);
        send.target
    }
}

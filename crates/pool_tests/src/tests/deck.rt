use bsp_pool::{Deck, OutOfMemory};
use std::alloc::Global;

/// The numbers that two passes of a deck draw, and how many it counts once they are joined.
fn numbers_drawn(alloc: Global) -> Result<[u64; 4], OutOfMemory> {
    let (deck, mut a) = Deck::open(alloc)?;
    let mut b = deck.share(&mut a);
    let first = deck.draw(&mut a);
    let second = deck.draw(&mut b);
    let third = deck.draw(&mut a);
    deck.join(&mut a, b);
    Ok([first, second, third, deck.close(a)])
}

#[test]
fn two_passes_draw_each_number_once(rt: HostRuntime) {
    assert!(rt; numbers_drawn(rt.alloc()) == Ok([0, 1, 2, 3]));
}

//! Whether requests move as many words between the same processes, whoever issues them.

ghost use Rattle.std.specs.Prelude.{◌≡◌, ℕ, map, true};
ghost use Rattle.bsp_deliver.specs.Cost.{put_transfer, get_transfer, send_transfer};

use bsp_model::{Get, PutsRef, SendsRef};

/// True only where puts move alike, one by one.
pub fn puts_move_alike(old: &PutsRef<'_>, new: &PutsRef<'_>) -> bool
    ensures { result ≡ true → (sender : ℕ) → map (put_transfer sender) old.now ≡ map (put_transfer sender) new.now }
{
    if old.len() != new.len() {
        return false;
    }
    for place in 0..old.len() {
        let before = old.at(place);
        let after = new.at(place);
        if before.target != after.target || before.words.len() != after.words.len() {
            return false;
        }
    }
    true
}

/// True only where gets move alike, one by one.
pub fn gets_move_alike(old: &[Get], new: &[Get]) -> bool
    ensures { result ≡ true → (sender : ℕ) → map (get_transfer sender) old.now ≡ map (get_transfer sender) new.now }
{
    if old.len() != new.len() {
        return false;
    }
    for place in 0..old.len() {
        if old[place].owner != new[place].owner || old[place].len != new[place].len {
            return false;
        }
    }
    true
}

/// True only where messages move alike, one by one.
pub fn sends_move_alike(old: &SendsRef<'_>, new: &SendsRef<'_>) -> bool
    ensures { result ≡ true → (sender : ℕ) → map (send_transfer sender) old.now ≡ map (send_transfer sender) new.now }
{
    if old.len() != new.len() {
        return false;
    }
    for place in 0..old.len() {
        let before = old.at(place);
        let after = new.at(place);
        if before.target != after.target || before.tag.len() != after.tag.len() {
            return false;
        }
        if before.words.len() != after.words.len() {
            return false;
        }
    }
    true
}

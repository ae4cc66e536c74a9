//! The rule of the claim word, and the kinds of step that passes make on it.

use atomic_table::{Join, Play, Split, TableRule};
use std::convert::Infallible;
use std::marker::Model;

/// What the table of the claim word calls the view of a pass: what the pass knows of itself. Contracts and the rule alone speak of views. No code
/// makes one, and none has bytes.
///
/// Contracts see a view as the units of the pass, and the numbers that it has drawn or taken in, in order.
pub(crate) struct PassView;

impl Model for PassView {
    ghost use Rattle.bsp_pool.specs.Inside.Views.{View, no_view};

    ghost Value = { View };

    ghost view = { λ _. no_view };
}

pub(crate) struct ClaimRule;

impl TableRule<Infallible, PassView, ()> for ClaimRule {
    ghost use Rattle.std.specs.Prelude.{[]};
    ghost use Rattle.bsp_pool.specs.Numbers.{all_units};
    ghost use Rattle.bsp_pool.specs.Inside.Claim.{view_of, IsClaimed};

    ghost holds = { λ _ s. IsClaimed s.words s.views };

    ghost first = { λ _. view_of all_units [] };
}

/// A draw: one `fetch_add` of 1.
pub(crate) struct Draw;

impl Play<Infallible, PassView> for Draw {
    ghost use Rattle.std.specs.Prelude.{◌≡◌};
    ghost use Rattle.bsp_pool.specs.Inside.Claim.{Draws};

    ghost then = { λ _ before found after. Draws before.0 found after.0 × (after.1 ≡ before.1) };
}

/// A load, which tells a pass that its numbers are distinct and below the word.
pub(crate) struct Look;

impl Play<Infallible, PassView> for Look {
    ghost use Rattle.std.specs.Prelude.{◌≡◌};
    ghost use Rattle.bsp_pool.specs.Inside.Claim.{Looks};

    ghost then = { λ _ before found after. Looks before.0 found after.0 × (after.1 ≡ before.1) };
}

/// A pass is made of another, which may give it one unit.
pub(crate) struct ShareUnit;

impl Split<PassView> for ShareUnit {
    ghost use Rattle.bsp_pool.specs.Inside.Claim.{kept_view, given_view};

    ghost left = { kept_view };

    ghost right = { given_view };
}

/// A pass takes in another, which is spent.
pub(crate) struct JoinPasses;

impl Join<PassView> for JoinPasses {
    ghost use Rattle.std.specs.Prelude.{[]};
    ghost use Rattle.bsp_pool.specs.Inside.Claim.{view_of, joined_view};

    ghost both = { joined_view };

    ghost spent = { view_of 0 [] };
}

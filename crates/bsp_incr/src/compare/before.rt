//! The views and the outcomes of the previous run, where a run is made again.

ghost use Rattle.std.specs.Prelude.{◌≡◌, ◌<◌, [], IfNone, IfSome, Some, length, option_map};
ghost use Rattle.bsp_deliver.specs.Condition.{AreDeliverable};
ghost use Rattle.bsp_incr.specs.Exact.{delivered_before};
ghost use Rattle.bsp_incr.specs.Inside.Before.{views_before, outcomes_before, views_after};
ghost use Rattle.bsp_incr.specs.Inside.Before.{first_views_before};

use bsp_run::{History, Views, ViewsRef};
use bsp_step::Outcomes;

/// The views of a superstep of the previous run; none where it took no turns of such a superstep.
pub fn views_before<'a>(old: Option<&'a History>, step: usize) -> ViewsRef<'a>
    ensures { result ≡ views_before (option_map (λ k. k.now) old.entry) step }
{
    match old {
        Some(history) if step < history.steps() => match history.views(step as u64) {
            Some(views) => views.as_ref(),
            None => ViewsRef::none(),
        },
        _ => ViewsRef::none(),
    }
}

/// The outcomes of a superstep of the previous run; none where it took no turns of such a superstep.
pub fn outcomes_before<'a>(old: Option<&'a History>, step: usize) -> Option<&'a Outcomes>
    ensures some { IfSome result (λ o. o.now ≡ outcomes_before (option_map (λ k. k.now) old.entry) step) }
    ensures deliverable { IfSome result (λ o. AreDeliverable o.now) }
    ensures none { IfNone result (outcomes_before (option_map (λ k. k.now) old.entry) step ≡ []) }
{
    match old {
        Some(history) => history.outcomes(step as u64),
        None => None,
    }
}

/// The views after the delivery of a superstep of the previous run; none where there was no such delivery.
pub fn views_after<'a>(old: Option<&'a History>, step: usize) -> Option<&'a Views>
    ensures views { IfSome result (λ v. v.now ≡ views_after (option_map (λ k. k.now) old.entry) step) }
    ensures there { IfSome result (λ _. step < length (delivered_before (option_map (λ k. k.now) old.entry))) }
    ensures none { IfNone result (views_after (option_map (λ k. k.now) old.entry) step ≡ []) }
{
    match old {
        Some(history) if step < history.past().len() => history.views((step + 1) as u64),
        _ => None,
    }
}

/// What the processes saw in superstep 0.
pub fn first_views_before(old: &History) -> ViewsRef<'_>
    ensures { result ≡ first_views_before old.now }
{
    match old.views(0) {
        Some(views) => views.as_ref(),
        None => ViewsRef::none(),
    }
}

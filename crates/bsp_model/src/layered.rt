//! What several processes have, of which that of a few lies apart, so that copies share the rest.

ghost use Rattle.std.specs.Prelude.{◌≡◌, ◌<◌, [], All, IfErr, IfNone, IfOk, IfSome, length, slice_index_or};
ghost use Rattle.bsp_model.specs.Inside.Layers.{AreApart, IsBelow};
ghost use Rattle.bsp_model.specs.Replaced.{replaced, IsAscending};

use crate::by_process::{ByProcess, with_replaced};
use crate::places::{are_among, are_few, place_among};
use crate::{OutOfMemory, Shared, TryCopy, is_worth_room};
use std::alloc::Global;
use std::marker::Model;

/// The few processes whose items lie apart, in ascending order, and their items.
#[derive(Drop)]
pub struct Apart<T: ByProcess> {
    pub processes: Vec<usize>,
    pub items: T,
}

/// An item for each of several processes: a list of all, and a list of the few whose items lie apart. Copies share both lists.
pub struct Layered<T: ByProcess> {
    base: Shared<T>,
    apart: Option<Shared<Apart<T>>>,
}

// docs/DECISIONS.md says why it has a drop of its own.
impl<T: ByProcess + Drop> Drop for Layered<T> {
    fn drop(self) {
        let Self { base, apart } = self;
    }
}

impl<T: ByProcess> Model for Layered<T> {
    ghost use Rattle.bsp_model.specs.Inside.Layers.{layered, HasApart};

    ghost Value = { T };

    ghost view = { λ l. layered T.lay l.base l.apart };

    ghost invariant = { λ l. HasApart T.items l.base l.apart };
}

/// Nothing, in the room of items that are needed no more, where it is for as many as are asked for, and not for many times more.
#[inline(always)]
fn fitting_room<T: ByProcess + Drop>(items: T, count: usize) -> Option<T>
    ensures { IfSome result (λ room. T.items room ≡ []) }
{
    if is_worth_room(count, items.capacity()) {
        return Some(items.into_room());
    }
    None
}

/// The same of items that lie apart, where there are any and no copy shares them.
#[inline(always)]
fn apart_room<T: ByProcess + Drop>(apart: Option<Shared<Apart<T>>>, count: usize) -> Option<T>
    ensures { IfSome result (λ room. T.items room ≡ []) }
{
    match apart?.try_unwrap() {
        Ok(apart) => {
            let Apart { processes, items } = apart;
            drop(processes);
            fitting_room(items, count)
        }
        Err(_) => None,
    }
}

impl<T: ByProcess + Drop> Layered<T> {
    /// Nothing lies apart.
    pub fn new(alloc: Global, all: T) -> Result<Layered<T>, OutOfMemory>
        ensures { IfOk result (λ l. l ≡ all) }
    {
        Ok(Layered {
            base: Shared::new(alloc, all)?,
            apart: None,
        })
    }

    /// The number of processes.
    #[inline(always)]
    pub fn len(&self) -> usize
        ensures { result ≡ length (T.items self.now) }
    {
        self.base.count()
    }

    /// The base list of all processes, and the items that lie apart, which replace the items of their processes.
    #[inline(always)]
    pub fn layers(&self) -> (&T, Option<&Apart<T>>)
        ensures base { IfNone result.1 (self.now ≡ result.0.now) }
        ensures both { IfSome result.1 (λ a. T.items self.now
            ≡ replaced (T.items result.0.now) a.now.processes.items (T.items a.now.items)) }
        ensures apart { IfSome result.1 (λ a. AreApart (T.items result.0.now) a.now.processes.items
            (T.items a.now.items)) }
    {
        match &self.apart {
            Some(apart) => (&self.base, Some(apart)),
            None => (&self.base, None),
        }
    }

    /// The list in which the item of a process stands, and its place there.
    #[inline(always)]
    pub fn find(&self, pid: usize) -> (&T, usize)
        requires { pid < length (T.items self.now) }
        ensures inside { result.1 < length (T.items result.0.now) }
        ensures there { (none : T.Item) → slice_index_or (T.items result.0.now) result.1 none
            ≡ slice_index_or (T.items self.now) pid none }
    {
        let Some(apart) = &self.apart else {
            return (&self.base, pid);
        };
        match place_among(apart.processes.as_slice(), pid) {
            Some(place) => (&apart.items, place),
            None => (&self.base, pid),
        }
    }

    /// The base list, where `processes` has every process whose item lies apart. Else a new list, in which these items have their places.
    fn below(&self, alloc: Global, processes: &[usize]) -> Result<Shared<T>, OutOfMemory>
        requires { IsAscending processes.now }
        ensures count { IfOk result (λ all. length (T.items all) ≡ length (T.items self.now)) }
        ensures below { IfOk result (λ all. IsBelow (T.items all) (T.items self.now) processes.now) }
    {
        let Some(apart) = &self.apart else {
            return self.base.copy();
        };
        let others = apart.processes.as_slice();
        if are_among(others, processes) {
            return self.base.copy();
        }
        Shared::new(
            alloc,
            with_replaced(alloc, &*self.base, others, &apart.items)?,
        )
    }

    /// These items, but for new ones of these processes, which are in ascending order. Where they are few, the new items lie apart. Or `OutOfMemory`.
    #[tactic(auto, using(crate::proofs::Replaced::all_replaced))]
    pub fn replaced(
        &self,
        alloc: Global,
        processes: Vec<usize>,
        new: T,
    ) -> Result<Layered<T>, OutOfMemory>
        requires known { All (λ p. p < length (T.items self.now)) processes.items }
        requires ascending { IsAscending processes.items }
        requires count { length (T.items new) ≡ length processes.items }
        ensures { IfOk result (λ l. T.items l ≡ replaced (T.items self.now) processes.items (T.items new)) }
    {
        if processes.is_empty() {
            return self.copy();
        }
        if processes.len() == self.len() {
            return Layered::new(alloc, new);
        }
        let base = self.below(alloc, processes.as_slice())?;
        if !are_few(processes.len(), base.count()) {
            let all = with_replaced(alloc, &*base, processes.as_slice(), &new)?;
            return Layered::new(alloc, all);
        }
        let items = new;
        let apart = Shared::new(alloc, Apart { processes, items })?;
        Ok(Layered {
            base,
            apart: Some(apart),
        })
    }

    /// Nothing, in the room of the items that lie apart, or else of those of all: of a list that no copy shares, with room for as many items as are asked
    /// for, and not for many times more.
    #[inline(always)]
    pub fn into_room(self, count: usize) -> Option<T>
        ensures { IfSome result (λ room. T.items room ≡ []) }
    {
        let Layered { base, apart } = self;
        if let Some(room) = apart_room(apart, count) {
            drop(base);
            return Some(room);
        }
        match base.try_unwrap() {
            Ok(all) => fitting_room(all, count),
            Err(_) => None,
        }
    }

    /// The items of all, where no copy shares them and none lies apart. Else nothing has changed.
    pub fn try_unwrap(self) -> Result<T, Layered<T>>
        ensures all { IfOk result (λ all. all ≡ self) }
        ensures shared { IfErr result (λ l. l ≡ self) }
    {
        let Layered { base, apart } = self;
        if apart.is_some() {
            return Err(Layered { base, apart });
        }
        match base.try_unwrap() {
            Ok(all) => Ok(all),
            Err(base) => Err(Layered { base, apart }),
        }
    }
}

impl<T: ByProcess + Drop> TryCopy for Layered<T> {
    /// A copy that shares both lists.
    fn copy(&self) -> Result<Layered<T>, OutOfMemory> {
        let apart = match &self.apart {
            Some(apart) => Some(apart.copy()?),
            None => None,
        };
        Ok(Layered {
            base: self.base.copy()?,
            apart,
        })
    }
}

//! The programs of this tool by name.

use crate::combining::Combining;
use crate::moving::Moving;
use crate::parting::Parting;
use bsp_engine::ByName;
use bsp_model::{End, OutOfMemory};
use bsp_step::{Ctx, Program, View};
use std::alloc::Global;

/// A program that makes one collective call. Its answers are that program's.
#[derive(Clone, Copy)]
pub enum Collective {
    Moving(Moving),
    Combining(Combining),
    Parting(Parting),
}

impl ByName for Collective {
    ghost use Rattle.collectives.specs.Catalogue.{program_named};

    type Program = Collective;

    ghost named = { program_named };

    fn names() -> &'static str {
        "broadcast, broadcast_in_two, scatter, gather, all_gather, exchange, reduce, all_reduce, scan and exchange_parts"
    }

    fn by_name(name: &str) -> Option<Collective> {
        match name {
            "broadcast" => Some(Collective::Moving(Moving::Broadcast)),
            "broadcast_in_two" => Some(Collective::Moving(Moving::BroadcastInTwo)),
            "scatter" => Some(Collective::Moving(Moving::Scatter)),
            "gather" => Some(Collective::Moving(Moving::Gather)),
            "all_gather" => Some(Collective::Moving(Moving::AllGather)),
            "exchange" => Some(Collective::Moving(Moving::Exchange)),
            "reduce" => Some(Collective::Combining(Combining::Reduce)),
            "all_reduce" => Some(Collective::Combining(Combining::AllReduce)),
            "scan" => Some(Collective::Combining(Combining::Scan)),
            "exchange_parts" => Some(Collective::Parting(Parting)),
            _ => None,
        }
    }
}

impl Program for Collective {
    ghost use Rattle.collectives.specs.Catalogue.{collective_plan, collective_looks};
    ghost use Rattle.collectives.specs.CatalogueFootprint.{collective_footprint};

    ghost acts = { λ p v. (collective_plan p v).acts };

    ghost ending = { λ p v. (collective_plan p v).ending };

    ghost looks = { collective_looks };

    ghost footprint = { collective_footprint };

    fn looks(&self, view: &View<'_>, address: u64) -> bool {
        match self {
            Collective::Moving(program) => program.looks(view, address),
            Collective::Combining(program) => program.looks(view, address),
            Collective::Parting(program) => program.looks(view, address),
        }
    }

    fn step(&self, alloc: Global, ctx: &mut Ctx<'_>) -> Result<End, OutOfMemory> {
        match self {
            Collective::Moving(program) => program.step(alloc, ctx),
            Collective::Combining(program) => program.step(alloc, ctx),
            Collective::Parting(program) => program.step(alloc, ctx),
        }
    }
}

//! What arrives and what it costs, as laws: where every process of a superstep makes the first half of a collective call, the words that its second half reads are those
//! that the name says.

ghost use Rattle.bsp_collectives.specs.Costs.{AllGatherCosts, ExchangeCosts, ExchangePartsCosts, GatherCosts};
ghost use Rattle.bsp_collectives.specs.WhatArrives.{AllGatherArrives, AllGatherArrivesApart, AllReduceArrives, BroadcastArrives, ExchangeArrives, ExchangePartsArrive, ExchangePartsArriveApart, ForwardArrives, GatherArrives, GatherArrivesApart, GatherArrivesAtTheRootAlone, ReduceArrives, ScanArrives, ScatterArrives, SpreadArrives, TurnsSendTheirActs};

/// A turn without a fault sends the messages of its acts, and no others: so the outcomes of turns that make a half are those of which the laws below
/// speak.
pub fn turns_send_their_acts()
    ensures { TurnsSendTheirActs }
{}

/// Broadcast: the root's words arrive at each process.
pub fn broadcast_arrives()
    ensures { BroadcastArrives }
{}

/// Broadcast in two supersteps: after the first, block d of the root's words arrives at process d, in blocks of the least size with which they make
/// one for each process.
/// After the second, where such blocks of some words came to the processes, all of these words arrive at each process.
pub fn spread_arrives()
    ensures first { SpreadArrives }
    ensures second { ForwardArrives }
{}

/// Scatter: block d of the root's words arrives at process d.
pub fn scatter_arrives()
    ensures { ScatterArrives }
{}

/// Gather: the words of all processes arrive at the root, those of process 0 first, and each message has the words of one process. Nothing arrives
/// elsewhere.
/// The h-relation: the root receives the words and tags of all other processes, and each of these sends its own.
pub fn gather_arrives()
    ensures root { GatherArrives }
    ensures elsewhere { GatherArrivesAtTheRootAlone }
    ensures apart { GatherArrivesApart }
    ensures costs { GatherCosts }
{}

/// All-gather: the words of all processes arrive at each, those of process 0 first, and each message has the words of one process. The h-relation:
/// each process sends its words and a tag to each other process.
pub fn all_gather_arrives()
    ensures words { AllGatherArrives }
    ensures apart { AllGatherArrivesApart }
    ensures costs { AllGatherCosts }
{}

/// Total exchange: block d of the words of all processes arrives at process d, that of process 0 first. The h-relation: each process sends block d of
/// its words and a tag to each other process d.
pub fn exchange_arrives()
    ensures words { ExchangeArrives }
    ensures costs { ExchangeCosts }
{}

/// Total exchange of parts of any lengths: part d of the words of all processes arrives at process d, that of process 0 first, and each message has a
/// part of one process. The h-relation is that of a total exchange, of parts.
pub fn exchange_parts_arrive()
    ensures words { ExchangePartsArrive }
    ensures apart { ExchangePartsArriveApart }
    ensures costs { ExchangePartsCosts }
{}

/// Reduce: what the operation makes of what arrives at the root is what it makes of the words of all processes.
pub fn reduce_arrives()
    ensures { ReduceArrives }
{}

/// All-reduce: the same at each process.
pub fn all_reduce_arrives()
    ensures { AllReduceArrives }
{}

/// Inclusive scan: at process d it is what the operation makes of the words of processes 0 to d.
pub fn scan_arrives()
    ensures { ScanArrives }
{}

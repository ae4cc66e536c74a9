//! Tests of documents and reports, over the public calls of `bsp_engine`.
#![tactic(auto)]

#[cfg(test)]
mod tests;

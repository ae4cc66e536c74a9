mod deck;
mod doubling;
mod machine;
mod meeting;
mod phase;
mod refusals;

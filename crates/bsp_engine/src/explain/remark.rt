//! A line on standard error that tells more of a fault.

use std::alloc::Global;
use std::fmt::Display;

/// A line that tells more of a fault. It is left out where memory for it was refused.
#[derive(Drop)]
pub struct Remark {
    pub line: String,
    is_cut: bool,
}

impl Remark {
    pub fn new(alloc: Global) -> Remark {
        Remark {
            line: String::new(alloc),
            is_cut: false,
        }
    }

    pub fn add(&mut self, words: &str) {
        self.is_cut |= self.line.push_str(words).is_err();
    }

    pub fn add_value<V: Display + Copy>(&mut self, words: &str, value: V) {
        self.is_cut |= write!(self.line, "{words}{value}").is_err();
    }

    /// Appends a text with the code of each control character in its place, so that it stays on one line.
    pub fn add_escaped(&mut self, text: &str) {
        for c in text.chars() {
            let added = if c.is_control() {
                write!(self.line, "\\u{{{:x}}}", c as u32)
            } else {
                self.line.push(c)
            };
            self.is_cut |= added.is_err();
        }
    }

    pub fn add_limits<V: Display + Copy>(&mut self, value: V, least: u64, most: u64) {
        self.is_cut |= write!(self.line, "{value}, not {least} to {most}").is_err();
    }

    /// Writes the line to standard error, unless there is nothing to tell.
    pub fn say<R: Eprint>(&self, rt: &R) {
        if !self.is_cut && !self.line.is_empty() {
            let _ = eprintln!(rt; "{}", self.line.as_str());
        }
    }
}

// The graph of a log by value: a row of codes for each code, and the first and last codes.
#![tactic(auto)]

ghost use Rattle.graph_rows.specs.Edges.{Bare, Noted, Started, Ended};

use code_sets::{Bits, CodeSet};
use rules::{CODE_COUNT, NO_CODE};

#[derive(Clone, Copy, Debug, PartialEq, Eq)]
pub struct Graph {
    pub rows: [Bits; CODE_COUNT],
    pub starts: CodeSet,
    pub ends: CodeSet,
}

impl Graph {
    // No pair, no start, no end.
    pub fn new() -> Self
        ensures { Bare result }
    {
        Graph {
            rows: [0; CODE_COUNT],
            starts: CodeSet::EMPTY,
            ends: CodeSet::EMPTY,
        }
    }

    // One more pair: b directly follows a somewhere.
    pub fn noted(mut self, a: u8, b: u8) -> Self
        ensures { Noted self a b result }
    {
        if a < NO_CODE {
            let i = a as usize;
            let row = CodeSet { bits: self.rows[i] };
            self.rows[i] = row.with(b).bits;
        }
        self
    }

    // One more first code.
    pub fn started(mut self, a: u8) -> Self
        ensures { Started self a result }
    {
        self.starts = self.starts.with(a);
        self
    }

    // One more last code. A function of its own: one for both would be told by a flag which set grows.
    pub fn ended(mut self, a: u8) -> Self
        ensures { Ended self a result }
    {
        self.ends = self.ends.with(a);
        self
    }
}

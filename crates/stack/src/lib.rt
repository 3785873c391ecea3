// A stack over lent cells, for every kind of entry: machine words, pending entries.
#![tactic(auto)]

ghost use Rattle.std.specs.Prelude.{◌≤◌, length};

mod ops;
mod tells;

// The entries are the first `depth` cells, the last of them on top. Cells with a depth beside them, and no Vec: stacks lie in lent memory.
#[derive(Drop)]
pub struct Stack<'a, T> {
    cells: &'a mut [T],
    depth: usize,
    ghost within: { depth ≤ length cells.now },
}

// No cell is free for one more entry.
#[derive(Clone, Copy, Debug, PartialEq, Eq)]
pub struct Full;

// No entry stands at that place.
#[derive(Clone, Copy, Debug, PartialEq, Eq)]
pub struct NoEntry;

// A reader that holds a lent segment together with a position in it, and thin methods over it. No method has a branch, a match or a
// loop: those are in the functions over a plain slice and a position, which take their steps from `segment`.

#![tactic(auto)]

ghost use Rattle.std.specs.Prelude.{◌≡◌};
ghost use Rattle.segment.specs.Step.{start};
ghost use Rattle.reader.specs.Position.{met, after, left};

use rules::{Cause, Here};
use segment::Position;
use std::ops::ControlFlow;

// What the walk meets at a position: a descriptor, the end, or a fault.
#[tactic(auto, using(crate::proofs::Stepping::meeting))]
fn met_at(s: &[u8], position: Position) -> Result<Here, Cause>
    ensures { result ≡ met s.now position }
{
    match segment::step_from(s, position) {
        ControlFlow::Break(Ok(_)) => Ok(Here::End),
        ControlFlow::Break(Err(fault)) => Err(fault.cause),
        ControlFlow::Continue(_) => segment::standing_at(s, position.at),
    }
}

// The position that a walk comes to in `steps` steps. It stays where the walk stops.
fn position_after(s: &[u8], position: Position, steps: usize) -> Position
    ensures { result ≡ after steps s.now position }
{
    let mut reached = position;
    for _ in 0..steps {
        match segment::step_from(s, reached) {
            ControlFlow::Break(_) => return reached,
            ControlFlow::Continue(next) => reached = next,
        }
    }
    reached
}

// How many bytes there are from a position on: none past the end.
fn left_from(s: &[u8], position: Position) -> usize
    ensures { result ≡ left s.now position }
{
    s.len().saturating_sub(position.at)
}

#[derive(Clone, Copy)]
pub struct Reader<'a> {
    pub segment: &'a [u8],
    pub position: Position,
}

impl<'a> Reader<'a> {
    // A reader at the segment's first descriptor.
    pub fn first_of(segment: &'a [u8]) -> Reader<'a>
        ensures { (result.segment ≡ segment.entry) × (result.position ≡ start) }
    {
        Reader {
            segment,
            position: segment::first_position(),
        }
    }

    // What stands where the reader is.
    pub fn step(self) -> Result<Here, Cause>
        ensures { result ≡ met self.entry.segment.now self.entry.position }
    {
        met_at(self.segment, self.position)
    }

    // The reader moved past as many descriptors as `steps`. It stays before the end and before a fault.
    pub fn moved(self, steps: usize) -> Reader<'a>
        ensures { (result.segment ≡ self.entry.segment) × (result.position ≡ after steps self.entry.segment.now self.entry.position) }
    {
        Reader {
            position: position_after(self.segment, self.position, steps),
            ..self
        }
    }

    // How many bytes of the segment the reader has before it.
    pub fn left(self) -> usize
        ensures { result ≡ left self.entry.segment.now self.entry.position }
    {
        left_from(self.segment, self.position)
    }
}

// What stands behind the segment's first `n` descriptors: its next descriptor, the end or the first fault.
pub fn nth_of(segment: &[u8], n: usize) -> Result<Here, Cause>
    ensures { result ≡ met segment.now (after n segment.now start) }
{
    Reader::first_of(segment).moved(n).step()
}

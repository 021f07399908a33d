// The engine: decide, then carry out. The decision writes nothing and the action can't fail, so a command is carried out
// whole, or refused with nothing altered.

#![tactic(auto)]

ghost use Rattle.engine.specs.Promise.{Executes};

use decision::Action;
use rules::{Answer, Outcome, Record};

// One command: how it ended, its count and the next record, with the slice and Data-In as it leaves them.
pub fn execute(cdb: &[u8], out: &[u8], on: Record, slice: &mut [u8], input: &mut [u8]) -> Answer
    ensures { Executes cdb.now out.now on slice.old input.old result slice.new input.new }
{
    match decision::decide(cdb, out, on, slice.len(), input.len()) {
        Err(refusal) => Answer {
            outcome: Outcome::Refused(refusal),
            count: 0,
            next: on,
        },
        Ok(Action::Read(said)) => actions::read(&out[0..said.segment], said, on, slice, input),
        Ok(Action::Write(said, raised)) => {
            actions::write(&out[0..said.segment], said, on, raised, out, slice)
        }
        Ok(Action::Clear(said, raised)) => actions::clear(said, on, raised, slice),
        Ok(Action::Punch(said)) => actions::punch(said, on, slice),
    }
}

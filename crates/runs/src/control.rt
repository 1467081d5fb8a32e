// The control state by value: begin, step, finish, each handing the next state back.
ghost use Rattle.std.specs.Prelude.{◌≡◌, ◌&&◌, ltb, length};
ghost use Rattle.runs.specs.Controls.{seen_at, beginning, step_control, finishing};
ghost use Rattle.runs.specs.Answers.{paused};

use crate::advances::counted;
use crate::answers::{Answer, is_paused};
use crate::calls::Outcome;
use crate::checks::{lengths_right, possible};
use crate::performs::perform_one;
use crate::records::Record;
use fields::units::ByteCount;

// A run under way. `answer` is `Paused` as long as no other is known.
#[derive(Clone, Copy)]
pub struct Control {
    pub rec: Record,
    pub left: u32,
    pub answer: Answer,
}

impl Control {
    // The start of a run, or its end where refusal 2 or 3 applies.
    #[tactic(auto, unfolding(crate::specs::Controls::beginning, crate::specs::Calls::lengths_right))]
    pub fn begin(memory: &[u8], registers: &[u64], rec: Record, budget: u32) -> Control
        ensures { result ≡ beginning (length memory.now) registers.now rec budget }
    {
        Control {
            rec,
            left: budget, // to begin takes no step
            answer: if !lengths_right(memory.len(), registers.len()) {
                Answer::Lengths
            } else if possible(rec, ByteCount(memory.len() as u64), registers) {
                Answer::Paused // neither 2 nor 3 applies
            } else {
                Answer::Impossible
            },
        }
    }

    // Is there a step to do?
    pub(crate) fn may_go(self) -> bool
        ensures { result ≡ (paused self.answer && ltb 0 self.left) }
    {
        is_paused(self.answer) && 0 < self.left
    }

    // One step of a run. None is taken where an answer is known, the budget is used, or a length is wrong.
    pub fn step(self, memory: &mut [u8], registers: &mut [u64]) -> Control
        ensures { seen_at memory.new registers.new result ≡ step_control (seen_at memory.old registers.old self) }
    {
        if !self.may_go() || !lengths_right(memory.len(), registers.len()) {
            return self;
        }
        let got = perform_one(memory, registers, self.rec);
        counted(self.rec, self.left, got)
    }

    // What the run says, of the budget that it began with.
    #[tactic(auto, unfolding(crate::specs::Controls::finishing))]
    pub fn finish(self, budget: u32) -> Outcome
        ensures { result ≡ finishing self budget }
    {
        Outcome {
            answer: self.answer, // as the last step left it
            steps: budget.saturating_sub(self.left),
            rec: self.rec,
        }
    }
}

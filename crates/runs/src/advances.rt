// As many steps as the budget allows. A word is read and judged once for all the steps that it takes in one call.
#![tactic(auto, unfolding(crate::specs::Calls::lengths_right))]

ghost use Rattle.std.specs.Prelude.{◌≡◌, true, ◌<◌, ◌≤◌, IfOk};
ghost use Rattle.runs.specs.Answers.{paused};
ghost use Rattle.runs.specs.Steps.{lent_at};
ghost use Rattle.runs.specs.Calls.{Sound};
ghost use Rattle.runs.specs.Controls.{seen_at};
ghost use Rattle.runs.specs.Private.Inner.{counted, Advanced, Gone, TakenUp, Picked};

use crate::answers::Answer;
use crate::checks::{goes_on, lengths_right};
use crate::control::Control;
use crate::fetches::held;
use crate::performs::{burst, perform};
use crate::records::Record;
use crate::strides::Did;
use fields::units::ByteCount;

// The control state after steps of one instruction, or with its answer.
pub fn counted(rec: Record, left: u32, got: Result<Did, Answer>) -> Control
    requires { IfOk got (λ did. did.steps ≤ left) }
    ensures { result ≡ counted rec left got }
{
    match got {
        Ok(did) => Control {
            rec: did.rec,
            left: left - did.steps,
            answer: Answer::Paused,
        },
        Err(answer) => Control { rec, left, answer },
    }
}

// Steps of one instruction, as many as it has left or the budget allows.
fn advance(c: Control, memory: &mut [u8], registers: &mut [u64]) -> Control
    requires { (0 < c.left) × (paused c.answer ≡ true) × Sound (lent_at memory.old registers.old c.rec) }
    ensures { Advanced (seen_at memory.old registers.old c) (seen_at memory.new registers.new result) }
{
    let got = perform(memory, registers, c.rec, c.left);
    counted(c.rec, c.left, got)
}

// As many steps as are left of the budget. The loop counts no index: a turn takes as many steps as an instruction has, and an answer or the budget ends it.
pub fn go(c: Control, memory: &mut [u8], registers: &mut [u64]) -> Control
    requires { paused c.answer ≡ true → Sound (lent_at memory.old registers.old c.rec) }
    ensures { Gone (seen_at memory.old registers.old c) (seen_at memory.new registers.new result) }
{
    let mut d = c;
    while d.may_go() {
        d = advance(d, memory, registers);
    }
    d
}

// What is half done, begun and gone on with: what it holds is gathered once, to be judged and to be worked.
fn pick_up(memory: &mut [u8], registers: &[u64], rec: Record, budget: u32) -> Result<Did, Answer>
    requires { rec.mark ≡ 1 }
    ensures { Picked budget (lent_at memory.old registers.now rec) (seen_at memory.new registers.now) result }
{
    if !lengths_right(memory.len(), registers.len()) {
        return Err(Answer::Lengths);
    }
    let it = held(registers, rec);
    if !goes_on(rec, it, ByteCount(memory.len() as u64)) {
        return Err(Answer::Impossible);
    }
    if budget == 0 {
        return Err(Answer::Paused);
    }
    Ok(burst(memory, it, rec.flags, rec.items, budget))
}

// Begin, and go on at once with what is half done.
pub fn take_up(memory: &mut [u8], registers: &[u64], rec: Record, budget: u32) -> Control
    ensures { TakenUp budget (lent_at memory.old registers.now rec) (seen_at memory.new registers.now result) }
{
    if rec.mark == 1 {
        let got = pick_up(memory, registers, rec, budget);
        return counted(rec, budget, got);
    }
    Control::begin(memory, registers, rec, budget)
}

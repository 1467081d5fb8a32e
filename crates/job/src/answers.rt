// Each answer of a call, in words (docs/MACHINE.md, section 12).
use runs::answers;
use runs::answers::Answer;
use std::fmt;

// The number of an answer and its words: a type of its own, for `Answer` is of another crate.
#[derive(Clone, Copy)]
pub struct InWords(pub Answer);

impl fmt::Display for InWords {
    fn fmt<W: fmt::Write>(&self, f: &mut fmt::Formatter<W>) -> fmt::Result {
        let words = match self.0 {
            Answer::Paused => "paused: all the budget is used",
            Answer::Exit => "exit: 09 is at P",
            Answer::Lengths =>
                "refused: the memory's length is wrong: 8 to 65,536 bytes, a multiple of 8",
            Answer::Impossible =>
                "refused: the record is impossible: no run with these registers can have left it",
            Answer::NotThere => "refused: the word at P is not, or not wholly, in memory",
            Answer::NotListed => "refused: the function code is not in the table",
            Answer::NotZero => "refused: a bit of the word that is to be zero is one",
            Answer::Designator =>
                "refused: designator 00 (half word 00 or 01) where that has no meaning",
            Answer::Misaligned => {
                "refused: misaligned: words and their fields lie on 64 bits, half words and targets on 32, bytes on 8"
            }
            Answer::Short => "refused: a source is shorter than the result C",
            Answer::Outside => "refused: an address or field is not wholly in memory",
            Answer::Shared => "refused: the result shares a bit with a source or control field",
        };
        write!(f, "{} {words}", answers::number(self.0))
    }
}

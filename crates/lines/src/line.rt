// The lines, each written into a lent buffer from an index on. What a line is, byte for byte, is
// said in specs/Line.antt.
ghost use Rattle.std.specs.Prelude.{◌≡◌, ◌+◌, ◌*◌, ◌≤◌, min, ◌++◌, length};
ghost use Rattle.lines.specs.Text.{HasRoom, Adds};
ghost use Rattle.lines.specs.Line.{plan_line, outcome, release_line, row_text, card_byte, slice_line, bad_line, end_line, line_text};
ghost use Rattle.lines.specs.Line.{line_room, end_room, Prints};

use crate::text::Text;
use answer::Answer;

// What a line says besides the row's bytes. A row stands beside its line, in an array of its own.
#[derive(Clone, Copy)]
pub enum Line {
    // The plan's answer.
    Plan(Answer),
    // Kind, e and the answer.
    Release(u8, u16, Answer),
    // The answer, the clock before the slice, and the cards.
    Slice(Answer, u32, u8),
    // A bad command at this clock, with the last line behind it.
    Bad(u32),
    // The last line, at this clock.
    End(u32),
    // No line.
    // kept: no Option<Line>, since the promise of `Line::put` (`Prints`) has this case.
    Nothing,
}

impl Text<'_> {
    // `plan ok` or `plan refused N at P`.
    fn plan(&mut self, answer: Answer)
        requires { HasRoom self.old line_room }
        ensures { Adds self.old (plan_line answer) self.new × (self.new.at ≤ self.old.at + line_room) }
    {
        let Answer::No(_) = answer else {
            return self.word(b"plan ok\n");
        };
        self.both(b"plan refused ", u32::from(answer.number()));
        self.both(b" at ", u32::from(answer.place()));
        self.word(b"\n");
    }

    // ` ok` or ` refused N`, with the line's end.
    fn outcome(&mut self, answer: Answer)
        requires { HasRoom self.old end_room }
        ensures { Adds self.old (outcome answer) self.new × (self.new.at ≤ self.old.at + end_room) }
    {
        let Answer::No(_) = answer else {
            return self.word(b" ok\n");
        };
        self.both(b" refused ", u32::from(answer.number()));
        self.word(b"\n");
    }

    // `r KIND E ok` or `r KIND E refused N`.
    fn release(&mut self, kind: u8, e: u16, answer: Answer)
        requires { HasRoom self.old line_room }
        ensures { Adds self.old (release_line kind e answer) self.new × (self.new.at ≤ self.old.at + line_room) }
    {
        self.both(b"r ", u32::from(kind));
        self.both(b" ", u32::from(e));
        self.outcome(answer);
    }

    // The bytes of a row, a space before each.
    fn row(&mut self, row: &[u8])
        requires { (length row.now ≤ 8) × HasRoom self.old (11 * length row.now) }
        ensures { Adds self.old (row_text (length row.now) (card_byte row.now)) self.new
            × (self.new.at ≤ self.old.at + 11 * length row.now) }
    {
        for byte in row {
            self.both(b" ", u32::from(*byte));
        }
    }

    // `t CLOCK:` and the row's bytes, or `t refused N`.
    fn slice(&mut self, answer: Answer, clock: u32, row: &[u8; 8], cards: u8)
        requires { HasRoom self.old line_room }
        ensures { Adds self.old (slice_line answer clock (min cards 8) (card_byte row.now)) self.new
            × (self.new.at ≤ self.old.at + line_room) }
    {
        let Answer::No(_) = answer else {
            self.both(b"t ", clock);
            self.word(b":");
            self.row(&row[..usize::from(cards).min(row.len())]);
            return self.word(b"\n");
        };
        self.word(b"t");
        self.outcome(answer);
    }

    // `end CLOCK`.
    fn end(&mut self, clock: u32)
        requires { HasRoom self.old end_room }
        ensures { Adds self.old (end_line clock) self.new × (self.new.at ≤ self.old.at + end_room) }
    {
        self.both(b"end ", clock);
        self.word(b"\n");
    }

    // `bad command`, and then the last line.
    fn bad(&mut self, clock: u32)
        requires { HasRoom self.old line_room }
        ensures { Adds self.old (bad_line ++ end_line clock) self.new × (self.new.at ≤ self.old.at + line_room) }
    {
        self.word(b"bad command\n");
        self.end(clock);
    }

    // Whichever line it is.
    #[inline(always)]
    fn line(&mut self, line: Line, row: &[u8; 8])
        requires { HasRoom self.old line_room }
        ensures { Adds self.old (line_text line row.now) self.new × (self.new.at ≤ self.old.at + line_room) }
    {
        match line {
            Line::Plan(answer) => self.plan(answer),
            Line::Release(kind, e, answer) => self.release(kind, e, answer),
            Line::Slice(answer, clock, cards) => self.slice(answer, clock, row, cards),
            Line::Bad(clock) => self.bad(clock),
            Line::End(clock) => self.end(clock),
            Line::Nothing => {}
        }
    }
}

impl Line {
    // What a line may take of a buffer: every line fits in it.
    pub const ROOM: usize = 128;

    // The line's bytes, from index at on; its row's bytes stand in row. Answers the index after
    // it. Where less than a line's room stands behind at, nothing is written.
    pub fn put(self, row: &[u8; 8], out: &mut [u8], at: usize) -> usize
        ensures { Prints self row.now out.old at result out.new }
    {
        if out.len() < Line::ROOM {
            return at;
        }
        if out.len() - Line::ROOM < at {
            return at;
        }
        let mut text = Text { out, at };
        text.line(self, row);
        text.at
    }
}

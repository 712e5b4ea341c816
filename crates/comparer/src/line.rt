// The lines that the programs print: of a reply, of an explanation, and of the totals over many pairs.
ghost use Rattle.std.specs.Prelude.{◌≡◌, ◌∷◌, [], ◌++◌, take, length};
ghost use Rattle.comparer.specs.Answers.{side_says, reply_says};
ghost use Rattle.comparer.specs.Batch.{totals_line};
ghost use Rattle.comparer.specs.ExplainAnswers.{explanation_says};
ghost use Rattle.comparer.specs.ExplainLine.{signed, spaced_first, explanation_line};
ghost use Rattle.comparer.specs.Line.{decimal, side_text, spaced, line_of};
ghost use Rattle.comparer.specs.Writing.{Holds, Adds, AddsNumber, Begins};

use crate::batch::Totals;
use crate::explanation::{Answer, Explanation};
use crate::reply::{Reply, Side};

// The longest line, `written` with four numbers of 20 digits and eight of 6 characters, has 148.
pub const LINE_BYTES: usize = 160;

// Bytes up to `len`, zeros behind: an array of fixed size and a length, since there is no heap.
#[derive(Clone, Copy, Debug, PartialEq, Eq)]
pub struct Line {
    pub bytes: [u8; LINE_BYTES],
    pub len: usize,
}

impl Line {
    fn new() -> Line
        ensures { Holds result [] }
    {
        Line {
            bytes: [0u8; LINE_BYTES],
            len: 0,
        }
    }

    // What is written so far. A line that says it is longer than its bytes has all of these.
    pub fn as_bytes(&self) -> &[u8]
        ensures { result.now ≡ take self.now.len self.now.bytes }
    {
        &self.bytes[..self.len.min(LINE_BYTES)]
    }

    // A full line takes no more.
    fn put(self, b: u8) -> Line
        ensures { Adds self (b ∷ []) result }
    {
        let mut out = self;
        if self.len < LINE_BYTES {
            out.bytes[self.len] = b;
            out.len = self.len + 1;
        }
        out
    }

    fn text(self, s: &[u8]) -> Line
        ensures { Adds self s.now result }
    {
        let mut out = self;
        for &b in s {
            out = out.put(b);
        }
        out
    }

    // The digits of all but the last, then the last.
    fn number(self, n: usize) -> Line
        ensures { AddsNumber self n result }
    {
        if n < 10 {
            return self.put(48 + n as u8);
        }
        self.number(n / 10).put(48 + (n % 10) as u8)
    }

    fn spaced_number(self, n: usize) -> Line
        ensures { Adds self (spaced (decimal n)) result }
    {
        self.put(b' ').number(n)
    }

    fn spaced_side(self, side: Side) -> Line
        ensures { Adds self (spaced (side_text (side_says side))) result }
    {
        match side {
            Side::Left => self.text(b" left"),
            Side::Right => self.text(b" right"),
            Side::Both => self.text(b" both"),
            Side::Input => self.text(b" input"),
        }
    }

    fn spaced_signed(self, z: i16) -> Line
        ensures { Adds self (spaced (signed z)) result }
    {
        let blank = self.put(b' ');
        let size = usize::from(z.unsigned_abs());
        if z < 0 {
            return blank.put(b'-').number(size);
        }
        blank.number(size)
    }

    fn spaced_values(self, values: &[i16]) -> Line
        ensures { Adds self (spaced_first (length values.now) values.now) result }
    {
        let mut out = self;
        for &z in values {
            out = out.spaced_signed(z);
        }
        out
    }

    // A word and a number.
    fn labelled(self, word: &[u8], n: usize) -> Line
        ensures { Adds self (word.now ++ spaced (decimal n)) result }
    {
        self.text(word).spaced_number(n)
    }
}

// Without its end.
fn words(reply: Reply) -> Line
    ensures { Begins result (line_of (reply_says reply)) }
{
    let empty = Line::new();
    match reply {
        Reply::Equal(n) => empty.text(b"equal").spaced_number(n),
        Reply::Differs(a, e) => empty.text(b"differs").spaced_number(a).spaced_number(e),
        Reply::Refused(side, k, p) => {
            let refused = empty.text(b"refused").spaced_side(side);
            refused.spaced_number(usize::from(k)).spaced_number(p)
        }
    }
}

pub fn line_of(reply: Reply) -> Line
    ensures { Holds result (line_of (reply_says reply)) }
{
    words(reply).put(b'\n')
}

// Without its end.
fn explanation_words(explanation: Explanation) -> Line
    ensures { Begins result (explanation_line (explanation_says explanation)) }
{
    match explanation.answer {
        Answer::Written(a, e) => {
            let element = Line::new()
                .text(b"written")
                .spaced_number(a)
                .spaced_number(e);
            let start = element.spaced_number(explanation.from);
            let stretch = start.spaced_number(explanation.to);
            stretch.spaced_values(explanation.values())
        }
        Answer::Starting(a, e) => Line::new()
            .text(b"starting")
            .spaced_number(a)
            .spaced_number(e),
        Answer::Refused(side, k, p) => words(Reply::Refused(side, k, p)),
    }
}

pub fn explanation_line(explanation: Explanation) -> Line
    ensures { Holds result (explanation_line (explanation_says explanation)) }
{
    explanation_words(explanation).put(b'\n')
}

// Without its end.
fn totals_words(totals: Totals) -> Line
    ensures { Begins result (totals_line totals) }
{
    Line::new()
        .labelled(b"pairs", totals.pairs)
        .labelled(b" equal", totals.equal)
        .labelled(b" differs", totals.differs)
        .labelled(b" refused", totals.refused)
        .labelled(b" elements", totals.elements)
}

pub fn totals_line(totals: Totals) -> Line
    ensures { Holds result (totals_line totals) }
{
    totals_words(totals).put(b'\n')
}

// Many pairs, one after another: what a pair's lengths say, whether its bytes are all there, and the totals. `compare_pair` answers
// for its bytes, `totals_line` has the text of the last line.
ghost use Rattle.std.specs.Prelude.{◌≡◌, ◌+◌, ◌<◌, ◌≤◌, IfOk, IfErr};
ghost use Rattle.comparer.specs.Answers.{side_says, reply_says};
ghost use Rattle.comparer.specs.Batch.{lengths_of, broken, reply_of};
ghost use Rattle.comparer.specs.BatchSteps.{lengths_says, is_whole, no_totals, counted};

use crate::reply::{Reply, Side};
use model::sizes::MOST_BYTES;
use reader::fields::pair;

// So many pairs are taken of one input.
pub const MOST_PAIRS: usize = 65535;

// The bytes that hold both lengths of a pair.
pub const LENGTHS_BYTES: usize = 4;

// Why a pair is the last: side and question's number of its refusal. `lengths_reply` makes a reply of it.
#[derive(Clone, Copy, Debug, PartialEq, Eq)]
pub struct LengthsError {
    pub side: Side,
    pub number: u8,
}

// How many pairs there are, how many are equal, differ and are refused, and the sum of the counts of the equal ones.
#[derive(Clone, Copy, Debug, PartialEq, Eq)]
pub struct Totals {
    pub pairs: usize,
    pub equal: usize,
    pub differs: usize,
    pub refused: usize,
    pub elements: usize,
}

pub(crate) fn program_length(side: Side, stated: u16) -> Result<usize, LengthsError>
    ensures ok { IfOk result (λ n. (n ≡ stated) × (stated ≤ 16384)) }
    ensures err { IfErr result (λ e. (e ≡ record { side = side; number = 2 }) × (16384 < stated)) }
{
    let length = usize::from(stated);
    if length > MOST_BYTES {
        return Err(LengthsError { side, number: 2 });
    }
    Ok(length)
}

// Both lengths, of the bytes from the start of a pair on; none where no byte is left.
pub fn pair_lengths(bytes: &[u8]) -> Result<Option<(usize, usize)>, LengthsError>
    ensures { lengths_says result ≡ lengths_of bytes.now }
{
    if bytes.is_empty() {
        return Ok(None);
    }
    if bytes.len() < LENGTHS_BYTES {
        let side = Side::Input;
        return Err(LengthsError { side, number: 1 });
    }
    let left = program_length(Side::Left, pair(bytes[0], bytes[1]))?;
    let right = program_length(Side::Right, pair(bytes[2], bytes[3]))?;
    Ok(Some((left, right)))
}

// The reply to a pair that its lengths refuse.
pub fn lengths_reply(side: Side, number: u8) -> Reply
    ensures { reply_says result ≡ reply_of (broken (side_says side) number) }
{
    Reply::Refused(side, number, 0)
}

// Whether so many bytes behind the lengths hold the pair. If not, it is the last.
pub fn pair_whole(count: usize, left: usize, right: usize) -> bool
    ensures { result ≡ is_whole count left right }
{
    left <= count && right <= count - left
}

pub fn no_totals() -> Totals
    ensures { result ≡ no_totals }
{
    Totals {
        pairs: 0,
        equal: 0,
        differs: 0,
        refused: 0,
        elements: 0,
    }
}

// Each total stays at 2^64 - 1 where one more would pass it, which takes more pairs than a run has.
pub fn count_reply(totals: Totals, reply: Reply) -> Totals
    ensures { result ≡ counted totals (reply_says reply) }
{
    let mut out = totals;
    out.pairs = totals.pairs.saturating_add(1);
    match reply {
        Reply::Equal(n) => {
            out.equal = totals.equal.saturating_add(1);
            out.elements = totals.elements.saturating_add(n);
        }
        Reply::Differs(_, _) => {
            out.differs = totals.differs.saturating_add(1);
        }
        Reply::Refused(_, _, _) => {
            out.refused = totals.refused.saturating_add(1);
        }
    }
    out
}

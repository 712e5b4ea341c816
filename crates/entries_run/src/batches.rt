// The comparer's entries over one of many pairs, and over the totals.
use crate::explanations::say_sums;
use crate::numbers::{Args, number_at, refused, say, say_bool};
use crate::pairs::{say_line, say_reply};
use comparer::reply::{Reply, Side};
use comparer::{LengthsError, Totals};

pub(crate) fn called(rt: &impl Print, entry: usize, x: Args, s: &[u8]) {
    match entry {
        39 => {
            say_lengths(rt, comparer::pair_lengths(s));
        }
        41 => {
            say_totals(
                rt,
                comparer::count_reply(totals_of(x), reply_of(x.f, number_at(s, 0))),
            );
        }
        _ => {
            say_line(rt, comparer::totals_line(totals_of(x)));
        }
    }
}

fn say_lengths(rt: &impl Print, lengths: Result<Option<(usize, usize)>, LengthsError>) {
    match lengths {
        Ok(None) => {
            say(rt, 0);
        }
        Err(e) => {
            say(rt, 1);
            say_reply(rt, comparer::lengths_reply(e.side, e.number));
        }
        Ok(Some((l, r))) => {
            say(rt, 2);
            say(rt, l);
            say(rt, r);
        }
    }
}

fn totals_of(x: Args) -> Totals {
    Totals {
        pairs: x.a,
        equal: x.b,
        differs: x.c,
        refused: x.d,
        elements: x.e,
    }
}

fn reply_of(kind: usize, n: usize) -> Reply {
    match kind % 3 {
        0 => Reply::Equal(n),
        1 => Reply::Differs(n, n),
        _ => Reply::Refused(Side::Input, 1, n),
    }
}

fn say_totals(rt: &impl Print, totals: Totals) {
    say(rt, totals.pairs);
    say(rt, totals.equal);
    say(rt, totals.differs);
    say(rt, totals.refused);
    say(rt, totals.elements);
}

// Both lengths stand before the bytes.
pub(crate) fn entered(
    rt: &impl Print,
    s: &[u8],
    left_list: &mut [u32],
    right_list: &mut [u32],
    cells: &mut [u32],
    terms: &mut [u32],
) {
    if s.len() < 16 {
        refused(rt);
        return;
    }
    let left = number_at(s, 0);
    let right = number_at(s, 8);
    say_reply(
        rt,
        comparer::compare_pair(&s[16..], left, right, left_list, right_list, cells, terms),
    );
    say_bool(rt, !comparer::pair_whole(s.len() - 16, left, right));
    say_sums(rt, left_list, right_list, cells, terms);
}

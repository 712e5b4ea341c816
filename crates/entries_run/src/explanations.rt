// The comparer's entries that explain a difference, the unroller's origin of an element, and the line of an explanation.
use crate::memory::{added, fill, say_sum};
use crate::numbers::{Args, low_byte, refused, say, say_signed, say_word, signed_at};
use crate::pairs::{say_line, say_side, side_of};
use comparer::reply::Side;
use comparer::{Answer, Chosen, Explanation};
use reader::fields::pair;
use unroller::{UnrollError, Writer};

pub(crate) fn called(rt: &impl Print, entry: usize, x: Args, s: &[u8]) {
    match entry {
        35 => {
            stretch(rt, x, s);
        }
        36 => {
            origin(rt, x, s);
        }
        37 => {
            line(rt, x, s);
        }
        _ => {
            refused(rt);
        }
    }
}

fn chosen(n: usize) -> Chosen {
    if n == 0 { Chosen::Left } else { Chosen::Right }
}

// A mask and a side stand before the two programs, of which the left has n bytes, and before framed input; or a side alone (38).
pub(crate) fn entered(
    rt: &impl Print,
    entry: usize,
    n: usize,
    s: &[u8],
    left_list: &mut [u32],
    right_list: &mut [u32],
    cells: &mut [u32],
    terms: &mut [u32],
) {
    if entry == 38 {
        of_input(rt, s, left_list, right_list, cells, terms);
    } else if entry == 44 {
        of_masked_input(rt, s, left_list, right_list, cells, terms);
    } else {
        of_programs(rt, n, s, left_list, right_list, cells, terms);
    }
}

fn of_input(
    rt: &impl Print,
    s: &[u8],
    left_list: &mut [u32],
    right_list: &mut [u32],
    cells: &mut [u32],
    terms: &mut [u32],
) {
    if s.len() < 1 {
        refused(rt);
        return;
    }
    let side = chosen(usize::from(s[0]));
    say_explanation(
        rt,
        comparer::explain_input(&s[1..], side, left_list, right_list, cells, terms),
    );
    say_sums(rt, left_list, right_list, cells, terms);
}

fn of_masked_input(
    rt: &impl Print,
    s: &[u8],
    left_list: &mut [u32],
    right_list: &mut [u32],
    cells: &mut [u32],
    terms: &mut [u32],
) {
    if s.len() < 3 {
        refused(rt);
        return;
    }
    let mask = pair(s[0], s[1]);
    let side = chosen(usize::from(s[2]));
    say_explanation(
        rt,
        comparer::explain_input_masked(&s[3..], mask, side, left_list, right_list, cells, terms),
    );
    say_sums(rt, left_list, right_list, cells, terms);
}

fn of_programs(
    rt: &impl Print,
    n: usize,
    s: &[u8],
    left_list: &mut [u32],
    right_list: &mut [u32],
    cells: &mut [u32],
    terms: &mut [u32],
) {
    if s.len() < 3 {
        refused(rt);
        return;
    }
    if n > s.len() - 3 {
        refused(rt);
        return;
    }
    let end = 3 + n;
    let mask = pair(s[0], s[1]);
    let side = chosen(usize::from(s[2]));
    say_explanation(
        rt,
        comparer::explain(
            &s[3..end],
            &s[end..],
            mask,
            side,
            left_list,
            right_list,
            cells,
            terms,
        ),
    );
    say_sums(rt, left_list, right_list, cells, terms);
}

pub(crate) fn say_sums(
    rt: &impl Print,
    left_list: &[u32],
    right_list: &[u32],
    cells: &[u32],
    terms: &[u32],
) {
    say_sum(rt, left_list);
    say_sum(rt, right_list);
    say_sum(rt, cells);
    say_sum(rt, terms);
}

// The kind, side, question and place.
fn say_kind(rt: &impl Print, kind: usize) {
    say(rt, kind);
    say(rt, 0);
    say(rt, 0);
    say(rt, 0);
}

fn say_refusal(rt: &impl Print, side: Side, question: u8, place: usize) {
    say(rt, 2);
    say_side(rt, side);
    say(rt, usize::from(question));
    say(rt, place);
}

fn say_answer(rt: &impl Print, answer: Answer) {
    match answer {
        Answer::Written(a, e) => {
            say_kind(rt, 0);
            say(rt, a);
            say(rt, e);
        }
        Answer::Starting(a, e) => {
            say_kind(rt, 1);
            say(rt, a);
            say(rt, e);
        }
        Answer::Refused(side, k, p) => {
            say_refusal(rt, side, k, p);
            say(rt, 0);
            say(rt, 0);
        }
    }
}

fn say_explanation(rt: &impl Print, explanation: Explanation) {
    let answer = explanation.answer;
    let indices = explanation.indices;
    say_answer(rt, answer);
    say_stretch(
        rt,
        explanation.from,
        explanation.to,
        explanation.count,
        indices,
    );
}

fn say_stretch(rt: &impl Print, from: usize, to: usize, count: usize, indices: [i16; 8]) {
    say(rt, from);
    say(rt, to);
    say(rt, count);
    for index in indices {
        say_signed(rt, index);
    }
}

// The left has the first bytes, the right the others.
fn stretch(rt: &impl Print, x: Args, s: &[u8]) {
    let n = x.a;
    if n > s.len() {
        refused(rt);
        return;
    }
    let part = comparer::stretch(&s[0..n], &s[n..], chosen(x.b), x.c, x.d);
    say(rt, part.len());
    say_byte_sum(rt, part);
}

pub(crate) fn say_byte_sum(rt: &impl Print, s: &[u8]) {
    let sum = s.iter().fold(0, |sum, byte| added(sum, u32::from(*byte)));
    say_word(rt, sum);
}

// The words that fill the list again and again come before the program.
fn origin(rt: &impl Print, x: Args, s: &[u8]) {
    let k = x.f;
    if k > s.len() / 4 {
        refused(rt);
        return;
    }
    let mut list = [0u32; 33000];
    fill(&mut list, &s[0..4 * k], k);
    origin_in(rt, x, &s[4 * k..], &mut list);
}

fn origin_in(rt: &impl Print, x: Args, program: &[u8], list: &mut [u32]) {
    let n = x.c;
    if n > list.len() {
        refused(rt);
        return;
    }
    say_origin(rt, unroller::origin_of(program, x.a, x.b, &mut list[0..n]));
    say_sum(rt, &list[0..n]);
}

fn say_origin(rt: &impl Print, origin: Result<Option<Writer>, UnrollError>) {
    match origin {
        Ok(Some(writer)) => {
            say_kind(rt, 0);
            let indices = writer.indices;
            say_stretch(rt, writer.from, writer.to, writer.count, indices);
            return;
        }
        Ok(None) => say_kind(rt, 1),
        Err(UnrollError::Refused(refusal)) => {
            say_refusal(rt, Side::Left, u8::from(refusal.question), refusal.place);
        }
        Err(UnrollError::Short) => say_refusal(rt, Side::Both, 25, 0),
    }
    say_stretch(rt, 0, 0, 0, [0; 8]);
}

fn line(rt: &impl Print, x: Args, s: &[u8]) {
    let mut indices = [0i16; 8];
    for k in 0..8usize {
        indices[k] = signed_at(s, 2 * k);
    }
    say_line(
        rt,
        comparer::explanation_line(Explanation {
            answer: answer_of(x),
            from: x.d,
            to: x.e,
            count: x.f,
            indices,
        }),
    );
}

fn answer_of(x: Args) -> Answer {
    match x.a % 3 {
        0 => Answer::Written(x.b, x.c),
        1 => Answer::Starting(x.b, x.c),
        _ => Answer::Refused(side_of(x.b % 4), low_byte(x.c), x.d),
    }
}

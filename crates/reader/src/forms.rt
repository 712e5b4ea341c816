// Affine forms: a constant, and a coefficient for each enclosing loop.
ghost use Rattle.std.specs.Prelude.{◌≡◌, ◌+◌, ◌*◌, ◌/◌, ◌%◌, ◌≤◌, ◌<◌, length, replicate, pos, leb, if◌then◌else◌};
ghost use Rattle.model.specs.declared.question.Question.TheVariants as question;
ghost use Rattle.reader.specs.Grammar.{form};
ghost use Rattle.reader.specs.Answers.{through, ended, place_says, read_says};
ghost use Rattle.std.specs.Int.{w8};
ghost use Rattle.std.proofs.Common.{to_z};
ghost use Rattle.reader.specs.Entries.{padded, signeds, bytes_of, Before, form_step, form_in, filled};

use crate::fields::{Read, has, i8_of, i16_of, left_at, pair};
use model::question::{Question, Refusal};

// Coefficients beyond the loops are 0. They stand first: behind the constant they would be moved with the padding that follows them,
// in parts and by way of memory.
#[derive(Clone, Copy, Debug, PartialEq, Eq)]
pub struct Form {
    pub coefficients: [i8; 8],
    pub constant: i16,
}

// Where a form is cut. Each coefficient is a field of one byte, so the first that is missing stands at the end of the bytes.
fn cut_form(s: &[u8], at: usize) -> Refusal
    ensures { result ≡ record { question = question.Cut; place = if leb (at + 2) (length s.now) then length s.now else at } }
{
    if has(s, at, 2) {
        Question::Cut.at(s.len())
    } else {
        Question::Cut.at(at)
    }
}

// The end of a form.
#[tactic(auto, using(crate::proofs::Affine::form_all, crate::proofs::Affine::form_cut, crate::proofs::Affine::form_short), unfolding(crate::specs::Answers::through))]
pub(crate) fn form_end(s: &[u8], at: usize, loops: usize) -> Result<usize, Refusal>
    ensures { place_says result ≡ ended (form loops s.now at) }
{
    if has(s, at, 2) && has(s, at + 2, loops) {
        Ok(at + 2 + loops)
    } else {
        Err(cut_form(s, at))
    }
}

// The eight bytes of a number, the lowest first.
fn bytes_of(w: usize) -> [i8; 8]
    ensures { result ≡ bytes_of 8 w }
{
    let bytes = w.to_le_bytes();
    [
        i8_of(bytes[0]),
        i8_of(bytes[1]),
        i8_of(bytes[2]),
        i8_of(bytes[3]),
        i8_of(bytes[4]),
        i8_of(bytes[5]),
        i8_of(bytes[6]),
        i8_of(bytes[7]),
    ]
}

// The eight bytes from `at` on as a number, the lowest first: one load.
fn eight_at(s: &[u8], at: usize) -> usize
    requires { at + 8 ≤ length s.now }
    ensures { Before s.now (at + 8) result }
{
    usize::from_le_bytes([
        s[at],
        s[at + 1],
        s[at + 2],
        s[at + 3],
        s[at + 4],
        s[at + 5],
        s[at + 6],
        s[at + 7],
    ])
}

// The bytes before `end`, where there are fewer than eight, with zeros before them. No form of a program stands there.
fn fewer_before(s: &[u8], end: usize) -> usize
    requires { (end < 8) × (end ≤ length s.now) }
    ensures { Before s.now end result }
{
    let mut bytes = [0u8; 8];
    bytes[8 - end..].copy_from_slice(&s[..end]);
    usize::from_le_bytes(bytes)
}

// The eight bytes before `end` as a number, the lowest first.
#[tactic(auto, using(crate::proofs::Words::same_before))]
fn eight_before(s: &[u8], end: usize) -> usize
    requires { end ≤ length s.now }
    ensures { Before s.now end result }
{
    if 8 <= end {
        eight_at(s, end - 8)
    } else {
        fewer_before(s, end)
    }
}

// The coefficients are the last of the eight bytes before the form's end; the shift drops the others and leaves zeros behind them.
// So the array is made by a load and a shift, and goes by value in one register; and nothing is read beyond the form.
#[tactic(auto, using(crate::proofs::Words::coefficients_are))]
fn coefficients_of(s: &[u8], at: usize, loops: usize) -> [i8; 8]
    requires { (loops ≤ 8) × (at + loops ≤ length s.now) }
    ensures { result ≡ padded 8 (pos 0) (signeds loops s.now at) }
{
    let half = 32 - 4 * loops;
    bytes_of((eight_before(s, at + loops) >> half) >> half)
}

// A form inside so many loops, 8 at most.
#[tactic(auto, using(crate::proofs::Affine::form_all, crate::proofs::Affine::form_cut, crate::proofs::Affine::form_short, crate::proofs::Affine::take_signeds), unfolding(crate::specs::Answers::through, crate::specs::Entries::form_step))]
pub fn form_at(s: &[u8], at: usize, loops: usize) -> Read<Form>
    ensures says { through (form_in loops) (read_says result) ≡ form_step loops s.now at }
    ensures holds { read_says result ≡ through filled (form_step loops s.now at) }
{
    if 8 < loops {
        return Err(Question::Depth.at(at));
    }
    // One test for all of its bytes; which of them is missing is asked behind it.
    if left_at(s, at) < 2 + loops {
        return Err(cut_form(s, at));
    }
    let form = Form {
        constant: i16_of(pair(s[at], s[at + 1])),
        coefficients: coefficients_of(s, at + 2, loops),
    };
    Ok((form, at + 2 + loops))
}

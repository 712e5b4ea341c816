// Single fields: a byte, numbers of two to four bytes, signed numbers, a declared number, a loop's step.
ghost use Rattle.std.specs.Prelude.{◌≡◌, ◌+◌, ◌-◌, ◌*◌, length, leb};
ghost use Rattle.std.specs.Int.{w8, w16};
ghost use Rattle.std.proofs.Common.{to_z};
ghost use Rattle.reader.specs.Field.{field, byte, u16, u32, i16};
ghost use Rattle.reader.specs.Grammar.{index, step};
ghost use Rattle.reader.specs.Answers.{read_says};
ghost use Rattle.reader.specs.Places.{bytes_in};

use model::question::{Question, Refusal};

// What was read and the place past it, or the question that was answered no.
pub type Read<T> = Result<(T, usize), Refusal>;

// How many bytes an unsigned field has.
#[derive(Clone, Copy, Debug, PartialEq, Eq)]
pub enum Width {
    One,
    Two,
    Three,
    Four,
}

// Two's complement of a byte. Not `cast_signed`: the wrong programs i8_127 and i8_complement change its parts.
pub fn i8_of(b: u8) -> i8
    ensures { result ≡ to_z w8 b }
{
    if b < 128 { b as i8 } else { !((255 - b) as i8) }
}

// Two's complement of two bytes. Not `cast_signed`: the wrong programs i16_32767 and i16_complement change its parts.
pub fn i16_of(w: u16) -> i16
    ensures { result ≡ to_z w16 w }
{
    if w < 32768 {
        w as i16
    } else {
        !((65535 - w) as i16)
    }
}

// Whether n bytes stand at `at`; their end may lie beyond any usize.
pub fn has(s: &[u8], at: usize, n: usize) -> bool
    ensures { result ≡ leb (at + n) (length s.now) }
{
    at <= s.len() && n <= s.len() - at
}

// How many bytes are left from `at` on, 0 where it lies behind the last.
pub(crate) fn left_at(s: &[u8], at: usize) -> usize
    ensures { result ≡ length s.now - at }
{
    s.len().saturating_sub(at)
}

// Two bytes as a number, the lower first. Not `from_le_bytes`: the wrong program pair_255 changes the factor.
pub fn pair(a: u8, b: u8) -> u16
    ensures { result ≡ a + 256 * b }
{
    a as u16 + 256 * (b as u16)
}

#[tactic(auto, unfolding(crate::specs::Field::byte, crate::specs::Field::field))]
pub fn byte_at(s: &[u8], at: usize) -> Read<usize>
    ensures { read_says result ≡ byte s.now at }
{
    if at < s.len() {
        Ok((usize::from(s[at]), at + 1))
    } else {
        Err(Question::Cut.at(at))
    }
}

#[tactic(auto, unfolding(crate::specs::Field::u16, crate::specs::Field::field))]
pub(crate) fn u16_at(s: &[u8], at: usize) -> Read<usize>
    ensures { read_says result ≡ u16 s.now at }
{
    if has(s, at, 2) {
        Ok((usize::from(pair(s[at], s[at + 1])), at + 2))
    } else {
        Err(Question::Cut.at(at))
    }
}

// As wide as the mark.
#[tactic(auto, unfolding(crate::specs::Field::field))]
fn u24_at(s: &[u8], at: usize) -> Read<usize>
    ensures { read_says result ≡ field 3 s.now at }
{
    if has(s, at, 3) {
        let x = u32::from_le_bytes([s[at], s[at + 1], s[at + 2], 0]);
        Ok((x as usize, at + 3))
    } else {
        Err(Question::Cut.at(at))
    }
}

// The name of a constant.
#[tactic(auto, unfolding(crate::specs::Field::u32, crate::specs::Field::field))]
pub fn name_at(s: &[u8], at: usize) -> Read<usize>
    ensures { read_says result ≡ u32 s.now at }
{
    if has(s, at, 4) {
        let x = u32::from_le_bytes([s[at], s[at + 1], s[at + 2], s[at + 3]]);
        Ok((x as usize, at + 4))
    } else {
        Err(Question::Cut.at(at))
    }
}

// An unsigned field of any width.
#[tactic(auto, unfolding(crate::specs::Field::byte, crate::specs::Field::u16, crate::specs::Field::u32))]
pub(crate) fn number_at(s: &[u8], at: usize, width: Width) -> Read<usize>
    ensures { read_says result ≡ field (bytes_in width) s.now at }
{
    match width {
        Width::One => byte_at(s, at),
        Width::Two => u16_at(s, at),
        Width::Three => u24_at(s, at),
        Width::Four => name_at(s, at),
    }
}

#[tactic(auto, unfolding(crate::specs::Field::i16, crate::specs::Field::u16, crate::specs::Field::field))]
pub(crate) fn i16_at(s: &[u8], at: usize) -> Read<i16>
    ensures { read_says result ≡ i16 s.now at }
{
    if has(s, at, 2) {
        Ok((i16_of(pair(s[at], s[at + 1])), at + 2))
    } else {
        Err(Question::Cut.at(at))
    }
}

// The number of one of n arrays or operators.
#[tactic(auto, unfolding(crate::specs::Grammar::index))]
pub fn index_at(s: &[u8], at: usize, n: usize) -> Read<usize>
    ensures { read_says result ≡ index n s.now at }
{
    let (x, next) = byte_at(s, at)?;
    if x < n {
        Ok((x, next))
    } else {
        Err(Question::Index.at(at))
    }
}

// A loop's step, not 0.
#[tactic(auto, unfolding(crate::specs::Grammar::step))]
pub fn step_at(s: &[u8], at: usize) -> Read<i16>
    ensures { read_says result ≡ step s.now at }
{
    let (step, next) = i16_at(s, at)?;
    if step == 0 {
        Err(Question::Step.at(at))
    } else {
        Ok((step, next))
    }
}

// Entries over single fields.
use crate::numbers::{
    Args, low_byte, low_pair, refused, say, say_bool, say_number, say_signed, say_signed_number,
    say_small,
};
use reader::fields::Width;

pub(crate) fn called(rt: &impl Print, entry: usize, x: Args, s: &[u8]) {
    if entry < 5 {
        plain(rt, entry, x, s);
    } else {
        placed(rt, entry, x, s);
    }
}

fn plain(rt: &impl Print, entry: usize, x: Args, s: &[u8]) {
    match entry {
        1 => {
            say_bool(rt, reader::fields::has(s, x.a, x.b));
        }
        2 => {
            say(
                rt,
                reader::fields::pair(low_byte(x.a), low_byte(x.b)) as usize,
            );
        }
        3 => {
            say_small(rt, reader::fields::i8_of(low_byte(x.a)));
        }
        4 => {
            say_signed(rt, reader::fields::i16_of(low_pair(x.a)));
        }
        _ => {
            refused(rt);
        }
    }
}

fn placed(rt: &impl Print, entry: usize, x: Args, s: &[u8]) {
    match entry {
        5 => {
            say_number(rt, reader::fields::byte_at(s, x.a));
        }
        6 => {
            say_number(rt, reader::fields::name_at(s, x.a));
        }
        7 => {
            say_number(rt, reader::fields::index_at(s, x.a, x.b));
        }
        8 => {
            say_signed_number(rt, reader::fields::step_at(s, x.a));
        }
        _ => {
            say_number(rt, reader::cursor::field_at(s, x.a, width(x.b % 4)));
        }
    }
}

fn width(n: usize) -> Width {
    match n {
        0 => Width::One,
        1 => Width::Two,
        2 => Width::Three,
        _ => Width::Four,
    }
}

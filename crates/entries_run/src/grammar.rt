// Entries over parts of a program file, and over the whole.
use crate::cursor::{left_at, place_at, signed_at};
use crate::numbers::{
    Args, refused, say, say_number, say_place, say_refusal, say_signed, say_signed_number,
    say_small,
};
use crate::tabled::say_tables;
use model::question::Refusal;
use reader::fields::Read;
use reader::forms::Form;
use reader::tables::{FlatTables, Tables};

// Over tables too.
pub(crate) fn nested(rt: &impl Print, entry: usize, x: Args, tables: &FlatTables, s: &[u8]) {
    if entry == 18 {
        say_number(rt, reader::expressions::expression_end(s, x.a, tables, x.b));
    } else {
        say_place(rt, reader::items::items_end(s, x.a, tables, x.b, x.c));
    }
}

pub(crate) fn called(rt: &impl Print, entry: usize, x: Args, s: &[u8]) {
    match entry {
        20 => {
            form(rt, s, x.a, x.b);
        }
        21 => {
            say_place(rt, reader::expressions::forms_end(s, x.a, x.b, x.c));
        }
        22 => {
            head(rt, s);
        }
        23 => {
            verdict(rt, s);
        }
        _ => {
            standing(rt, entry, x, s);
        }
    }
}

// A `Reader` that stands at a place.
fn standing(rt: &impl Print, entry: usize, x: Args, s: &[u8]) {
    match entry {
        24 => {
            say(rt, place_at(s, x.a));
        }
        25 => {
            say(rt, left_at(s, x.a));
        }
        26 => {
            say_signed_number(rt, signed_at(s, x.a));
        }
        _ => {
            refused(rt);
        }
    }
}

// A form's numbers are 0 where it is refused.
fn form(rt: &impl Print, s: &[u8], at: usize, loops: usize) {
    let read = reader::forms::form_at(s, at, loops);
    let form = match read {
        Ok((form, _)) => form,
        Err(_) => Form {
            constant: 0,
            coefficients: [0; 8],
        },
    };
    say_place(rt, past(read));
    say_signed(rt, form.constant);
    coefficients(rt, &form.coefficients);
}

fn past<T: Drop>(read: Read<T>) -> Result<usize, Refusal> {
    match read {
        Ok((_, next)) => Ok(next),
        Err(refusal) => Err(refusal),
    }
}

fn coefficients(rt: &impl Print, c: &[i8; 8]) {
    for coefficient in c {
        say_small(rt, *coefficient);
    }
}

// So are those of tables.
fn head(rt: &impl Print, s: &[u8]) {
    let read = reader::header::tables_of(s);
    let tables = match read {
        Ok((tables, _)) => tables,
        Err(_) => no_tables(),
    };
    say_place(rt, past(read));
    say_tables(rt, tables);
}

fn no_tables() -> Tables {
    Tables {
        operators: 0,
        bytes: [0; 16],
        arrays: 0,
        roles: [0; 16],
        dimensions: [0; 16],
        extents: [0; 48],
        bases: [0; 17],
    }
}

fn verdict(rt: &impl Print, s: &[u8]) {
    match reader::read_program(s) {
        Ok(()) => say(rt, 1),
        Err(refusal) => say_refusal(rt, refusal),
    }
}

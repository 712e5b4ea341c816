// How many updates and nodes a program gives.
use model::sizes::{HEADER_WORDS, LIST_WORDS};

fn case(rt: &impl Print, name: &str, program: &[u8]) {
    let mut list = [0u32; LIST_WORDS];
    match unroller::unroll(program, &mut list) {
        Ok(updates) => {
            let nodes = nodes(&list);
            let _ = println!(rt; "{name} updates {updates} nodes {nodes}");
        }
        Err(_) => {
            let _ = println!(rt; "{name} refused");
        }
    }
}

// The code of a node's record is above 15, that of an update is 1.
fn nodes(list: &[u32]) -> usize {
    let codes = list.iter().skip(HEADER_WORDS).step_by(3);
    codes.filter(|code| **code > 15).count()
}

pub(crate) fn jacobi(rt: &impl Print) {
    case(
        rt,
        "Jacobi",
        b"ALP\x01\x00\x02\x02\x02\x02\x02\x01\x10\x00\x01\x01\x10\x00\x02\x00\x00\x01\x00\x01\x00\x02\x01\x00\x00\x0e\x00\x00\x01\x00\x01\x01\x00\x00\x00\x01\x11\x01\x135\x82\x00\x00\x11\x00\x11\x00\x10\x00\xff\xff\x00\x01\x10\x00\x00\x00\x00\x01\x10\x00\x01\x00\x00\x01\x00\x02\x01\x00\x00\x0e\x00\x00\x01\x00\x01\x00\x00\x00\x00\x01\x10\x01\x00\x00\x00\x01\x00\x00\x00",
    );
}

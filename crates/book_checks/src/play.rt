//! A script is played on a book: each command calls or stores, and a line says what it answered, the head afterwards, the sum over
//! the areas and whether that sum is another one than before.
//!
//! The commands: `prepare`, `load TEXT`, `add WORD FREQUENCY` and `get WORD` are the calls. `head RECORDS SLOTS NEXT TOTAL` stores a
//! head; `frequencies FROM END VALUE`, and so `table`, `root`, `keys`, `children` and `words`, store into an area. The first letter
//! tells them apart.
use crate::calls::Reply;
use crate::{calls, sums};
use book::Head;
use cases::{areas, output, script, stores};
use std::io;

// The head that `head RECORDS SLOTS NEXT TOTAL` stores.
fn stored_head(command: &[u8]) -> Head {
    Head {
        records: script::number(command, 1),
        slots: script::number(command, 2),
        next: script::number(command, 3),
        total: script::number(command, 4),
    }
}

// Does what a command says on the whole book.
fn call(
    head: &mut Head,
    roots: &mut [u64],
    slots: &mut [u64],
    records: &mut [u64],
    logarithms: &mut [f64],
    command: &[u8],
) -> Reply {
    match command {
        [b'p', ..] => calls::prepared(head, prepare::prepare(roots, slots, records, logarithms)),
        [b'l', ..] => calls::loaded(dict::load_dict(
            head,
            roots,
            slots,
            records,
            logarithms,
            script::rest(command, 1),
        )),
        [b'a', ..] => calls::added(addition::add_word(
            head,
            roots,
            slots,
            records,
            logarithms,
            script::field(command, 1),
            script::number(command, 2),
        )),
        [b'g', ..] => calls::found(lookup::lookup(
            *head,
            roots,
            slots,
            records,
            logarithms,
            script::rest(command, 1),
        )),
        _ => {
            store(head, roots, slots, records, command);
            Reply::Stored
        }
    }
}

// `head`, `frequencies`, and the stores of `cases::stores`.
fn store(
    head: &mut Head,
    roots: &mut [u64],
    slots: &mut [u64],
    records: &mut [u64],
    command: &[u8],
) {
    match command {
        [b'h', ..] => *head = stored_head(command),
        [b'f', ..] => stores::store_records(records, command),
        _ => {
            stores::store_in_root(roots, command);
            stores::store_in_slots(slots, command);
        }
    }
}

fn print_answer(
    rt: &impl Print,
    command: &[u8],
    reply: Reply,
    head: Head,
    before: u64,
    after: u64,
) -> io::Result<()> {
    let state = if before == after {
        "unchanged"
    } else {
        "changed"
    };
    output::print_command(rt, command)?;
    print!(rt;
        ":{reply}; head {} {} {} {}",
        head.records, head.slots, head.next, head.total
    )?;
    println!(rt; "; areas {after}, {state}")
}

// Plays one command and prints its line. The answer is the sum over the areas after it.
fn turn(
    rt: &impl Print,
    head: &mut Head,
    roots: &mut [u64],
    slots: &mut [u64],
    records: &mut [u64],
    logarithms: &mut [f64],
    command: &[u8],
    before: u64,
) -> io::Result<u64> {
    let reply = call(head, roots, slots, records, logarithms, command);
    let after = sums::sum_of(roots, slots, records, logarithms);
    print_answer(rt, command, reply, *head, before, after)?;
    Ok(after)
}

// The commands of a script one after the other.
fn play(
    rt: &impl Print,
    roots: &mut [u64],
    slots: &mut [u64],
    records: &mut [u64],
    logarithms: &mut [f64],
    script: &[u8],
) -> io::Result<()> {
    let mut head = Head {
        records: 0,
        slots: 0,
        next: 0,
        total: 0,
    };
    let mut sum = sums::sum_of(roots, slots, records, logarithms);
    for command in script::commands(script) {
        sum = turn(
            rt, &mut head, roots, slots, records, logarithms, command, sum,
        )?;
    }
    Ok(())
}

// Plays a case. The areas hold sevens at first, so that what `prepare` writes shows.
pub fn play_case(rt: &impl Print, case: &[u8]) -> io::Result<()> {
    output::print_heading(rt, case)?;
    let roots = script::size(case, 1, 65537);
    let slots = script::size(case, 3, 128);
    let records = script::size(case, 5, 16);
    let logarithms = script::size(case, 6, 16);
    let mut root_area = areas::roots();
    let mut slot_area = [7u64; 128];
    let mut record_area = [7u64; 16];
    let mut logarithm_area = [7.0f64; 16];
    play(
        rt,
        &mut root_area[..roots],
        &mut slot_area[..slots],
        &mut record_area[..records],
        &mut logarithm_area[..logarithms],
        script::part(case, 2),
    )
}

//! A case is played: a book is prepared and loaded in areas of the given lengths, changed by stores, and then cut with. The areas
//! hold sevens at first. The parts of a case are the heading, the lengths, the dictionary, the stores and the cuts.
use crate::stores;
use book::{Head, LoadError, Refusal};
use cases::output::print;
use cases::{areas, output, script};
use cut_cases::cutting;
use std::io;

// Prints what `prepare` answered. Where there is no book the head is zeros.
fn prepared(rt: &impl Print, answer: Result<Head, Refusal>) -> io::Result<Head> {
    print(rt, b"prepare:")?;
    match answer {
        Ok(head) => {
            print(rt, b" 0\n")?;
            Ok(head)
        }
        Err(refusal) => {
            println!(rt; " {}", book::number_of(Err(refusal)))?;
            Ok(Head {
                records: 0,
                slots: 0,
                next: 0,
                total: 0,
            })
        }
    }
}

// Prints what `load_dict` answered, and the head that it left.
fn loaded(
    rt: &impl Print,
    dictionary: &[u8],
    answer: Result<usize, LoadError>,
    head: Head,
) -> io::Result<()> {
    print(rt, b"load ")?;
    output::print_command(rt, dictionary)?;
    match answer {
        Ok(lines) => print!(rt; ": 0, line {lines}")?,
        Err(LoadError { refusal, line }) => {
            print!(rt; ": {}, line {line}", book::number_of(Err(refusal)))?
        }
    }
    println!(rt;
        "; head {} {} {} {}",
        head.records, head.slots, head.next, head.total
    )
}

// Changes a book that is loaded by the stores, and cuts with it.
fn play_loaded(
    rt: &impl Print,
    head: Head,
    roots: &mut [u64],
    slots: &mut [u64],
    records: &mut [u64],
    logarithms: &mut [f64],
    case: &[u8],
) -> io::Result<()> {
    let stores = script::part(case, 3);
    stores::print_stores(rt, stores)?;
    stores::play(roots, slots, logarithms, stores);
    cutting::play(
        rt,
        head,
        roots,
        slots,
        records,
        logarithms,
        script::part(case, 4),
    )
}

// Loads a book that is prepared, and plays the rest of the case.
fn play_prepared(
    rt: &impl Print,
    head: Head,
    roots: &mut [u64],
    slots: &mut [u64],
    records: &mut [u64],
    logarithms: &mut [f64],
    case: &[u8],
) -> io::Result<()> {
    let dictionary = script::part(case, 2);
    let mut head = head;
    let answer = dict::load_dict(&mut head, roots, slots, records, logarithms, dictionary);
    loaded(rt, dictionary, answer, head)?;
    play_loaded(rt, head, roots, slots, records, logarithms, case)
}

// Prepares a book, and plays the rest of the case.
fn play(
    rt: &impl Print,
    roots: &mut [u64],
    slots: &mut [u64],
    records: &mut [u64],
    logarithms: &mut [f64],
    case: &[u8],
) -> io::Result<()> {
    let answer = prepare::prepare(roots, slots, records, logarithms);
    let head = prepared(rt, answer)?;
    play_prepared(rt, head, roots, slots, records, logarithms, case)
}

pub fn play_case(rt: &impl Print, case: &[u8]) -> io::Result<()> {
    output::print_heading(rt, case)?;
    let roots = script::size(case, 1, 65537);
    let slots = script::size(case, 3, 128);
    let records = script::size(case, 5, 32);
    let logarithms = script::size(case, 6, 32);
    let mut root_area = areas::roots();
    let mut slot_area = [7u64; 128];
    let mut record_area = [7u64; 32];
    let mut logarithm_area = [7.0f64; 32];
    play(
        rt,
        &mut root_area[..roots],
        &mut slot_area[..slots],
        &mut record_area[..records],
        &mut logarithm_area[..logarithms],
        case,
    )
}

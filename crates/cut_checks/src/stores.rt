//! The stores of a case: those of `cases::stores`, and `floats`, which stores logarithms.
use cases::output::print;
use cases::{output, script, stores};
use std::io;

pub fn print_stores(rt: &impl Print, stores: &[u8]) -> io::Result<()> {
    if stores.is_empty() {
        return Ok(());
    }
    print(rt, b"stored ")?;
    output::print_command(rt, stores)?;
    print(rt, b"\n")
}

// Each store changes the area that it names, and leaves the others.
pub fn play(roots: &mut [u64], slots: &mut [u64], logarithms: &mut [f64], stores: &[u8]) {
    for command in script::commands(stores) {
        stores::store_in_root(roots, command);
        stores::store_in_slots(slots, command);
        if let [b'f', ..] = command {
            stores::store_f64(logarithms, command);
        }
    }
}

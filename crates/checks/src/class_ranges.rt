//! Document 01's classes of characters, each found by asking its test of all numbers up to the first one past the last code point.
use crate::sweep::print_ranges;
use cases::output::print;
use std::io;

const NUMBERS: u32 = 0x11_0001;

// The numbers for which a test holds.
fn print_class<F: Fn(u32) -> bool>(rt: &impl Print, name: &[u8], test: F) -> io::Result<()>
    requires { F.IsAlwaysCallable test }
{
    print(rt, name)?;
    print_ranges(rt, &|x| test(x).then_some(1), NUMBERS, b" ", 4)?;
    print(rt, b"\n")
}

pub fn print_group(rt: &impl Print) -> io::Result<()> {
    print(
        rt,
        b"\nClasses of characters, over all numbers from 0 to 110000\n",
    )?;
    print_class(rt, b"White_Space:", classes::is_white_space)?;
    print_class(rt, b"Han, main block:", classes::is_cjk_main)?;
    print_class(rt, b"Han, extensions:", classes::is_cjk_extension)?;
    print_class(rt, b"Han:", classes::is_cjk)?;
    print_class(rt, b"class of cut:", classes::is_han_default)?;
    print_class(rt, b"class of cut_all:", classes::is_han_cut_all)?;
    print_class(
        rt,
        b"ASCII letters and digits:",
        classes::is_ascii_alphanumeric,
    )?;
    print_class(rt, b"connectors:", classes::is_connector)?;
    print_class(
        rt,
        b"joining outside Han in cut_all:",
        |x| !classes::is_skip_cut_all(x),
    )
}

//! Document 01's logarithm L, as the double that a record holds, worked out and looked up.
ghost use Rattle.std.specs.Prelude.{◌≡◌, true};
ghost use Rattle.logs.specs.Table.{is_log_table};

use cases::output::{print, print_decimal};
use logs::LogTable;
use std::io;

// A double in decimal, where it is a whole number from 0 to below 2^64.
fn print_whole(rt: &impl Print, x: f64) -> io::Result<()> {
    if x > -1.0 && x < 18446744073709551616.0 {
        let n = std::num::truncating_f64_to_u64(x);
        if std::num::nearest_u64_to_f64(n) == x {
            return print_decimal(rt, n);
        }
    }
    print(rt, b"no whole number")
}

// A number, and what its L is said to be.
fn print_log(rt: &impl Print, n: u32, l: f64) -> io::Result<()> {
    print_decimal(rt, u64::from(n))?;
    print(rt, b": ")?;
    if l == score::minus_infinity() {
        print(rt, b"minus infinity")?;
    } else {
        print_whole(rt, l)?;
    }
    print(rt, b"\n")
}

fn print_worked_out(rt: &impl Print, n: u32) -> io::Result<()> {
    print_log(rt, n, score::log(n))
}

fn print_looked_up(rt: &impl Print, table: &LogTable, n: u32) -> io::Result<()>
    requires { is_log_table table.now ≡ true }
{
    print_log(rt, n, logs::log_by(table, n))
}

// How many numbers from 0 up are looked up as they are worked out, before the first that is not; at most 3,000.
fn alike(table: &LogTable) -> u32
    requires { is_log_table table.now ≡ true }
{
    for n in 0..3000 {
        if logs::log_by(table, n) != score::log(n) {
            return n;
        }
    }
    3000
}

// The table's ends and their neighbours, and every number to well beyond it.
fn print_table(rt: &impl Print) -> io::Result<()> {
    let table = logs::table();
    print(rt, b"\nLogarithm L, looked up\n")?;
    print_looked_up(rt, &table, 0)?;
    print_looked_up(rt, &table, 1)?;
    print_looked_up(rt, &table, 2)?;
    print_looked_up(rt, &table, 3)?;
    print_looked_up(rt, &table, 1000)?;
    print_looked_up(rt, &table, 1023)?;
    print_looked_up(rt, &table, 1024)?;
    print_looked_up(rt, &table, 1025)?;
    print_looked_up(rt, &table, 4294967295)?;
    print(rt, b"from 0 up as worked out: ")?;
    print_decimal(rt, u64::from(alike(&table)))?;
    print(rt, b" numbers\n")
}

// 01's starred values, powers of two and their neighbours, and the ends of the range.
pub fn print_group(rt: &impl Print) -> io::Result<()> {
    print(rt, b"\nLogarithm L\n")?;
    print_worked_out(rt, 0)?;
    print_worked_out(rt, 1)?;
    print_worked_out(rt, 2)?;
    print_worked_out(rt, 3)?;
    print_worked_out(rt, 4)?;
    print_worked_out(rt, 5)?;
    print_worked_out(rt, 7)?;
    print_worked_out(rt, 64)?;
    print_worked_out(rt, 128)?;
    print_worked_out(rt, 256)?;
    print_worked_out(rt, 1000)?;
    print_worked_out(rt, 65535)?;
    print_worked_out(rt, 65536)?;
    print_worked_out(rt, 16777215)?;
    print_worked_out(rt, 16777216)?;
    print_worked_out(rt, 2147483647)?;
    print_worked_out(rt, 2147483648)?;
    print_worked_out(rt, 4294967294)?;
    print_worked_out(rt, 4294967295)?;
    print_table(rt)
}

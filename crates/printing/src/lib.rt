//! The lines that answer the frames of the program `cutlines` (document 01, "Program `cutlines`"): lowercase hexadecimal digits,
//! written into a slice of bytes.
#![tactic(auto)]

ghost use Rattle.std.specs.Prelude.{◌≡◌, ◌+◌, ◌*◌, ◌<◌, ◌≤◌, length};
ghost use Rattle.std.proofs.lemmas.List.Edits.{sets};
ghost use Rattle.printing.specs.Answers.{digit_of, digits, fours, line_of, no_frame_line, Put};

// The digit of a value.
fn digit_of(n: u8) -> u8
    requires { n < 16 }
    ensures { result ≡ digit_of n }
{
    match n {
        0..=9 => b'0' + n,
        _ => b'a' + (n - 10),
    }
}

// Writes the last N digits of a number.
#[tactic(auto, using(crate::proofs::Lines::digits_put))]
fn put_digits<const N: usize>(n: usize, out: &mut [u8], at: usize)
    requires { at + N ≤ length out.old }
    ensures { out.new ≡ sets out.old at (digits N n) }
{
    let mut rest = n;
    for i in (0..N).rev() {
        out[at + i] = digit_of((rest % 16) as u8);
        rest /= 16;
    }
}

// Writes four digits of each number, one after the other, and answers where they end.
#[tactic(auto, using(crate::proofs::Lines::one_more, crate::proofs::Lines::all_put))]
fn put_fours(numbers: &[u32], out: &mut [u8], from: usize) -> usize
    requires { from + 4 * length numbers.now ≤ length out.old }
    ensures { Put out.old from (fours numbers.now) out.new result }
{
    let mut at = from;
    for n in numbers {
        put_digits::<4>(*n as usize, out, at);
        at += 4;
    }
    at
}

// Writes the line of an answer: the returned number, the line or token count, and the tokens' numbers.
// Kept: an area and a place in it: the lines of a block stand one after another in one area, and a struct of the two would say no more.
#[tactic(auto, using(crate::proofs::Lines::fours_length))]
pub fn put_answer(returned: u32, count: usize, numbers: &[u32], out: &mut [u8], at: usize) -> usize
    requires { at + 7 + 4 * length numbers.now ≤ length out.old }
    ensures put { Put out.old at (line_of returned count numbers.now) out.new result }
    ensures value { result ≡ at + 7 + 4 * length numbers.now }
{
    put_digits::<2>(returned as usize, out, at);
    put_digits::<4>(count, out, at + 2);
    let end = put_fours(numbers, out, at + 6);
    out[end] = b'\n';
    end + 1
}

// Writes the line of what is no frame.
pub fn put_no_frame(out: &mut [u8], at: usize) -> usize
    requires { at + 3 ≤ length out.old }
    ensures put { Put out.old at no_frame_line out.new result }
    ensures value { result ≡ at + 3 }
{
    out[at..at + 3].copy_from_slice(b"fe\n");
    at + 3
}

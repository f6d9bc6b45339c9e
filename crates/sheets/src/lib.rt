//! Sheets of words from before note 7 of document 02, when a word without a frequency had the frequency 0: filled in, so that a load
//! makes of them what it made of them then.
//!
//! A space and 0 go right after each word that has no second field; everything else goes out as it came. What is written is
//! `filled` of the sheet; that it is loaded as the sheet was is a theorem on that definition (`specs/Claims.antt`).
#![tactic(auto)]

ghost use Rattle.std.specs.Prelude.{◌≡◌, ◌+◌, ◌*◌, ◌≤◌, length};
ghost use Rattle.printing.specs.Answers.{Put};
ghost use Rattle.sheets.specs.Filled.{zero_place, filled_line, filled, filling, fill_of};

// The longest sheet that is filled.
pub const LONGEST_SHEET: usize = 65536;

// Places for what is written: a byte of a sheet makes at most two, and the last line one more.
pub const ROOM: usize = 131073;

// A sheet that is longer than that.
#[derive(Clone, Copy, Debug, PartialEq, Eq)]
pub struct TooLong;

// Where a line's 0 goes, if it gets one: right after its word, if that is its only field.
fn zero_place(line: &[u8]) -> Option<usize>
    ensures { result ≡ zero_place line.now }
{
    let Ok(_) = utf8::char_count(line) else {
        return None;
    };
    let word = lines::next_field(line, 0)?;
    match lines::next_field(line, word.end) {
        None => Some(word.end),
        Some(_) => None,
    }
}

// Writes bytes from a place on, and answers where they end.
fn put(bytes: &[u8], out: &mut [u8], from: usize) -> usize
    requires { from + length bytes.now ≤ length out.old }
    ensures { Put out.old from bytes.now out.new result }
{
    let end = from + bytes.len();
    out[from..end].copy_from_slice(bytes);
    end
}

// Writes a line with its 0.
fn fill_line(line: &[u8], out: &mut [u8], at: usize) -> usize
    requires { at + length line.now + 2 ≤ length out.old }
    ensures { Put out.old at (filled_line line.now) out.new result }
{
    let Some(end) = zero_place(line) else {
        return put(line, out, at);
    };
    let word = put(&line[..end], out, at);
    out[word] = b' ';
    out[word + 1] = b'0';
    put(&line[end..], out, word + 2)
}

// Writes a sheet line by line. An LF goes out where one came.
// Kept: a line ends where `line_end` says; `split_inclusive` would give its LF with it, to be taken off and put back.
fn fill_lines(sheet: &[u8], out: &mut [u8]) -> usize
    requires { 2 * length sheet.now + 1 ≤ length out.old }
    ensures { Put out.old 0 (filled sheet.now) out.new result }
{
    let mut at: usize = 0;
    let mut written: usize = 0;
    while at < sheet.len() {
        let end = lines::line_end(sheet, at);
        written = fill_line(&sheet[at..end], out, written);
        if end < sheet.len() {
            out[written] = b'\n';
            written += 1;
        }
        at = end + 1;
    }
    written
}

// Fills a sheet, unless it is too long, and answers how many bytes it has then; of one too long nothing is written.
pub fn fill(sheet: &[u8], out: &mut [u8; ROOM]) -> Result<usize, TooLong>
    ensures { filling result out.new ≡ fill_of sheet.now out.old }
{
    if LONGEST_SHEET < sheet.len() {
        return Err(TooLong);
    }
    Ok(fill_lines(sheet, out))
}

//! The lines of a dictionary enter a book one after the other (lib.rs, the loop of `load_dict`), up to the first that is refused.
#![tactic(auto)]

ghost use Rattle.std.specs.Prelude.{◌≡◌, true, ◌-◌, ◌/◌, ◌≤◌, length};
ghost use Rattle.logs.specs.Table.{is_log_table};
ghost use Rattle.trie.specs.Trie.{log2};
ghost use Rattle.book.specs.Areas.{areas_allowed, book_in};
ghost use Rattle.book.specs.Returns.{longest_text};
ghost use Rattle.book.specs.Enter.{loaded};
ghost use Rattle.entry.specs.Texts.{enter_answer, enter_line};
ghost use Rattle.load_lines.specs.Answers.{lines_loaded};

use book::{Head, LoadError, Refusal};
use logs::LogTable;

// A line of a dictionary enters, or is refused and leaves everything as it was. A blank one is passed over. The logarithm of a
// frequency is looked up in the table, which the loop below lends to every line.
fn load_line(
    head: &mut Head,
    roots: &mut [u64],
    slots: &mut [u64],
    records: &mut [u64],
    logarithms: &mut [f64],
    shift: u32,
    line: &[u8],
    table: &LogTable,
) -> Result<(), Refusal>
    requires logarithms_value { areas_allowed (length roots.old) (length slots.old) (length records.old) (length logarithms.old) ≡ true }
    requires shift_value { (shift ≡ 64 - log2 (length slots.old / 2)) × (length line.now ≤ longest_text) × (is_log_table table.now ≡ true) }
    ensures { enter_answer result (book_in head.new roots.new slots.new records.new logarithms.new)
        ≡ enter_line (book_in head.old roots.old slots.old records.old logarithms.old) line.now }
{
    let Some(found) = lines::parse_line(line)? else {
        return Ok(());
    };
    let logarithm = logs::log_by(table, found.frequency);
    entry::load_entry(
        head,
        roots,
        slots,
        records,
        logarithms,
        shift,
        &line[found.word.start..found.word.end],
        found.frequency,
        logarithm,
    )
}

// The lines of a dictionary enter one after the other, up to the first that is refused. The answer is how many there are.
pub fn load_lines(
    head: &mut Head,
    roots: &mut [u64],
    slots: &mut [u64],
    records: &mut [u64],
    logarithms: &mut [f64],
    shift: u32,
    text: &[u8],
) -> Result<usize, LoadError>
    requires logarithms_value { areas_allowed (length roots.old) (length slots.old) (length records.old) (length logarithms.old) ≡ true }
    requires shift_value { (shift ≡ 64 - log2 (length slots.old / 2)) × (length text.now ≤ longest_text) }
    ensures { loaded result (book_in head.new roots.new slots.new records.new logarithms.new)
        ≡ lines_loaded (book_in head.old roots.old slots.old records.old logarithms.old) 0 text.now 0 }
{
    let table = logs::table();
    let mut at: usize = 0;
    let mut line: usize = 0;
    // Kept: each turn goes on behind the end that `line_end` found, which no `for` counts.
    while at < text.len() {
        let end = lines::line_end(text, at);
        line += 1;
        load_line(
            head,
            roots,
            slots,
            records,
            logarithms,
            shift,
            &text[at..end],
            &table,
        )
        .map_err(|refusal| LoadError { refusal, line })?;
        at = end + 1;
    }
    Ok(line)
}

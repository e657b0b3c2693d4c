// What comes after a gate: the sheet is decoded into a table, and the call's work done on it. Only here are there several sizes of table.
ghost use Rattle.std.specs.Prelude.{◌-◌, ◌≤◌, ◌≡◌, length, Ok};
ghost use Rattle.rules.specs.Limits.{bytes_most};
ghost use Rattle.sheet.specs.Sheet.{sheet_read};
ghost use Rattle.decode.specs.Inner.Decode.{table_words};
ghost use Rattle.desk.specs.Inner.Run.{Stands};

use decode::{
    FEW_BYTES, FEW_WORDS, LARGE_BYTES, LARGE_WORDS, MANY_BYTES, MANY_WORDS, SOME_BYTES, SOME_WORDS,
    WORDS, decode,
};
use sheet::Outline;
use table::{Table, TableRow};

// With a table of so many words.
fn on_words<const W: usize, R, F: FnOnce(Table<'_>, TableRow<'_>) -> R>(
    s: &[u8],
    sheet: Outline,
    wanted: usize,
    work: F,
) -> R
    requires accepted { sheet_read s.now ≡ Ok sheet }
    requires asked { wanted ≤ sheet.rules.value - 1 }
    requires room { table_words (length s.now) ≤ W }
    requires small { W ≤ table_words bytes_most }
    requires ready { (t : _) (row : _) → Stands s.now sheet wanted t.code.now t.atoms t.rules row.code.now row.atoms row.at → F.pre work t row }
    ensures { (t : _) × (row : _) × Stands s.now sheet wanted t.code.now t.atoms t.rules row.code.now row.atoms row.at × F.post work t row result }
{
    let mut code = [0u32; W];
    let done = decode(s, sheet, wanted, &mut code);
    let table = Table::new(&code, sheet.atoms as u32, done.rules as u32);
    work(table, table.row(done.row as u32))
}

// The call's work on the table of an accepted sheet, and on the row of the rule at an index. A shorter sheet has a smaller table: five sizes, since
// an array's size is a constant and there is no heap. A call that asks for no rule gives 0 and leaves the row: decode notes a row in any case, so
// that an Option would be made an index here again.
pub(crate) fn on_table<R, F: FnOnce(Table<'_>, TableRow<'_>) -> R>(
    s: &[u8],
    sheet: Outline,
    wanted: usize,
    work: F,
) -> R
    requires accepted { sheet_read s.now ≡ Ok sheet }
    requires asked { wanted ≤ sheet.rules.value - 1 }
    requires ready { (t : _) (row : _) → Stands s.now sheet wanted t.code.now t.atoms t.rules row.code.now row.atoms row.at → F.pre work t row }
    ensures { (t : _) × (row : _) × Stands s.now sheet wanted t.code.now t.atoms t.rules row.code.now row.atoms row.at × F.post work t row result }
{
    if s.len() <= FEW_BYTES {
        return on_words::<FEW_WORDS, R, F>(s, sheet, wanted, work);
    }
    if s.len() <= SOME_BYTES {
        return on_words::<SOME_WORDS, R, F>(s, sheet, wanted, work);
    }
    if s.len() <= MANY_BYTES {
        return on_words::<MANY_WORDS, R, F>(s, sheet, wanted, work);
    }
    if s.len() <= LARGE_BYTES {
        return on_words::<LARGE_WORDS, R, F>(s, sheet, wanted, work);
    }
    on_words::<WORDS, R, F>(s, sheet, wanted, work)
}

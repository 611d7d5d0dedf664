// The fill sheet: its lines and pages, and the lengths of the lower rows.
#![tactic(auto)]

ghost use Rattle.std.specs.Prelude.{◌≡◌, ◌+◌, ◌*◌, ◌<◌, ◌≤◌};
ghost use Rattle.printing.specs.Prints.{Prints};
ghost use Rattle.base.specs.Limits.{max_rows};
ghost use Rattle.sheet.specs.Sheet.{place_line, head_line, blank_line, line_or, pages_for, sheet};
ghost use Rattle.sheet.specs.Printing.{line_in, Printable, sheet_most, LineFits, LineWritten, LinesWritten, PageWritten};
ghost use Rattle.sheet.specs.Counting.{Counting, Counted, Countable, RowsCounted};
ghost use Rattle.sheet.specs.Lent.{SheetLent, SheetPrinted};

use base::Index;
use printing::Printer;

// ---- lines

// The line of a place.
fn put_line(printer: &mut Printer<'_>, place: u64, own: u64, lower: u64, upper: u64, run: u64)
    requires { (printer.old.at ≤ sheet_most) × LineFits place own lower upper run }
    ensures { LineWritten (place_line place own lower upper run) printer.old printer.new }
{
    printer.column(6, place);
    printer.column(8, own);
    printer.column(8, lower);
    printer.column(8, upper);
    printer.column(10, run);
    printer.text(b"\n");
}

// The first line of a page, whose number is p + 1.
fn put_head(printer: &mut Printer<'_>, p: usize)
    requires { (printer.old.at ≤ sheet_most) × (p < max_rows) }
    ensures { LineWritten (head_line p) printer.old printer.new }
{
    printer.text(b"FILL");
    printer.blanks(30);
    printer.column(6, p as u64 + 1);
    printer.text(b"\n");
}

// A line of 40 blanks.
fn put_blank_line(printer: &mut Printer<'_>)
    requires { printer.old.at ≤ sheet_most }
    ensures { LineWritten blank_line printer.old printer.new }
{
    printer.blanks(40);
    printer.text(b"\n");
}

// The line of place k, or a blank one where there are no more places.
fn put_place(
    printer: &mut Printer<'_>,
    n: usize,
    k: usize,
    r: &[Index],
    lower: &[u32],
    starts: &[u32],
    runs: &[u32],
)
    requires { (printer.old.at ≤ sheet_most) × Printable n r.now lower.now starts.now runs.now }
    ensures { LineWritten (line_or n (line_in r.now lower.now starts.now runs.now) k) printer.old printer.new }
{
    if n <= k {
        return put_blank_line(printer);
    }
    let own = base::wide(r[k]);
    let rows = base::slot(lower[k]);
    let list = lent::list_length(starts, k);
    let run = base::slot(runs[k]);
    put_line(
        printer,
        k as u64,
        own as u64,
        rows as u64,
        list as u64,
        run as u64,
    );
}

// ---- pages

// The lines of 49 places.
fn put_lines(
    printer: &mut Printer<'_>,
    n: usize,
    first: usize,
    r: &[Index],
    lower: &[u32],
    starts: &[u32],
    runs: &[u32],
)
    requires { (printer.old.at + 2009 ≤ sheet_most) × (first ≤ 49 * max_rows) × Printable n r.now lower.now starts.now runs.now }
    ensures { LinesWritten n (line_in r.now lower.now starts.now runs.now) first 49 printer.old printer.new }
{
    for j in 0..49 {
        put_place(printer, n, first + j, r, lower, starts, runs);
    }
}

// A page: its first line, then 49 places.
fn put_page(
    printer: &mut Printer<'_>,
    n: usize,
    p: usize,
    r: &[Index],
    lower: &[u32],
    starts: &[u32],
    runs: &[u32],
)
    requires { (printer.old.at + 2050 ≤ sheet_most) × (p < max_rows) × Printable n r.now lower.now starts.now runs.now }
    ensures { PageWritten n (line_in r.now lower.now starts.now runs.now) p printer.old printer.new }
{
    put_head(printer, p);
    put_lines(printer, n, 49 * p, r, lower, starts, runs);
}

// Gives the pages that n places take.
pub fn pages(n: usize) -> usize
    requires { n ≤ max_rows }
    ensures { result ≡ pages_for n }
{
    (n + 48) / 49
}

// The sheet of n places.
fn put_sheet(
    printer: &mut Printer<'_>,
    n: usize,
    r: &[Index],
    lower: &[u32],
    starts: &[u32],
    runs: &[u32],
)
    requires { (printer.old.at ≡ 0) × Printable n r.now lower.now starts.now runs.now }
    ensures { Prints (sheet n (line_in r.now lower.now starts.now runs.now)) printer.old printer.new }
{
    for p in 0..pages(n) {
        put_page(printer, n, p, r, lower, starts, runs);
    }
}

// ---- the lengths of the lower rows

// Counts the numbers of a list.
fn count_list(list: &[Index], counts: &mut [u32])
    requires { Counting list.now counts.old }
    ensures { Counted list.now counts.old counts.new }
{
    for i in list {
        counts[base::wide(*i)] += 1;
    }
}

// Counts along the lower columns how long each lower row is.
fn count_rows(n: usize, starts: &[u32], runs: &[u32], index: &[Index], counts: &mut [u32])
    requires { Countable n starts.now runs.now index.now counts.old }
    ensures { RowsCounted n starts.now runs.now index.now counts.old counts.new }
{
    for j in 0..n {
        count_list(lent::list_at(starts, runs, index, j), counts);
    }
}

// ---- the sheet

// Prints the sheet of a structure in the shared form; the counts are cleared again.
pub fn print(
    n: usize,
    r: &[Index],
    lower_starts: &[u32],
    lower_runs: &[u32],
    lower_index: &[Index],
    upper_starts: &[u32],
    upper_runs: &[u32],
    counts: &mut [u32],
    out: &mut [u8],
)
    requires { SheetLent n r.now lower_starts.now lower_runs.now lower_index.now upper_starts.now upper_runs.now counts.old }
    ensures { SheetPrinted n r.now lower_starts.now lower_runs.now lower_index.now upper_starts.now upper_runs.now counts.old out.old counts.new out.new }
{
    count_rows(n, lower_starts, lower_runs, lower_index, counts);
    let mut printer = Printer::new(out);
    put_sheet(&mut printer, n, r, counts, upper_starts, upper_runs);
    base::clear(counts);
}

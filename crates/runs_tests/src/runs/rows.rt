// Command lines and their ends, as rows of a text.
use crate::runs::checks::{must, there};
use std::process::Abort;

// A number above that of the rows of a table.
const MOST: u32 = 100;

/// A command line over files, and how it ends. In a table it has these lines:
///
/// - `$ `, the arguments, `|`, the packet files, `|`, and the scanned files, separated by spaces. A
///   packet file is named, and a scanned one has its content here. In an argument `~` is a line
///   end. `''` is an empty argument, and a file without bytes.
/// - The text that is written, or the line for standard error, which begins with `parv: `.
/// - `= ` and the exit status. If there is a bar after it, each read and each write of the run is
///   to fail in turn. Then come the path of the only scanned file, and the least number of its
///   bytes that the run reads.
///
/// All other lines are remarks.
#[derive(Clone, Copy)]
pub struct Row<'t> {
    pub words: &'t str,
    pub packets: &'t str,
    pub scanned: &'t str,
    pub text: &'t str,
    pub line: &'t str,
    pub status: u8,
    pub failing: &'t str,
}

/// Returns the parts of a text before and after a mark.
pub fn cut<'t>(rt: &impl Abort, text: &'t str, mark: &str) -> (&'t str, &'t str) {
    there(rt, mark, text.split_once(mark))
}

// Returns the parts of a text before and after its first bar.
fn parted(text: &str) -> (&str, &str) {
    text.split_once('|').unwrap_or((text, ""))
}

// Returns the row that begins with these arguments.
fn row_of<'t>(rt: &impl Abort, lines: &'t str) -> Row<'t> {
    let (head, lines) = cut(rt, lines, "\n");
    let (written, lines) = cut(rt, lines, "= ");
    let (words, files) = parted(head);
    let (packets, scanned) = parted(files);
    let (status, failing) = parted(cut(rt, lines, "\n").0);
    let is_line = written.starts_with("parv: ");
    Row {
        words,
        packets,
        scanned,
        text: if is_line { "" } else { written },
        line: if is_line { written } else { "" },
        status: must(rt, status.trim().parse::<u8>()),
        failing: failing.trim(),
    }
}

/// Returns the rows of a table.
pub fn rows_of<'t>(rt: &(impl Abort + AllocGlobal), table: &'t str) -> Vec<Row<'t>> {
    let mut rest = table;
    let mut rows = Vec::new(rt.alloc());
    for _ in 0..MOST {
        match rest.split_once("$ ") {
            Some((_, lines)) => {
                must(rt, rows.push(row_of(rt, lines)));
                rest = lines;
            }
            None => return rows,
        }
    }
    rt.panic("too many rows")
}

/// Returns a text in which each mark is replaced.
pub fn replaced(rt: &(impl Abort + AllocGlobal), text: &str, mark: &str, by: &str) -> String {
    must(rt, text.replace(rt.alloc(), mark, by))
}

/// Returns the arguments of a command line.
pub fn words_of(rt: &(impl Abort + AllocGlobal), words: &str) -> Vec<String> {
    let mut all = Vec::new(rt.alloc());
    for word in words.split_whitespace() {
        let word = if word == "''" { "" } else { word };
        must(rt, all.push(replaced(rt, word, "~", "\n")));
    }
    all
}

ghost use Rattle.std.specs.Prelude.{◌≡◌, ◌≤◌, ◌↔◌, drop, IsTrue};
ghost use Rattle.parshelf.specs.Disk.{open_file_limit};

/// Returns the words after the program's name, which is the first of its arguments.
pub fn words_after_program(args: &[String]) -> &[String]
    ensures { result.now ≡ drop 1 args.now }
{
    match args {
        [_program, words @ ..] => words,
        [] => args,
    }
}

// The most files that a command line may name.
const MOST_FILES: usize = 65_535;

/// Whether a command line may give so many files.
pub(crate) fn is_within_file_limit(files: usize) -> bool
    ensures { IsTrue result ↔ files ≤ open_file_limit }
{
    files <= MOST_FILES
}

// Runs of command lines over files in memory: packet files by name, tables of command lines as
// texts, and how such a run ended.
mod archives;
mod checks;
mod faults;
mod packet_files;
mod rows;
mod running;

pub use self::archives::packet_file;
pub use self::checks::{all_end_so, is_same, is_text, must, there};
pub use self::rows::{replaced, words_of};

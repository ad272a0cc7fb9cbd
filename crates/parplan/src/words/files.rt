ghost use Rattle.std.specs.Prelude.{◌≡◌, ◌≤◌, length, IfOk, map, filter, option_map, string_bytes};
ghost use Rattle.parplan.specs.FileWords.{is_packet_file, is_scanned_file, scanned_as, folder_of, base_prefix, without_prefix};

use crate::Scanned;
use parfield::{Sequence, Text};
use std::alloc::{AllocError, Global};

/// Returns the packet files among the arguments, in order.
pub fn packet_files(alloc: Global, words: &[&str]) -> Result<Sequence<Text>, AllocError>
    ensures files { IfOk result (λ files. files
        ≡ filter is_packet_file (map (λ word. word.now) words.now)) }
    ensures few { IfOk result (λ files. length files ≤ length words.now) }
{
    let mut packets = Vec::new(alloc);
    for word in words {
        if names_packet_file(word.as_bytes()) {
            packets.push(text(alloc, word)?)?;
        }
    }
    Ok(Sequence::from_vec(packets))
}

/// Returns the other files among the arguments, in order, each with its name in the folder `base`.
pub fn scanned_files(
    alloc: Global,
    base: Option<&str>,
    words: &[&str],
) -> Result<Sequence<Scanned>, AllocError>
    ensures files { IfOk result (λ files. files
        ≡ map (scanned_as (base_prefix (option_map (λ dir. dir.now) base.entry)))
        (filter is_scanned_file (map (λ word. word.now) words.now))) }
    ensures few { IfOk result (λ files. length files ≤ length words.now) }
{
    let prefix = base_prefix(alloc, base)?;
    let mut scanned = Vec::new(alloc);
    for word in words {
        if !names_packet_file(word.as_bytes()) {
            scanned.push(scanned_file(alloc, prefix.as_str(), word)?)?;
        }
    }
    Ok(Sequence::from_vec(scanned))
}

// Makes a scanned file, whose name is the argument without the prefix.
fn scanned_file(alloc: Global, prefix: &str, word: &str) -> Result<Scanned, AllocError>
    ensures { IfOk result (λ file. file ≡ scanned_as prefix.now word.now) }
{
    Ok(Scanned {
        path: text(alloc, word)?,
        name: text(alloc, stripped(prefix, word))?,
    })
}

// Copies an argument.
fn text(alloc: Global, word: &str) -> Result<Text, AllocError>
    ensures { IfOk result (λ text. text ≡ word.now) }
{
    Ok(Text::from_string(String::from_str(alloc, word)?))
}

// Returns the prefix that names lose: the folder of `-B DIR`, or an empty text if there is none.
fn base_prefix(alloc: Global, base: Option<&str>) -> Result<String, AllocError>
    ensures { IfOk result (λ prefix. string_bytes prefix
        ≡ base_prefix (option_map (λ dir. dir.now) base.entry)) }
{
    match base {
        None => Ok(String::new(alloc)),
        Some(dir) => folder(alloc, dir),
    }
}

// Returns the folder DIR with a `/` at its end.
fn folder(alloc: Global, dir: &str) -> Result<String, AllocError>
    ensures { IfOk result (λ folder. string_bytes folder ≡ folder_of dir.now) }
{
    if dir.ends_with("/") {
        Ok(String::from_str(alloc, dir)?)
    } else {
        format!(in alloc; "{dir}/")
    }
}

// Returns the argument without the prefix, if it begins with it.
fn stripped<'a>(prefix: &str, word: &'a str) -> &'a str
    ensures { result.now ≡ without_prefix prefix.now word.entry.now }
{
    match word.strip_prefix(prefix) {
        Some(rest) => rest,
        None => word,
    }
}

// Whether the last five bytes are `.par2`, in letters of either case.
fn names_packet_file(word: &[u8]) -> bool
    ensures { result ≡ is_packet_file word.now }
{
    word[word.len().saturating_sub(5)..].eq_ignore_ascii_case(b".par2")
}

ghost use Rattle.std.specs.Prelude.{◌≡◌, slice_index_or, []};
ghost use Rattle.parreport.specs.Names.{names_of};

use parfield::Text;
use parplan::Scanned;

/// Returns the name of a packet file, by its number; an empty one if there is no such file.
pub fn packet_name(names: &[Text], file: u32) -> &[u8]
    ensures { result.now ≡ slice_index_or names.now file [] }
{
    match names.get(file as usize) {
        Some(name) => name.as_str().as_bytes(),
        None => b"",
    }
}

/// Returns the name of a scanned file, by its number; an empty one if there is no such file.
pub fn scanned_name(files: &[Scanned], file: usize) -> &[u8]
    ensures { result.now ≡ slice_index_or (names_of files.now) file [] }
{
    match files.get(file) {
        Some(file) => file.name.as_str().as_bytes(),
        None => b"",
    }
}

ghost use Rattle.std.specs.Prelude.{◌≡◌, ◌≢◌, ◌^◌, ◌+◌, ◌-◌, ◌<◌, ◌≤◌, ◌++◌, ℕ, List, [], min, length, take, slice_index, OnOk, IfOk, IfErr};
ghost use Rattle.parshelf.specs.Shelf.{ReadsAs, file_of};
ghost use Rattle.parshelf.specs.Reads.{ReadsFile};
ghost use Rattle.parfind.specs.Fetched.{ReadsUpTo, ahead_limit};
ghost use Rattle.parfind.specs.NextPlace.{rest_of};
ghost use Rattle.parfind.specs.Sought.{IsWindowFor, sought_of};
ghost use Rattle.parfind.specs.Tracks.{HasBytes, IsTied, IsUnread, IsReadOn, AreNextBytes, SameTrack, HaveNoComparedCrc, Passes, cursor_of_track, next_offset, fetched_of};
ghost use Rattle.parfind.specs.declared.tracks.mode.Mode.{Mode};

use parshelf::{Failed, ReadFault, Shelf};
use parwindow::{Index, Window};

/// The greatest number of bytes that are read ahead.
pub(crate) const AHEAD: usize = 4096;

// The zeros that follow the end of a file in a window.
static ZEROS: [u8; AHEAD] = [0; AHEAD];

/// The way of a window along a file, and the bytes that were read ahead of it. Each call borrows
/// the window.
#[derive(Drop)]
pub(crate) struct Track {
    /// The number of the file.
    pub file: u32,
    /// The offset of the window, which is full or being filled.
    pub window_offset: u64,
    /// The offset of the bytes that were read last.
    pub buffer_offset: u64,
    /// The bytes that were read last, followed by unused ones.
    pub bytes: [u8; AHEAD],
    /// How many bytes were read last.
    pub buffer_len: usize,
}

impl Track {
    /// Starts at the window of an offset, for which nothing is read yet.
    pub fn new(file: u32, offset: u64) -> Track
        ensures { IsUnread file offset result }
    {
        Track {
            file,
            window_offset: offset,
            buffer_offset: offset,
            bytes: [0; AHEAD],
            buffer_len: 0,
        }
    }

    /// Returns the number of the file along which the window goes.
    pub fn file(&self) -> u32
        ensures { result ≡ self.now.file }
    {
        self.file
    }

    /// Returns how many bytes of the file are left from the window's offset on.
    pub fn rest<H: Shelf>(&self, shelf: &H) -> u64
        requires file { self.now.file < length (H.state shelf.now).lengths }
        requires inside { self.now.window_offset
            ≤ slice_index (H.state shelf.now).lengths self.now.file }
        ensures { result ≡ rest_of (H.state shelf.now).lengths (cursor_of_track self.now) }
    {
        shelf.length(self.file) - self.window_offset
    }

    /// Goes to an offset of another file, with an empty window. If it is the same file, nothing
    /// changes.
    pub fn enter_file(&mut self, window: &mut Window, file: u32, offset: u64)
        ensures same { self.old.file ≡ file → (self.new ≡ self.old) × (window.new ≡ window.old) }
        ensures other { self.old.file ≢ file → IsUnread file offset self.new
            × (window.new ≡ record window.old { content = [] }) }
    {
        if self.file != file {
            window.clear();
            *self = Track::new(file, offset);
        }
    }

    /// Fills the window from its file, and with zeros past the file's end.
    pub fn fill<H: Shelf>(&mut self, window: &mut Window, shelf: &mut H) -> Result<(), ReadFault>
        requires file { self.old.file < length (H.state shelf.old).lengths }
        requires inside { self.old.window_offset
            < slice_index (H.state shelf.old).lengths self.old.file }
        requires tied { IsTied (H.state shelf.old) window.old self.old }
        ensures tied { IsTied (H.state shelf.new) window.new self.new }
        ensures full { OnOk result (length window.new.content ≡ window.new.capacity) }
        ensures same { SameTrack self.old self.new }
        ensures window { window.new ≡ record window.old { content = window.new.content } }

        ensures reads { ReadsUpTo (H.state shelf.old) (H.state shelf.new)
            (fetched_of self.old) (fetched_of self.new) }
        ensures shelf { ReadsFile self.old.file
            (H.state shelf.old) (H.state shelf.new) result }
    {
        while !window.is_full() {
            self.ensure_next_byte(window, shelf)?;
            let room = (window.size() - window.len()) as u64;
            let bytes = self.next_bytes(window, shelf.length(self.file), room);
            window.extend(bytes);
        }
        Ok(())
    }

    /// Passes the place of a full window, and those after it up to the first at which the window
    /// has the CRC-32 of a slice at some compared length, or for which more bytes have to be read;
    /// at most `most`, and only places of this file. Returns how many it passed.
    pub fn slide_until_crc<H: Shelf>(
        &mut self,
        window: &mut Window,
        index: &Index,
        shelf: &mut H,
        most: u64,
    ) -> Result<u64, ReadFault>
        requires some { 0 < most }
        requires file { self.old.file < length (H.state shelf.old).lengths }
        requires inside { self.old.window_offset
            < slice_index (H.state shelf.old).lengths self.old.file }
        requires sized { window.old.capacity ≡ index.now.slice_size }
        requires full { length window.old.content ≡ window.old.capacity }
        requires tied { IsTied (H.state shelf.old) window.old self.old }
        ensures tied { IsTied (H.state shelf.new) window.new self.new }
        ensures window { window.new ≡ record window.old { content = window.new.content } }

        ensures passes { IfOk result (Passes
            (slice_index (H.state shelf.old).lengths self.old.file) self.old self.new most) }
        ensures none { (mode : Mode) → IsWindowFor (sought_of index.now mode) window.old
            → (files : List (List ℕ)) → ReadsAs (H.state shelf.new) files
            → IfOk result (HaveNoComparedCrc (sought_of index.now mode)
            (file_of files self.old.file) self.old.window_offset) }
        ensures stays { IfErr result (λ _.
            SameTrack self.old self.new × (window.new ≡ window.old)) }
        ensures same { self.new.file ≡ self.old.file }

        ensures reads { ReadsUpTo (H.state shelf.old) (H.state shelf.new)
            (fetched_of self.old) (fetched_of self.new) }
        ensures shelf { ReadsFile self.old.file
            (H.state shelf.old) (H.state shelf.new) result }
    {
        let size = index.size();
        prove!(window.size() as u64 == size);
        self.ensure_next_byte(window, shelf)?;
        let file_end = shelf.length(self.file);
        let bytes = self.next_bytes(window, file_end, most.min(file_end - self.window_offset));
        let count = window.push_until(index, bytes) as u64;
        self.window_offset += count;
        Ok(count)
    }

    // Reads on if the file has a byte for the window to take next, and it isn't read yet.
    fn ensure_next_byte<H: Shelf>(
        &mut self,
        window: &Window,
        shelf: &mut H,
    ) -> Result<(), ReadFault>
        requires file { self.old.file < length (H.state shelf.old).lengths }
        requires inside { self.old.window_offset
            < slice_index (H.state shelf.old).lengths self.old.file }
        requires tied { IsTied (H.state shelf.old) window.now self.old }
        ensures tied { IsTied (H.state shelf.new) window.now self.new }
        ensures same { SameTrack self.old self.new }
        ensures next { OnOk result
            (next_offset window.now self.old < slice_index (H.state shelf.old).lengths self.old.file
            → next_offset window.now self.old < self.new.buffer_offset + self.new.buffer_len) }

        ensures reads { ReadsUpTo (H.state shelf.old) (H.state shelf.new)
            (fetched_of self.old) (fetched_of self.new) }
        ensures shelf { ReadsFile self.old.file
            (H.state shelf.old) (H.state shelf.new) result }
    {
        let at = self.window_offset + window.len() as u64;
        if at >= shelf.length(self.file) || at < self.buffer_offset + self.buffer_len as u64 {
            return Ok(());
        }
        self.refill(shelf)
    }

    // Reads on after all bytes that were read last are used up. After an error, none are held.
    fn refill<H: Shelf>(&mut self, shelf: &mut H) -> Result<(), ReadFault>
        requires file { self.old.file < length (H.state shelf.old).lengths }
        requires more { self.old.buffer_offset + self.old.buffer_len
            < slice_index (H.state shelf.old).lengths self.old.file }
        ensures on { IsReadOn self.old self.new }
        ensures some { OnOk result (0 < self.new.buffer_len) }
        ensures bytes { (files : List (List ℕ)) → ReadsAs (H.state shelf.new) files →
            HasBytes (file_of files self.old.file) self.new.buffer_offset
            (take self.new.buffer_len self.new.bytes) }

        ensures reads { ReadsUpTo (H.state shelf.old) (H.state shelf.new)
            (fetched_of self.old) (fetched_of self.new) }
        ensures shelf { ReadsFile self.old.file
            (H.state shelf.old) (H.state shelf.new) result }
    {
        let file_end = shelf.length(self.file);
        self.buffer_offset += self.buffer_len as u64;
        self.buffer_len = 0;
        let size = (file_end - self.buffer_offset).min(AHEAD as u64) as usize;
        match shelf.read_at(self.file, self.buffer_offset, &mut self.bytes[..size]) {
            Ok(0) => Err(ReadFault::Ended),
            Ok(count) => {
                self.buffer_len = count;
                Ok(())
            }
            Err(Failed) => Err(ReadFault::Failed),
        }
    }

    // Returns the bytes that the window takes next, at least one and at most `most`: those that
    // were read ahead in a file of length `file_end`, or zeros past its end.
    fn next_bytes(&self, window: &Window, file_end: u64, most: u64) -> &[u8]
        requires some { 0 < most }
        requires small { next_offset window.now self.now < 2 ^ 64 }
        requires fits { self.now.buffer_len ≤ ahead_limit }
        requires not_ahead { self.now.buffer_offset ≤ next_offset window.now self.now }
        requires next { next_offset window.now self.now < file_end
            → next_offset window.now self.now < self.now.buffer_offset + self.now.buffer_len }
        ensures some { 0 < length result.now }
        ensures within { length result.now ≤ most }
        ensures hand { next_offset window.now self.now < file_end
            → next_offset window.now self.now + length result.now
            ≤ self.now.buffer_offset + self.now.buffer_len }
        ensures bytes { AreNextBytes window.now self.now file_end result.now }
    {
        let at = self.window_offset + window.len() as u64;
        if at >= file_end {
            return at_most(&ZEROS, most);
        }
        at_most(
            &self.bytes[(at - self.buffer_offset) as usize..self.buffer_len],
            most,
        )
    }
}

// Returns the first of the bytes, at most `most`.
fn at_most(bytes: &[u8], most: u64) -> &[u8]
    ensures { result.now ≡ take (min (length bytes.now) most) bytes.now }
{
    &bytes[..(bytes.len() as u64).min(most) as usize]
}

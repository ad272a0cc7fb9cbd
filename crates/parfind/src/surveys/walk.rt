ghost use Rattle.std.specs.Prelude.{◌≡◌, ◌+◌, ◌-◌, ◌^◌, ◌≤◌, ◌<◌, ◌⊎◌, ◌||◌, ℕ, List, [], false, length, nat_le, nat_lt, replicate, None, IsTrue, IfErr};
ghost use Rattle.parfind.specs.Tracks.{IsUnread};
ghost use Rattle.parset.specs.Limits.{slice_size_limit};
ghost use Rattle.parshelf.specs.Shelf.{ReadsAs};
ghost use Rattle.parshelf.specs.Reads.{ReadsFile};
ghost use Rattle.parfind.specs.Handover.{HandsEachOnce, SkipsUnfit};
ghost use Rattle.parfind.specs.Marks.{missing_count};
ghost use Rattle.parfind.specs.Steps.{scan_of};
ghost use Rattle.parfind.specs.Surveys.{SurveyFinds, FindsUpToFault, KeepsFound, AreAllSettled, StopsOnceFound, ReadsNamed, is_settled, survey_point};
ghost use Rattle.parwindow.specs.Index.{set_has_fit};
ghost use Rattle.parwindow.specs.Missing.{missing_set};
ghost use Rattle.parfind.specs.Surveying.{SurveyEnds, survey_at};
ghost use Rattle.parfind.specs.Waiting.{is_waiting};
ghost use Rattle.parfind.specs.Expecting.{FitsAlso, SeesSighted, is_strict};
ghost use Rattle.parfind.specs.Smaller.{IsPart, part_of};
ghost use Rattle.parfind.specs.Sought.{IsWindowFor, sought_of};
ghost use Rattle.parfind.specs.declared.tracks.mode.Mode.TheVariants.{Tails};

use crate::surveys::exhausted::Exhausted;
use crate::surveys::expected::Expected;
use crate::surveys::short::Short;
use crate::surveys::smaller::Smaller;
use crate::tracks::{Sought, Track};
use parshelf::{ReadFault, Shelf};
use parwindow::Window;

/// Finds each slice of the set that has a sighting. The window is made for the smaller index, or for
/// the given one if there is none.
pub(crate) fn survey_by<H: Shelf>(
    sought: &Sought,
    smaller: &mut Smaller,
    shelf: &mut H,
    window: &mut Window,
    found: &mut [bool],
    short: &mut Short,
) -> Result<(), (u32, ReadFault)>
    requires alike { short.old.set.slice_size ≡ sought.now.set.slice_size }
    requires all { length found.old ≡ length short.old.set.slices }
    requires wider { FitsAlso (missing_set sought.now.set found.old)
        (missing_set short.old.set found.old) }
    requires made { IsWindowFor (sought_of (part_of sought.now.set smaller.old.index) sought.now.mode)
        window.old }
    requires each { length found.old ≡ length sought.now.set.slices }
    requires part { IsPart sought.now.set found.old (part_of sought.now.set smaller.old.index) }
    ensures found { (files : List (List ℕ)) → ReadsAs (H.state shelf.new) files →
        SurveyFinds (scan_of sought.now files) found.old found.new result }
    ensures seen { SeesSighted (H.state shelf.new) short.old short.new }
    ensures so_far { IsTrue (is_strict short.old) → IfErr result (λ fault. FindsUpToFault sought.now
        (survey_point (H.state shelf.old) found.old) (survey_point (H.state shelf.new) found.new)
        fault.0) }
    ensures stops { IsTrue (is_strict short.old) →
        (files : List (List ℕ)) → ReadsAs (H.state shelf.new) files →
        StopsOnceFound (scan_of sought.now files)
        (H.state shelf.old) (H.state shelf.new) found.old }
    ensures digests { IsTrue (is_strict short.old) →
        (files : List (List ℕ)) → ReadsAs (H.state shelf.new) files →
        window.new.digests ≤ window.old.digests
        + missing_count (scan_of sought.now files) found.old }
    ensures kept { KeepsFound found.old found.new }
    ensures shelf { ReadsNamed (H.state shelf.old) (H.state shelf.new) result }
    ensures handed { HandsEachOnce (H.state shelf.old) (H.state shelf.new) }
    ensures unfit { SkipsUnfit (missing_set short.old.set found.old)
        (H.state shelf.old) (H.state shelf.new) }
    ensures none { IsTrue (is_strict short.old) → AreAllSettled sought.now.set found.old
        → H.state shelf.new ≡ H.state shelf.old }
    ensures window { window.new ≡ record window.old {
      content = window.new.content;
      digests = window.new.digests;
    } }
{
    let size = sought.index.size();
    prove!(window.size() as u64 == size);
    window.clear();
    let mut track = Track::new(0, 0);
    match survey_files(sought, smaller, shelf, window, &mut track, found, short) {
        Ok(()) => Ok(()),
        Err(fault) => Err((track.file(), fault)),
    }
}

// Goes over all places from the first file on, until each slice is found or has no checksums, and
// no short slice is expected.
fn survey_files<H: Shelf>(
    sought: &Sought,
    smaller: &mut Smaller,
    shelf: &mut H,
    window: &mut Window,
    track: &mut Track,
    found: &mut [bool],
    short: &mut Short,
) -> Result<(), ReadFault>
    requires alike { short.old.set.slice_size ≡ sought.now.set.slice_size }
    requires all { length found.old ≡ length short.old.set.slices }
    requires wider { FitsAlso (missing_set sought.now.set found.old)
        (missing_set short.old.set found.old) }
    requires made { IsWindowFor (sought_of (part_of sought.now.set smaller.old.index) sought.now.mode)
        window.old }
    requires each { length found.old ≡ length sought.now.set.slices }
    requires part { IsPart sought.now.set found.old (part_of sought.now.set smaller.old.index) }
    requires small { window.old.capacity ≤ slice_size_limit }
    requires empty { window.old.content ≡ [] }
    requires unread { IsUnread 0 0 track.old }
    ensures ends { SurveyEnds short.old sought.now
        (survey_at (H.state shelf.old) window.old found.old track.old)
        (survey_at (H.state shelf.new) window.new found.new track.new) result }
    ensures seen { SeesSighted (H.state shelf.new) short.old short.new }
    ensures shelf { ReadsFile track.new.file (H.state shelf.old) (H.state shelf.new) result }
    ensures window { window.new ≡ record window.old {
      content = window.new.content;
      digests = window.new.digests;
    } }
{
    let least = least_missing(sought, found);
    let mut exhausted = Exhausted::none();
    let mut expected = Expected::none();
    let mut missing = next_missing(sought, found, 0);
    let size = short.size();
    let mut waits = short.misses_files(found);
    'places: while is_open(missing, found.len(), &expected, waits) && track.file() < shelf.count() {
        let left = track.rest(shelf);
        if is_passed(left, least, size, &expected, waits) {
            let next = track.file() + 1;
            track.enter_file(window, next, 0);
            exhausted.forget();
            expected.forget();
            short.enter_file();
            continue;
        }
        track.fill(window, shelf)?;
        let part = Sought {
            index: smaller.or(sought.index),
            mode: sought.mode,
        };
        exhausted.note_seen(window, &part, left, found);
        let offset = track.window_offset;
        short.look(&mut expected, window, offset, left);
        short.expect_after(&mut exhausted.noted, &mut expected, offset, left);
        missing = next_missing(sought, found, missing);
        waits = short.misses_files(found);
        if !is_open(missing, found.len(), &expected, waits) {
            break;
        }
        let most = expected
            .distance(offset)
            .min(short.distance(window, offset));
        track.slide_until_crc(window, smaller.or(sought.index), shelf, most)?;
        shrink_if_in_vain(sought, smaller, &mut exhausted, found);
    }
    Ok(())
}

// Whether a slice is still looked for or expected, or a file is missing that is shorter than a
// slice.
fn is_open(missing: usize, count: usize, expected: &Expected, waits: bool) -> bool
    ensures { result ≡ (nat_lt missing count || (is_waiting expected.now || waits)) }
{
    missing < count || expected.is_waiting() || waits
}

// Whether no slice can be seen in what is left of a file: each missing one has at least `least`
// bytes, and none is expected. A missing file that is shorter than a slice is looked for as long as
// a whole slice fits into what is left.
fn is_passed(left: u64, least: u64, size: u64, expected: &Expected, waits: bool) -> bool
    requires some { 0 < least }
    requires sized { 0 < size }
    ensures passed { IsTrue result → left < least }
    ensures ahead { result ≡ false → (0 < left)
        × ((least ≤ left) ⊎ (IsTrue (is_waiting expected.now) ⊎ (IsTrue waits × (size ≤ left)))) }
{
    left < least && (left == 0 || !(expected.is_waiting() || (waits && size <= left)))
}

// Makes a smaller index when lookups in vain have cost more than it costs to make one.
fn shrink_if_in_vain(
    sought: &Sought,
    smaller: &mut Smaller,
    exhausted: &mut Exhausted,
    found: &[bool],
)
    requires each { length found.now ≡ length sought.now.set.slices }
    requires part { IsPart sought.now.set found.now (part_of sought.now.set smaller.old.index) }
    ensures part { IsPart sought.now.set found.now (part_of sought.now.set smaller.new.index) }
    ensures tails { sought.now.mode ≡ Tails → smaller.new.index ≡ smaller.old.index }
    ensures crcs { (exhausted.new.crcs ≡ replicate 257 None)
        ⊎ ((exhausted.new.crcs ≡ exhausted.old.crcs) × (smaller.new.index ≡ smaller.old.index)) }
{
    if exhausted.in_vain > u64::from(sought.index.slices()) / 2 + 1024 {
        exhausted.in_vain = 0;
        if smaller.shrink(sought, found) {
            exhausted.forget();
        }
    }
}

/// Returns the unpadded length of the shortest slice that isn't found and has checksums; the
/// greatest number, if there is no such slice.
pub(crate) fn least_missing(sought: &Sought, found: &[bool]) -> u64
    requires { length found.now ≡ length sought.now.set.slices }
    ensures some { 0 < result }
    ensures least { (left : ℕ) → left < 2 ^ 64 - 1
        → set_has_fit (missing_set sought.now.set found.now) left ≡ nat_le result left }
{
    let mut least = u64::MAX;
    for number in 0..sought.index.slices() {
        if !found[number as usize] && sought.index.has_sums(number) {
            least = least.min(sought.index.own_length(number));
        }
    }
    least
}

/// Returns the first slice from a number on that isn't found and has checksums; the number of all
/// slices, if there is none.
pub(crate) fn next_missing(sought: &Sought, found: &[bool], from: usize) -> usize
    requires each { length found.now ≡ length sought.now.set.slices }
    requires from { from ≤ length found.now }
    ensures onward { from ≤ result }
    ensures within { result ≤ length found.now }
    ensures missing { result < length found.now
        → is_settled sought.now.set found.now result ≡ false }
    ensures settled { (n : ℕ) → from ≤ n → n < result
        → IsTrue (is_settled sought.now.set found.now n) }
{
    let count = sought.index.slices() as usize;
    let mut number = from;
    while number < count && (found[number] || !sought.index.has_sums(number as u32)) {
        number += 1;
    }
    number
}

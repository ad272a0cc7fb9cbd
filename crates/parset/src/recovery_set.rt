ghost use Rattle.std.specs.Prelude.{◌≡◌, ◌+◌, ◌%◌, ◌<◌, ◌≤◌, length, map, option_map, IfSome};
ghost use Rattle.std.specs.List.{All, IsDistinct, flat_map};
ghost use Rattle.std.specs.List.Sorted.{IsStrictlySortedBy};
ghost use Rattle.std.specs.Str.{bytes_eq};
ghost use Rattle.parfield.specs.HashOrder.{id_cmp};
ghost use Rattle.parset.specs.Limits.{exponent_limit, file_limit, slice_limit, slice_size_limit};
ghost use Rattle.parset.specs.SetLimits.{HasFileLimits, HasTextLimits};
ghost use Rattle.parset.specs.Slices.{numbers_of_file};

use crate::bodies::Aside;
use parfield::{Hash16, Sequence};
use std::alloc::AllocError;
use std::marker::Model;

/// A file of a recovery set.
#[derive(Debug, Drop)]
pub struct SetFile {
    /// The file ID.
    pub id: Hash16,
    /// The name, of 1 to 4,096 bytes that are not 0.
    pub name: Sequence<u8>,
    /// The length in bytes.
    pub length: u64,
    /// The MD5 of the whole file.
    pub whole: Hash16,
    /// Whether the checksums of its slices are known.
    pub known: bool,
}

/// A slice of a file of a recovery set.
#[derive(Clone, Copy, Debug, PartialEq, Eq)]
pub struct SetSlice {
    /// The ID of the slice's file.
    pub id: Hash16,
    /// The slice's number within the file, from 0.
    pub number: u32,
    /// How many bytes of the file the slice has: the slice size, or for the
    /// last slice what is left.
    pub length: u64,
    /// The MD5 and the CRC-32 of the slice, filled up with zeros to the slice
    /// size, if they are known.
    pub sums: Option<(Hash16, u32)>,
}

/// A packet of the set whose body is not usable.
#[derive(Clone, Copy, Debug, PartialEq, Eq)]
pub struct SetAside {
    /// The number of the packet file, in the order of the packet files, from 0.
    pub file: u32,
    /// The offset of the packet in that file.
    pub at: u64,
    /// The first reason why its body is not usable.
    pub reason: Aside,
}

/// Why packets describe no recovery set, in the order in which it is tested. `Memory` may
/// come before any other.
#[derive(Clone, Copy, Debug, PartialEq, Eq)]
pub enum SetFault {
    /// There is no usable Main packet, or none of the chosen set.
    NoMain,
    /// A file of the set has no usable FileDesc packet. Of several such file IDs this is the least.
    NoDesc(Hash16),
    /// Two files of the set have the same name. This is the least file ID whose
    /// name a smaller ID has.
    NameTwice(Hash16),
    /// The files have more than 32,768 slices together.
    TooManySlices,
    /// Memory was refused.
    Memory,
}

impl From<AllocError> for SetFault {
    ghost use Rattle.parset.specs.declared.recovery_set.SetFault.TheVariants as faults;

    ghost from_gives = { λ _ fault. fault ≡ faults.Memory };

    fn from(_error: AllocError) -> SetFault {
        SetFault::Memory
    }
}

/// A recovery set that packets describe.
#[derive(Drop)]
pub struct RecoverySet {
    pub(crate) id: Hash16,
    pub(crate) size: u64,
    pub(crate) files: Vec<SetFile>,
    pub(crate) slices: Vec<SetSlice>,
    pub(crate) others: u32,
    pub(crate) have: u32,
    pub(crate) creator: Option<Sequence<u8>>,
    pub(crate) aside: Sequence<SetAside>,
}

impl Model for RecoverySet {
    ghost use Rattle.std.specs.Prelude.{◌≡◌, ◌+◌, ◌%◌, ◌<◌, ◌≤◌, length, map, IfSome};
    ghost use Rattle.std.specs.List.{All, IsDistinct};
    ghost use Rattle.std.specs.List.Sorted.{IsStrictlySortedBy};
    ghost use Rattle.std.specs.Str.{bytes_eq};
    ghost use Rattle.parfield.specs.HashOrder.{id_cmp};
    ghost use Rattle.parset.specs.Limits.{exponent_limit, file_limit, slice_limit};
    ghost use Rattle.parset.specs.Limits.{slice_size_limit};
    ghost use Rattle.parset.specs.RecoverySet.{SetView};
    ghost use Rattle.parset.specs.SetLimits.{HasFileLimits, HasTextLimits};
    ghost use Rattle.parset.specs.Slices.{AreNumbered};

    ghost Value = { SetView };

    ghost view = { λ s. record {
      id = s.id;
      size = s.size;
      files = s.files.items;
      slices = s.slices.items;
      others = s.others;
      have = s.have;
      creator = s.creator;
      aside = s.aside;
    } };

    ghost invariant = { λ s. record {
      size : (4 ≤ s.size) × (s.size ≤ slice_size_limit);
      multiple : s.size % 4 ≡ 0;
      files : length s.files.items ≤ file_limit;
      limits : All (λ f. HasFileLimits f.length f.name) s.files.items;
      names : IsDistinct bytes_eq (map (λ f. f.name) s.files.items);
      rising : IsStrictlySortedBy id_cmp (map (λ f. f.id) s.files.items);
      slices : length s.slices.items ≤ slice_limit;
      lengths : All (λ x. (0 < x.length) × (x.length ≤ s.size)) s.slices.items;
      numbered : AreNumbered s.size s.files.items s.slices.items;
      others : s.others ≤ file_limit;
      all_ids : length s.files.items + s.others ≤ file_limit;
      have : s.have ≤ exponent_limit + 1;
      creator : IfSome s.creator HasTextLimits;
    } };
}

impl RecoverySet {
    /// Returns the recovery set ID.
    pub fn id(&self) -> Hash16
        ensures { result ≡ self.now.id }
    {
        self.id
    }

    /// Returns the slice size in bytes.
    pub fn size(&self) -> u64
        ensures field { result ≡ self.now.size }
        ensures bounds { (4 ≤ result) × (result ≤ slice_size_limit) }
        ensures multiple { result % 4 ≡ 0 }
    {
        self.size
    }

    /// Lends the files of the recovery set, sorted by ID.
    pub fn files(&self) -> &[SetFile]
        ensures field { result.now ≡ self.now.files }
        ensures few { length result.now ≤ file_limit }
        ensures limits { All (λ f. HasFileLimits f.length f.name) result.now }
        ensures names { IsDistinct bytes_eq (map (λ f. f.name) result.now) }
        ensures rising { IsStrictlySortedBy id_cmp (map (λ f. f.id) result.now) }
    {
        self.files.as_slice()
    }

    /// Lends the slices of all files, sorted by file ID and number.
    #[tactic(auto, unfolding(crate::specs::Slices::AreNumbered))]
    pub fn slices(&self) -> &[SetSlice]
        ensures field { result.now ≡ self.now.slices }
        ensures few { length result.now ≤ slice_limit }
        ensures lengths { All (λ s. (0 < s.length) × (s.length ≤ self.now.size)) result.now }
        ensures numbered { map (λ s. (s.id, s.number)) result.now
            ≡ flat_map (numbers_of_file self.now.size) self.now.files }
    {
        self.slices.as_slice()
    }

    /// Returns the number of non-recovery files.
    pub fn others(&self) -> u32
        ensures field { result ≡ self.now.others }
        ensures few { result ≤ file_limit }
        ensures all_ids { length self.now.files + result ≤ file_limit }
    {
        self.others
    }

    /// Returns the number of distinct exponents that the usable recovery slices have.
    pub fn have(&self) -> u32
        ensures field { result ≡ self.now.have }
        ensures few { result ≤ exponent_limit + 1 }
    {
        self.have
    }

    /// Lends the text of the client that made the set, if there is one.
    pub fn creator(&self) -> Option<&[u8]>
        ensures field { option_map (λ text. text.now) result ≡ self.now.creator }
        ensures limits { IfSome result (λ text. HasTextLimits text.now) }
    {
        match &self.creator {
            Some(text) => Some(text.as_slice()),
            None => None,
        }
    }

    /// Lends the packets of the set whose bodies are not usable, in the order of the packets that
    /// the set was made of.
    pub fn aside(&self) -> &[SetAside]
        ensures { result.now ≡ self.now.aside }
    {
        self.aside.as_slice()
    }
}

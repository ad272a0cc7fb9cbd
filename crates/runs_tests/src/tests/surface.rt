// The public calls and types of the libraries, by their paths, so that a caller sees where to look
// and a name that goes is missed. Names that only other libraries use are left out.
pub use parfield::{Hash16, Header, HeaderFault, Kind, Packet, header, packet_at, show_name};
pub use parfind::{
    Answer, Call, Cursor, CursorFault, CursorText, Drive, Finder, Foreign, Mode, Sighting, Step,
    SurveyFault, drive, read_cursor, split_cursor, survey, survey_in,
};
pub use parreport::{
    Cause, Command, End, MemSink, Plan, PlanFault, RunFault, Scanned, Sink, Status, WriteSink,
    ending, plan, run, run_opened,
};
pub use parsalvage::{Kept, KeptBody, SalvageFault, kept_of, salvage, salvage_file};
pub use parset::{
    Aside, BodyFault, RecoverySet, SetAside, SetFault, SetFile, SetSlice, build, creator_body,
    desc_body, ifsc_body, main_body, slice_body,
};
pub use parshelf::{
    DiskShelf, Failed, MemShelf, Named, OpenFault, ReadFault, Shelf, digest_of, fill, list_mark,
};
pub use parwindow::{Index, Window, crc32};

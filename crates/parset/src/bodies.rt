//! Bodies of PAR2 packets: the fields of each, or the first reason why it is not usable.
//!
//! The lowest modules come first: `aside` has the reasons, and `body_bytes` tests the length
//! of a body, reads numbers and hashes from it, copies bytes and trims zero bytes at their
//! end. Above them there is a module for each kind of body, with its reader and the reasons in
//! the order in which they are tested: `main_packet`, `description`, `checksums`,
//! `recovery_slice` and `creator`.

mod aside;
mod body_bytes;
mod checksums;
mod creator;
mod description;
mod main_packet;
mod recovery_slice;

pub use crate::bodies::aside::{Aside, BodyFault};
pub(crate) use crate::bodies::body_bytes::copied;
pub(crate) use crate::bodies::checksums::{SLICES_LIMIT, checksums_reason};
pub use crate::bodies::checksums::{Ifsc, ifsc_body};
pub use crate::bodies::creator::creator_body;
pub(crate) use crate::bodies::creator::creator_reason;
pub(crate) use crate::bodies::description::description_reason;
pub use crate::bodies::description::{Desc, desc_body};
pub(crate) use crate::bodies::main_packet::main_reason;
pub use crate::bodies::main_packet::{Main, main_body};
pub(crate) use crate::bodies::recovery_slice::EXPONENT_LIMIT;
pub use crate::bodies::recovery_slice::slice_body;

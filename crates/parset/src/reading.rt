ghost use Rattle.std.specs.Prelude.{◌≡◌, true, Option, None, is_some, IfErr, IfOk};
ghost use Rattle.parfield.specs.declared.kind.Kind.TheVariants as kind;
ghost use Rattle.parset.specs.Choosing.{aside_of, creator_of};
ghost use Rattle.parset.specs.PacketFields.{usable_checksums, usable_creator_text};
ghost use Rattle.parset.specs.PacketFields.{usable_description};
ghost use Rattle.parset.specs.PacketFields.{usable_exponent, usable_main, reason_of, usable_fields};
ghost use Rattle.parset.specs.BodyAnswers.{AnswersBodyAfter};
ghost use Rattle.parset.specs.declared.bodies.aside.Aside.{Aside};

use crate::bodies::{
    Aside, BodyFault, Desc, Ifsc, Main, checksums_reason, creator_body, creator_reason, desc_body,
    description_reason, ifsc_body, main_body, main_reason, slice_body,
};
use crate::recovery_set::SetAside;
use parfield::{Hash16, Kind, Sequence};
use parsalvage::{Kept, KeptBody};
use std::alloc::{AllocError, Global};

/// Reads the fields of a usable Main packet; `None` for any other packet.
pub fn read_main(alloc: Global, kept: &Kept) -> Result<Option<Main>, AllocError>
    ensures { IfOk result (λ found. found ≡ usable_main kept.now.kind kept.now.body kept.now.set) }
{
    match (kept.kind, &kept.body) {
        (Kind::Main, KeptBody::Whole(body)) => usable_fields(main_body(
            alloc,
            body.as_slice(),
            kept.set,
        )),
        _ => Ok(None),
    }
}

/// Reads the fields of a usable FileDesc packet; `None` for any other packet.
pub fn read_description(alloc: Global, kept: &Kept) -> Result<Option<Desc>, AllocError>
    ensures found { IfOk result (λ found. found ≡ usable_description kept.now.kind kept.now.body) }
    ensures memory { IfErr result (λ _.
        is_some (usable_description kept.now.kind kept.now.body) ≡ true) }
{
    match (kept.kind, &kept.body) {
        (Kind::FileDesc, KeptBody::Whole(body)) => usable_fields(desc_body(alloc, body.as_slice())),
        _ => Ok(None),
    }
}

/// Reads the fields of a usable IFSC packet; `None` for any other packet.
pub fn read_checksums(alloc: Global, kept: &Kept) -> Result<Option<Ifsc>, AllocError>
    ensures found { IfOk result (λ found. found ≡ usable_checksums kept.now.kind kept.now.body) }
    ensures memory { IfErr result (λ _.
        is_some (usable_checksums kept.now.kind kept.now.body) ≡ true) }
{
    match (kept.kind, &kept.body) {
        (Kind::Ifsc, KeptBody::Whole(body)) => usable_fields(ifsc_body(alloc, body.as_slice())),
        _ => Ok(None),
    }
}

/// Reads the text of a usable Creator packet; `None` if it is empty, and for any other packet.
pub fn read_creator(alloc: Global, kept: &Kept) -> Result<Option<Sequence<u8>>, AllocError>
    ensures text { IfOk result (λ text. text ≡ creator_of kept.now) }
    ensures memory { IfErr result (λ _.
        is_some (usable_creator_text kept.now.kind kept.now.body) ≡ true) }
{
    match (kept.kind, &kept.body) {
        (Kind::Creator, KeptBody::Whole(body)) => {
            let text = usable_fields(creator_body(alloc, body.as_slice()))?;
            Ok(text.filter(|text| !text.is_empty()))
        }
        _ => Ok(None),
    }
}

/// Reads the exponent of a RecvSlic packet that is usable with this slice size; `None`
/// for any other packet.
pub fn read_exponent(kept: &Kept, size: u64) -> Option<u32>
    ensures { result ≡ usable_exponent size kept.now.kind kept.now.body }
{
    match kept.kind {
        Kind::RecvSlic => slice_body(kept.body.front(), kept.body.len(), size).ok(),
        _ => None,
    }
}

/// Returns the packet's file and offset and the reason, if the packet is rejected in a
/// set of this slice size.
pub fn read_aside(alloc: Global, kept: &Kept, size: u64) -> Result<Option<SetAside>, AllocError>
    ensures aside { IfOk result (λ found. found ≡ aside_of size kept.now) }
    ensures memory { IfErr result (λ _. kept.now.kind ≡ kind.Main) }
{
    let reason = reason_of(alloc, kept, size)?;
    Ok(reason.map(|reason| SetAside {
        file: kept.file,
        at: kept.at,
        reason,
    }))
}

// Returns the reason why the body is not usable in a set of this slice size, or `None` if it is.
fn reason_of(alloc: Global, kept: &Kept, size: u64) -> Result<Option<Aside>, AllocError>
    ensures reason { IfOk result (λ found. found
        ≡ reason_of size kept.now.kind kept.now.body kept.now.set) }
    ensures memory { IfErr result (λ _. kept.now.kind ≡ kind.Main) }
{
    match (kept.kind, &kept.body) {
        (Kind::Other(_), _) => Ok(None),
        (Kind::RecvSlic, body) => Ok(slice_body(body.front(), body.len(), size).err()),
        (_, KeptBody::Front { .. }) => Ok(Some(Aside::OverLimit)),
        (Kind::Main, KeptBody::Whole(body)) => main_reason(alloc, body.as_slice(), kept.set),
        (Kind::FileDesc, KeptBody::Whole(body)) => Ok(description_reason(body.as_slice())),
        (Kind::Ifsc, KeptBody::Whole(body)) => Ok(checksums_reason(body.as_slice())),
        (Kind::Creator, KeptBody::Whole(body)) => Ok(creator_reason(body.as_slice())),
    }
}

// Returns the fields that a body reader read, or `None` if the body is not usable.
fn usable_fields<T: Drop>(answer: Result<T, BodyFault>) -> Result<Option<T>, AllocError>
    ensures found { (early reason : Option Aside) (fields : T)
        → AnswersBodyAfter early reason fields answer
        → IfOk result (λ found. found ≡ usable_fields reason fields) }
    ensures memory { (early reason : Option Aside) (fields : T)
        → AnswersBodyAfter early reason fields answer
        → IfErr result (λ _. is_some (usable_fields early fields) ≡ true) }
{
    match answer {
        Ok(fields) => Ok(Some(fields)),
        Err(BodyFault::Aside(_)) => Ok(None),
        Err(BodyFault::Memory) => Err(AllocError),
    }
}

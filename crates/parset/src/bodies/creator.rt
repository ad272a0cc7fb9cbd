ghost use Rattle.std.specs.Prelude.{◌≡◌};
ghost use Rattle.parset.specs.Bodies.{creator_text_of};
ghost use Rattle.parset.specs.BodyAnswers.{AnswersBody};
ghost use Rattle.parset.specs.Reasons.{creator_reason};

use crate::bodies::aside::{Aside, BodyFault};
use crate::bodies::body_bytes::{copied, is_over_limit, trimmed};
use parfield::Sequence;
use std::alloc::Global;

/// Reads the text of a Creator body, or returns the first reason why it isn't usable.
#[tactic(auto, unfolding(crate::specs::Bodies::creator_text_of))]
pub fn creator_body(alloc: Global, body: &[u8]) -> Result<Sequence<u8>, BodyFault>
    ensures answer { AnswersBody (creator_reason body.now) (creator_text_of body.now) result }
{
    if let Some(reason) = creator_reason(body) {
        return Err(reason.into());
    }
    Ok(copied(alloc, trimmed(body))?)
}

/// Returns the first reason why a Creator body is not usable, or `None` if it is.
#[tactic(auto, unfolding(crate::specs::Reasons::creator_reason))]
pub(crate) fn creator_reason(body: &[u8]) -> Option<Aside>
    ensures { result ≡ creator_reason body.now }
{
    is_over_limit(body).then_some(Aside::OverLimit)
}

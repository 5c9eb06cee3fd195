//! What a sweep keeps of a program, for people: what is known on entry to each instruction, and the verdict.

ghost use Rattle.std.specs.Prelude.{◌≡◌, IfOk, IfErr};
ghost use Rattle.semantics.specs.Safety.{IsSafeImage};
ghost use Rattle.verifier.specs.Dataflow.{IsFirstReject};
ghost use Rattle.verifier.specs.Surveys.{IsSurvey};
ghost use Rattle.verifier.specs.Swept.{lacks_memory};

use crate::keeping::KeepsAll;
use crate::reject::Reject;
use crate::resolved::Memory;
use crate::sweep::judge;
use abstract_state::State;
use ebpf_decode::Image;
use ebpf_decode::image::MAX_SLOTS;
use std::alloc::{AllocError, Global};

/// What is known along a program, and its verdict.
#[derive(Drop)]
pub struct Survey {
    /// On entry to each instruction, in order, up to the one that breaks a rule: nothing where no path leads. Of a program without
    /// structure nothing is known.
    pub known: Vec<Option<State>>,
    /// Of a program that may run, whether it only reads; else the first rule that it breaks.
    pub verdict: Result<bool, Reject>,
}

/// Whether memory was refused.
fn lacks_memory(verdict: Result<bool, Reject>) -> bool
    ensures { result ≡ lacks_memory verdict }
{
    matches!(verdict, Err(Reject::Memory))
}

/// Judges a program as `verify` does, and keeps what is known along it. It can fail only for lack of memory: it asks for two kilobytes an
/// instruction.
pub fn survey_of(alloc: Global, image: &Image) -> Result<Survey, AllocError>
    ensures survey { IfOk result (IsSurvey image.now.version image.now.maps image.now.code) }
    ensures rejected { IfOk result (λ survey. IfErr survey.verdict (IsFirstReject image.now.version image.now.maps image.now.code)) }
    ensures safe { IfOk result (λ survey. IfOk survey.verdict (λ _. IsSafeImage image.now.maps image.now.code)) }
{
    let mut memories = [Memory::Nowhere; MAX_SLOTS];
    let mut keeper = KeepsAll::new(alloc);
    let verdict = judge(alloc, image, &mut memories, &mut keeper);
    let KeepsAll { known, is_refused } = keeper;
    if is_refused {
        return Err(AllocError);
    }
    if lacks_memory(verdict) {
        return Err(AllocError);
    }
    Ok(Survey { known, verdict })
}

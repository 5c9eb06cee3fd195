//! What holds of the shipped program, as contracts of functions that do nothing.

ghost use Rattle.std.specs.Prelude.{IsTrue, ◌≡◌};
ghost use Rattle.ebpf_decode.specs.InstructionEncoding.{total_slots};
ghost use Rattle.steer.specs.BlockForm.{are_blocks};
ghost use Rattle.steer.specs.ShippedProgram.{shipped_blocks, code_of};
ghost use Rattle.steer.specs.PartLaws.{FlowDoesItsPart, VipDoesItsPart, GuardsDoTheirPart, TrackingDoesItsPart};
ghost use Rattle.steer.specs.PartLaws.{RingDoesItsPart, TunnelDoesItsPart, CountDoesItsPart, PassIsCounted, DropIsCounted};
ghost use Rattle.steer.specs.SteeringLaws.{ShippedSteers, ExitedRunsAreResults};

/// The program is a list of blocks of at most 64 instructions, whose jumps leave a block only for the start of a later one; it takes 219
/// slots.
pub fn comes_in_blocks(size: u32)
    ensures blocks { IsTrue (are_blocks 0 (shipped_blocks size)) }
    ensures slots { total_slots (code_of (shipped_blocks size)) ≡ 219 }
{
    let _ = size;
}

/// The program carries out the steering rule: on each input frame, worker, time, number of notes and number of shards, and on all replies
/// that have their calls' form, its calls, verdict and frame are those of the rule's plan; where the run is over, it is a result of the rule.
pub fn steers()
    ensures plan { ShippedSteers }
    ensures results { ExitedRunsAreResults }
{}

/// What each of the program's seven parts does: from its start on, the program does what is left there of the rule's plan.
pub fn parts_do_their_share()
    ensures flow { FlowDoesItsPart }
    ensures vip { VipDoesItsPart }
    ensures guards { GuardsDoTheirPart }
    ensures tracking { TrackingDoesItsPart }
    ensures ring { RingDoesItsPart }
    ensures tunnel { TunnelDoesItsPart }
    ensures count { CountDoesItsPart }
    ensures count_of_pass { PassIsCounted }
    ensures count_of_drop { DropIsCounted }
{}

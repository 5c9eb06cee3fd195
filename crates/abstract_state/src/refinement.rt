//! Conditional jumps: which tests are allowed, and what is known on their two edges.

ghost use Rattle.std.specs.Prelude.{◌≡◌};
ghost use Rattle.abstract_state.specs.Refinement.{is_null_test, is_order, against_scalar, against_end, against_packet, allowed_test};
ghost use Rattle.abstract_state.specs.Refinement.{is_equal_edge, range_before_end, range_after_end, fact_of_end, fact_of, cut_kind};
ghost use Rattle.abstract_state.specs.Refinement.{number_cut, refined, refine_state};

use crate::arithmetic::blamed;
use crate::broken_rule::BrokenRule;
use crate::fact::Fact;
use crate::kind::Kind;
use crate::state::State;
use abstract_scalar::Interval;
use isa::{Register, SourceOperand, Test, Width};

/// Whether whole registers are tested for being 0, or not 0.
fn is_null_test(width: Width, test: Test, source: SourceOperand) -> bool
    ensures { result ≡ is_null_test width test source }
{
    match (width, test, source) {
        (Width::Bits64, Test::Eq, SourceOperand::Imm(immediate)) => immediate == 0,
        (Width::Bits64, Test::Ne, SourceOperand::Imm(immediate)) => immediate == 0,
        _ => false,
    }
}

/// Whether the test is an unsigned order of whole registers.
fn is_order(width: Width, test: Test) -> bool
    ensures { result ≡ is_order width test }
{
    matches!(
        (width, test),
        (Width::Bits64, Test::Gt)
            | (Width::Bits64, Test::Ge)
            | (Width::Bits64, Test::Lt)
            | (Width::Bits64, Test::Le)
    )
}

/// The second operand has to be a number.
fn against_scalar(other: Kind, source: Register) -> Result<(), BrokenRule>
    ensures { result ≡ against_scalar other source }
{
    match other {
        Kind::Scalar(_) => Ok(()),
        _ => Err(BrokenRule::WrongKind(source)),
    }
}

/// The second operand has to be the packet's end.
fn against_end(other: Kind, source: Register) -> Result<(), BrokenRule>
    ensures { result ≡ against_end other source }
{
    match other {
        Kind::PacketEnd => Ok(()),
        _ => Err(BrokenRule::WrongKind(source)),
    }
}

/// The second operand has to point into the packet.
fn against_packet(other: Kind, source: Register) -> Result<(), BrokenRule>
    ensures { result ≡ against_packet other source }
{
    match other {
        Kind::Packet { .. } => Ok(()),
        _ => Err(BrokenRule::WrongKind(source)),
    }
}

/// Whether the kinds may be tested so: 36, of the destination or of the source.
pub(crate) fn allowed_test(
    width: Width,
    test: Test,
    kind: Kind,
    other: Kind,
    dst: Register,
    source: SourceOperand,
) -> Result<(), BrokenRule>
    ensures { result ≡ allowed_test width test kind other dst source }
{
    let is_allowed = match kind {
        Kind::Scalar(_) => true,
        Kind::ValueOrNull { .. } => is_null_test(width, test, source),
        Kind::Packet { .. } => is_order(width, test),
        Kind::PacketEnd => is_order(width, test),
        _ => false,
    };
    if !is_allowed {
        return Err(BrokenRule::WrongKind(dst));
    }
    match kind {
        Kind::Scalar(_) => against_scalar(other, blamed(dst, source)),
        Kind::Packet { .. } => against_end(other, blamed(dst, source)),
        Kind::PacketEnd => against_packet(other, blamed(dst, source)),
        _ => Ok(()),
    }
}

/// Whether the edge is the one where the two are equal.
fn is_equal_edge(test: Test, taken: bool) -> bool
    ensures { result ≡ is_equal_edge test taken }
{
    match test {
        Test::Eq => taken,
        _ => !taken,
    }
}

/// What an edge says of a packet pointer that was tested against the packet's end.
fn range_before_end(test: Test, taken: bool, id: u16, off: u16) -> Fact
    ensures { result ≡ range_before_end test taken id off }
{
    let range = u32::from(off);
    match (test, taken) {
        (Test::Gt, false) => Fact::Range { id, range },
        (Test::Ge, false) => Fact::Range {
            id,
            range: range + 1,
        },
        (Test::Lt, true) => Fact::Range {
            id,
            range: range + 1,
        },
        (Test::Le, true) => Fact::Range { id, range },
        _ => Fact::Nothing,
    }
}

/// What an edge says of a packet pointer against which the packet's end was tested.
fn range_after_end(test: Test, taken: bool, id: u16, off: u16) -> Fact
    ensures { result ≡ range_after_end test taken id off }
{
    let range = u32::from(off);
    match (test, taken) {
        (Test::Gt, true) => Fact::Range {
            id,
            range: range + 1,
        },
        (Test::Ge, true) => Fact::Range { id, range },
        (Test::Lt, false) => Fact::Range { id, range },
        (Test::Le, false) => Fact::Range {
            id,
            range: range + 1,
        },
        _ => Fact::Nothing,
    }
}

/// What an edge says of all copies of a pointer.
fn fact_of(test: Test, taken: bool, kind: Kind, other: Kind) -> Fact
    ensures { result ≡ fact_of test taken kind other }
{
    match kind {
        Kind::ValueOrNull { id, .. } => Fact::Null {
            id,
            is_null: is_equal_edge(test, taken),
        },
        Kind::Packet { id, off, .. } => range_before_end(test, taken, id, off),
        Kind::PacketEnd => fact_of_end(test, taken, other),
        _ => Fact::Nothing,
    }
}

/// The same where the packet's end was tested.
fn fact_of_end(test: Test, taken: bool, other: Kind) -> Fact
    ensures { result ≡ fact_of_end test taken other }
{
    match other {
        Kind::Packet { id, off, .. } => range_after_end(test, taken, id, off),
        _ => Fact::Nothing,
    }
}

/// What an edge says of a number that was tested against another.
fn cut_kind(width: Width, test: Test, taken: bool, i: Interval, other: Kind) -> Kind
    ensures { result ≡ cut_kind width test taken i other }
{
    match other {
        Kind::Scalar(j) => {
            if j.is_constant() {
                Kind::Scalar(abstract_scalar::refine(width, test, i, j.low, taken))
            } else {
                Kind::Scalar(i)
            }
        }
        _ => Kind::Scalar(i),
    }
}

impl State {
    /// What is known on the edge where an allowed test is taken, or on the one where it isn't: a number is cut by a single
    /// number; a null test makes every copy of the lookup's answer 0, or a value; a test against the packet's end says how far
    /// the packet reaches past the base of the pointer's id.
    pub fn refine(
        mut self,
        width: Width,
        test: Test,
        dst: Register,
        source: SourceOperand,
        taken: bool,
    ) -> State
        ensures { result ≡ refine_state self width test dst source taken }
    {
        self.learn(width, test, dst, source, taken);
        self
    }

    /// The same in place.
    pub(crate) fn learn(
        &mut self,
        width: Width,
        test: Test,
        dst: Register,
        source: SourceOperand,
        taken: bool,
    )
        ensures { self.new ≡ refine_state self.old width test dst source taken }
    {
        let kind = self.kind(dst);
        let other = self.source(source);
        self.cut_or_tell(
            number_cut(width, test, taken, kind, other),
            fact_of(test, taken, kind, other),
            dst,
        );
    }

    /// Cuts a number, or else applies a fact to all copies of a pointer.
    fn cut_or_tell(&mut self, cut: Option<Kind>, fact: Fact, dst: Register)
        ensures { self.new ≡ refined cut fact self.old dst }
    {
        match cut {
            Some(kind) => self.set(dst, kind),
            None => self.tell(fact),
        }
    }
}

/// What an edge says of a number; nothing where the first operand is none.
fn number_cut(width: Width, test: Test, taken: bool, kind: Kind, other: Kind) -> Option<Kind>
    ensures { result ≡ number_cut width test taken kind other }
{
    match kind {
        Kind::Scalar(i) => Some(cut_kind(width, test, taken, i, other)),
        _ => None,
    }
}

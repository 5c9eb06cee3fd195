//! Why a frame was not encapsulated.

use thiserror::Error;

/// Why a frame was not encapsulated. docs/FAULTS.md says when each comes, in which order, and what it leaves.
#[derive(Clone, Copy, Debug, PartialEq, Eq, Error)]
pub enum IpipFault {
    /// 80: the inner packet's time to live is 0.
    #[error("fault 80 TtlZero")]
    TtlZero,
    /// 81: the inner packet has more than 1480 bytes.
    #[error("fault 81 TooLong")]
    TooLong,
    /// 82: fewer than 20 bytes of headroom.
    #[error("fault 82 NoRoom")]
    NoRoom,
    /// 83: the frame holds no whole IPv4 packet without options.
    #[error("fault 83 NotPlainIpv4")]
    NotPlainIpv4,
}

impl IpipFault {
    ghost use Rattle.std.specs.Prelude.{◌≡◌, true};
    ghost use Rattle.faults.specs.Explanations.{is_fault};
    ghost use Rattle.ipip.specs.FaultNumber.{ipip_fault_number};

    /// The number that the fault's text prints.
    pub fn number(self) -> u8
        ensures number { result ≡ ipip_fault_number self }
        ensures known { is_fault result ≡ true }
    {
        match self {
            IpipFault::TtlZero => 80,
            IpipFault::TooLong => 81,
            IpipFault::NoRoom => 82,
            IpipFault::NotPlainIpv4 => 83,
        }
    }
}

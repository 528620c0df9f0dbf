//! Packet requests: the eight bits with which a host requests a transfer.
ghost use Rattle.std.specs.Prelude.{◌≡◌, ◌≢◌, ◌<◌, IfSome, IfNone};
ghost use Rattle.swd_bits.specs.Bits.{low_bits};
ghost use Rattle.swd_bits.specs.Wire.{bits_of_request, request_reg4_of};
ghost use Rattle.swd_bits.specs.declared.request.Request.{Request};

/// The register that a request names, by its address bits A[3:2].
#[derive(Clone, Copy, Debug, PartialEq, Eq)]
pub enum Reg4 {
    /// Address 0x0: DPIDR and ABORT, or CSW.
    R0,
    /// Address 0x4: CTRL/STAT, or TAR.
    R4,
    /// Address 0x8: RESEND and SELECT.
    R8,
    /// Address 0xc: RDBUFF, or DRW.
    RC,
}

/// A packet request (IHI 0031, B4, "Packet request").
#[derive(Clone, Copy, Debug, PartialEq, Eq)]
pub struct Request {
    /// APnDP: whether the request is for the access port, not the debug port.
    pub ap: bool,
    /// RnW: whether it is a read, not a write.
    pub read: bool,
    /// A[3:2].
    pub addr: Reg4,
}

impl Reg4 {
    // Returns the register with the address bits A[3:2].
    #[inline(always)]
    fn of(code: u8) -> Reg4
        requires { code < 4 }
        ensures { result ≡ request_reg4_of code }
    {
        match code {
            0 => Reg4::R0,
            1 => Reg4::R4,
            2 => Reg4::R8,
            _ => Reg4::RC,
        }
    }
}

impl Request {
    /// Returns the eight bits, the first in time least significant: Start, APnDP, RnW, A[2], A[3], Parity, Stop, Park.
    #[inline(always)]
    pub fn bits(&self) -> u8
        ensures { low_bits 8 result ≡ bits_of_request self.now }
    {
        let asked = u8::from(self.ap) | u8::from(self.read) << 1 | (self.addr as u8) << 2;
        let parity = (asked.count_ones() % 2) as u8;
        0x81 | asked << 1 | parity << 5
    }

    /// Returns the request with these eight bits, the first in time least significant, or `None` if Start, Parity, Stop
    /// or Park is wrong. Sixteen of the 256 values are requests.
    #[inline(always)]
    pub fn of(byte: u8) -> Option<Request>
        ensures found { IfSome result (λ q. bits_of_request q ≡ low_bits 8 byte) }
        ensures only { IfSome result (λ q. (other : Request) → bits_of_request other ≡ low_bits 8 byte → other ≡ q) }
        ensures none { IfNone result ((q : Request) → bits_of_request q ≢ low_bits 8 byte) }
    {
        let request = Request {
            ap: byte >> 1 & 1 == 1,
            read: byte >> 2 & 1 == 1,
            addr: Reg4::of(byte >> 3 & 3),
        };
        if request.bits() == byte {
            Some(request)
        } else {
            None
        }
    }
}

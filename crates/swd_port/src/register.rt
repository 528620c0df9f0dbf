//! The registers that a request can name.
ghost use Rattle.std.specs.Prelude.{◌≡◌, true};
ghost use Rattle.swd_port.specs.Port.{port_register, port_register_where, port_dp_register, mem_ap_register};
ghost use Rattle.swd_port.specs.Port.{port_request_for};
ghost use Rattle.swd_port.specs.Reaching.{is_port_register_reached};
ghost use Rattle.swd_port.specs.Answers.{is_exempt_register};
ghost use Rattle.swd_port.specs.Asking.{is_access_port_register, is_port_posted};
ghost use Rattle.swd_port.specs.Moving.{is_ap_write_register};
ghost use Rattle.swd_port.specs.declared.select.Select.{Select as SelectType};

use crate::select::Select;
use swd_bits::{Reg4, Request};

/// The register that a request names under a SELECT, with a direction. The debug port's registers are at addresses 0 to
/// c of its bank DPBANKSEL, the access port's at 0 to c of its bank APBANKSEL.
#[derive(Clone, Copy, Debug, PartialEq, Eq)]
pub enum Register {
    /// DPIDR, at 0 of any bank: the identification of the debug port.
    DpidrRead,
    /// ABORT, at 0 of any bank: clears the sticky flags.
    AbortWrite,
    /// CTRL/STAT, at 4 of bank 0.
    CtrlStatRead,
    /// CTRL/STAT, at 4 of bank 0.
    CtrlStatWrite,
    /// SELECT, at 8 of any bank.
    SelectWrite,
    /// RESEND, at 8 of any bank: the value that the last AP read or RDBUFF read returned, again.
    ResendRead,
    /// RDBUFF, at c of any bank: the result of the last AP read.
    RdbuffRead,
    /// The debug port's address 4 in any bank but 0: it reads any word.
    DpOtherRead,
    /// The debug port's address c, and 4 in any bank but 0: a write has no effect.
    DpIgnoredWrite,
    /// CSW, at 0 of bank 0 of access port 0.
    CswRead,
    /// CSW, at 0 of bank 0 of access port 0.
    CswWrite,
    /// TAR, at 4 of bank 0 of access port 0.
    TarRead,
    /// TAR, at 4 of bank 0 of access port 0.
    TarWrite,
    /// DRW, at c of bank 0 of access port 0: a read of the word at TAR.
    DrwRead,
    /// DRW, at c of bank 0 of access port 0: a write of the word at TAR.
    DrwWrite,
    /// Address 8 of bank 0 of access port 0, and any address of another bank or access port: it reads any word, or is a
    /// bus error.
    ApOtherRead,
    /// Address 8 of bank 0 of access port 0, and any address of another bank or access port: a write has no effect, or
    /// is a bus error.
    ApOtherWrite,
}

impl Register {
    /// Returns the register that a request names under a SELECT.
    #[inline(always)]
    pub fn named(select: Select, request: Request) -> Register
        ensures { result ≡ port_register select request }
    {
        let mem_ap = select.apsel == 0 && select.apbanksel == 0;
        Register::named_where(mem_ap, select.dpbanksel == 0, request)
    }

    /// Returns the register that a request names, where SELECT names bank 0 of access port 0 (`mem_ap`) or doesn't, and
    /// DPBANKSEL is 0 (`bank0`) or isn't.
    #[inline(always)]
    pub fn named_where(mem_ap: bool, bank0: bool, request: Request) -> Register
        ensures { result ≡ port_register_where mem_ap bank0 request.ap request.read request.addr }
    {
        if !request.ap {
            Register::of_debug_port(bank0, request)
        } else if mem_ap {
            Register::of_mem_ap(request)
        } else if request.read {
            Register::ApOtherRead
        } else {
            Register::ApOtherWrite
        }
    }

    // Returns the debug port's register. DPBANKSEL decides the one at address 4 alone.
    fn of_debug_port(bank0: bool, request: Request) -> Register
        ensures { result ≡ port_dp_register request.read request.addr bank0 }
    {
        match (request.read, request.addr) {
            (true, Reg4::R0) => Register::DpidrRead,
            (false, Reg4::R0) => Register::AbortWrite,
            (true, Reg4::R4) => {
                if bank0 {
                    Register::CtrlStatRead
                } else {
                    Register::DpOtherRead
                }
            }
            (false, Reg4::R4) => {
                if bank0 {
                    Register::CtrlStatWrite
                } else {
                    Register::DpIgnoredWrite
                }
            }
            (true, Reg4::R8) => Register::ResendRead,
            (false, Reg4::R8) => Register::SelectWrite,
            (true, Reg4::RC) => Register::RdbuffRead,
            (false, Reg4::RC) => Register::DpIgnoredWrite,
        }
    }

    // Returns the register in bank 0 of access port 0.
    fn of_mem_ap(request: Request) -> Register
        ensures { result ≡ mem_ap_register request.read request.addr }
    {
        match (request.read, request.addr) {
            (true, Reg4::R0) => Register::CswRead,
            (false, Reg4::R0) => Register::CswWrite,
            (true, Reg4::R4) => Register::TarRead,
            (false, Reg4::R4) => Register::TarWrite,
            (true, Reg4::R8) => Register::ApOtherRead,
            (false, Reg4::R8) => Register::ApOtherWrite,
            (true, Reg4::RC) => Register::DrwRead,
            (false, Reg4::RC) => Register::DrwWrite,
        }
    }

    /// Returns the request that names this register, under a SELECT that reaches it. SELECT 0 reaches all but
    /// `DpOtherRead`, which has no address in bank 0 of the debug port.
    pub fn request(self) -> Request
        ensures exact { result ≡ port_request_for self }
        ensures named { (select : SelectType) → is_port_register_reached select self ≡ true
            → port_register select result ≡ self }
    {
        let (ap, read, addr) = match self {
            Register::DpidrRead => (false, true, Reg4::R0),
            Register::AbortWrite => (false, false, Reg4::R0),
            Register::CtrlStatRead | Register::DpOtherRead => (false, true, Reg4::R4),
            Register::CtrlStatWrite => (false, false, Reg4::R4),
            Register::ResendRead => (false, true, Reg4::R8),
            Register::SelectWrite => (false, false, Reg4::R8),
            Register::RdbuffRead => (false, true, Reg4::RC),
            Register::DpIgnoredWrite => (false, false, Reg4::RC),
            Register::CswRead => (true, true, Reg4::R0),
            Register::CswWrite => (true, false, Reg4::R0),
            Register::TarRead => (true, true, Reg4::R4),
            Register::TarWrite => (true, false, Reg4::R4),
            Register::ApOtherRead => (true, true, Reg4::R8),
            Register::ApOtherWrite => (true, false, Reg4::R8),
            Register::DrwRead => (true, true, Reg4::RC),
            Register::DrwWrite => (true, false, Reg4::RC),
        };
        Request { ap, read, addr }
    }

    /// Returns whether a request for this register is never answered WAIT or FAULT: a read of DPIDR or CTRL/STAT, or a
    /// write of ABORT.
    pub fn is_exempt(self) -> bool
        ensures { result ≡ is_exempt_register self }
    {
        matches!(
            &self,
            Register::DpidrRead | Register::CtrlStatRead | Register::AbortWrite
        )
    }

    /// Returns whether it is a read that returns the read buffer, of which READOK tells: of an access port, or RDBUFF.
    pub fn is_posted(self) -> bool
        ensures { result ≡ is_port_posted self }
    {
        matches!(
            &self,
            Register::RdbuffRead
                | Register::CswRead
                | Register::TarRead
                | Register::DrwRead
                | Register::ApOtherRead
        )
    }

    /// Returns whether it is a register of an access port.
    pub fn is_access_port(self) -> bool
        ensures { result ≡ is_access_port_register self }
    {
        matches!(
            &self,
            Register::CswRead
                | Register::CswWrite
                | Register::TarRead
                | Register::TarWrite
                | Register::DrwRead
                | Register::DrwWrite
                | Register::ApOtherRead
                | Register::ApOtherWrite
        )
    }

    /// Returns whether it is a write of an access port, which leaves the read buffer and the value that RESEND returns
    /// unknown.
    pub fn is_access_port_write(self) -> bool
        ensures { result ≡ is_ap_write_register self }
    {
        matches!(
            &self,
            Register::CswWrite | Register::TarWrite | Register::DrwWrite | Register::ApOtherWrite
        )
    }
}

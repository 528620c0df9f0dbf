//! The steps of the plan, as a text.

/// The groups of requests, each behind the rule that it reaches. `send` has the words of a group. They are sent once
/// for each word of `first`, with that in place of `1`, and for each of `second`, in place of `2`. `needs` names what a
/// group isn't sent without.
///
/// | Word | Step |
/// |---|---|
/// | `dpidr` | a read |
/// | `tar=W` | a write of the word W |
/// | `tar=!W` | the same with wrong parity |
/// | `tar=cut` | a write with a line reset in place of its data phase |
/// | `tar?`, `tar=0?` | a request that is sent once, also where it isn't answered; the word of a write is 0 |
/// | `power` | reads of CTRL/STAT, up to one that acknowledges both powers |
/// | `reset` | a line reset |
///
/// W is hexadecimal, or `memory`, `page` or `kilobyte`, the address of the first word of memory, of the last word of
/// 256 bytes or of a kilobyte, such an address and `+4`, the one before it, `kilobyte-4`, `hole`, an address without
/// memory, or `fresh`, another word each time.
pub(crate) const STEPS: &str = "\
# Before any line reset no request is answered.
send dpidr? reset dpidr

# After a line reset only a read of DPIDR is answered.
first ctrl/stat? rdbuff? tar? abort=0? select=0?
send reset 1

# A read of DPIDR behind a line reset is answered, and the flags are cleared.
send reset dpidr ctrl/stat abort=1e ctrl/stat select=0

# Without debug power an access port answers FAULT.
first tar tar=4 drw drw=1 ap-8
send ctrl/stat=0 1 ctrl/stat rdbuff select=0 abort=13 ctrl/stat abort=8 ctrl/stat abort=4 ctrl/stat rdbuff

# CTRL/STAT has the requested powers, and no other bit that was written.
first ctrl/stat=10000000 ctrl/stat=40000000 ctrl/stat=20000000 ctrl/stat=a0000000 ctrl/stat=e ctrl/stat=fff0fe \
    ctrl/stat=0 ctrl/stat=50000000
send 1 ctrl/stat ctrl/stat

# Each power is withdrawn alone.
first ctrl/stat=40000000 ctrl/stat=10000000
send ctrl/stat=50000000 power 1 ctrl/stat ctrl/stat tar rdbuff ctrl/stat abort=1e ctrl/stat

# Opens the access port.
send ctrl/stat=50000000 power abort=1e ctrl/stat tar rdbuff ctrl/stat select=0 csw=23000012 tar=memory

# CSW has its size, its increment and its enable.
first csw=23000012 csw=23000002 csw=7f000022 csw=32 csw=ffffffdf csw=23000012
send 1 csw rdbuff ctrl/stat

# Another bank or access port leaves the registers of bank 0.
first select=f0 select=40 select=1 select=8 select=f select=ff0000f0
send tar=memory tar rdbuff 1 tar ap-8 rdbuff tar=memory+4 csw=2 csw drw rdbuff ctrl/stat ctrl/stat select=0 \
    ctrl/stat tar csw rdbuff

# Reads of another access port, and writes of the last one, leave the registers of bank 0.
send tar=memory tar rdbuff select=1000000 csw tar ap-8 rdbuff ctrl/stat abort=1e select=0 tar csw rdbuff \
    select=ff000000 tar=memory+4 csw=2 csw rdbuff ctrl/stat abort=1e select=0 ctrl/stat tar csw rdbuff

# In another bank of the debug port CTRL/STAT isn't written.
first select=1 select=8 select=f
send 1 ctrl/stat ctrl/stat=0 ctrl/stat select=0 ctrl/stat tar rdbuff

# A write at c of the debug port, or of 0 at 8 of the access port, the high half of long addresses, has no effect.
send abort=1e tar=memory dp-c=f0 tar rdbuff ap-8 tar rdbuff ap-8=0 tar rdbuff ap-8 rdbuff

# TAR has all 32 bits.
first tar=12345678 tar=fffffffc tar=a5a5a5a4 tar=5a5a5a58 tar=1 tar=2 tar=3 tar=0
send 1 tar rdbuff

# Writes of other registers leave TAR.
send tar=2468ace0 csw=23000002 tar select=0 rdbuff ctrl/stat=50000000 ctrl/stat tar csw=23000012 tar rdbuff abort=1e

# Reads are posted, RESEND returns the last word again, and TAR increments or not.
first csw=23000012 csw=23000002 csw=23000022 csw=23000032
send 1 tar=memory drw=1020304 drw=ffffffff drw=0 drw=80000001 rdbuff tar rdbuff tar=memory drw drw tar resend drw \
    resend resend csw resend rdbuff resend tar=memory+4 drw ctrl/stat rdbuff resend rdbuff ctrl/stat tar rdbuff \
    resend tar rdbuff

# Words are read back, with other requests between a transfer and its word.
send csw=23000012 tar=memory drw=deadbeef drw=600df00d tar=memory drw rdbuff rdbuff tar rdbuff tar=memory drw=7 \
    ctrl/stat ctrl/stat drw=8 dpidr tar=memory drw ctrl/stat drw rdbuff tar=memory drw select=f0 rdbuff select=0 tar \
    select=f0 ap-8 ap-8 select=0 rdbuff

# Reads of DPIDR leave the word of a read.
send tar=memory drw tar dpidr dpidr rdbuff ctrl/stat

# Each word is read back.
first tar=memory tar=memory+4 tar=memory+8 tar=memory+12 tar=memory+16 tar=memory+20 tar=memory+24 tar=memory+28 \
    tar=memory+32 tar=memory+36 tar=memory+40 tar=memory+44 tar=memory+48 tar=memory+52 tar=memory+56 tar=memory+60
send 1 drw=fresh 1 drw rdbuff

# Each word is still the one that was written.
first tar=memory tar=memory+4 tar=memory+8 tar=memory+12 tar=memory+16 tar=memory+20 tar=memory+24 tar=memory+28 \
    tar=memory+32 tar=memory+36 tar=memory+40 tar=memory+44 tar=memory+48 tar=memory+52 tar=memory+56 tar=memory+60
send 1 drw rdbuff

# Without increment each transfer is of the same word.
send csw=23000002 tar=memory drw=1 drw=ff00ff00 drw rdbuff tar rdbuff csw=23000012

# TAR increments over an end of 256 bytes.
needs page
send tar=page drw tar rdbuff tar=page drw drw tar rdbuff tar=page drw=fresh drw=fresh tar rdbuff ctrl/stat abort=1e \
    tar=page drw rdbuff tar=page+4 drw rdbuff ctrl/stat abort=1e

# What TAR is after an end of a kilobyte is up to the port: no transfer follows.
needs kilobyte
send tar=kilobyte drw tar rdbuff tar=kilobyte drw=fresh tar rdbuff tar=kilobyte+4 drw=fresh ctrl/stat abort=1e \
    tar=kilobyte drw rdbuff tar=kilobyte+4 drw rdbuff ctrl/stat abort=1e

# Before an end of a kilobyte TAR increments, or not.
needs kilobyte
first csw=23000012 csw=23000002
send 1 tar=kilobyte-4 drw tar rdbuff tar=kilobyte-4 drw=fresh tar rdbuff tar=kilobyte-4 drw rdbuff csw=23000002 \
    tar=kilobyte drw tar rdbuff csw=23000012

# A transfer without memory is a bus error.
needs hole
first drw drw=77777777
send tar=hole 1 tar rdbuff ctrl/stat abort=1e tar=hole 1 rdbuff ctrl/stat abort=1e

# A word before a damaged write.
send tar=memory drw=c0ffee00 rdbuff tar=memory

# A write with wrong parity has no effect, and sets WDATAERR.
first drw=!9 tar=!1230 csw=!12000002 select=!f1 ctrl/stat=!0 abort=!1e dp-c=!1 ap-8=!0
send 1 ctrl/stat dpidr rdbuff ctrl/stat abort=17 ctrl/stat rdbuff abort=8 ctrl/stat abort=1e tar csw rdbuff ctrl/stat \
    tar=memory drw rdbuff tar=memory

# A write with wrong parity between two transfers has no effect, and sets WDATAERR.
send tar=memory drw=c0ffee01 drw=!c0ffee02 ctrl/stat abort=1e tar rdbuff tar=memory drw drw=!c0ffee03 ctrl/stat \
    abort=1e tar=memory+4 drw=!c0ffee04 rdbuff abort=1e tar=memory drw drw rdbuff ctrl/stat

# RESEND leaves READOK, which is 0 behind a read that was refused.
send tar=memory drw rdbuff tar=!1230 rdbuff abort=1e ctrl/stat resend ctrl/stat resend ctrl/stat rdbuff ctrl/stat

# While WDATAERR is set each other request is refused, and has no effect.
first rdbuff resend csw drw tar=0 drw=5 csw=0 select=f0 ctrl/stat=0 dp-c=0
send tar=memory drw=!33333333 1 ctrl/stat abort=1e ctrl/stat tar rdbuff tar=memory drw csw rdbuff ctrl/stat

# While STICKYERR is set each other request is refused, and has no effect.
needs hole
first drw drw=77777777
second rdbuff resend csw tar=0 csw=0 select=f0 ctrl/stat=0 dp-c=0 ctrl/stat dpidr abort=4
send tar=hole 1 2 ctrl/stat dpidr rdbuff resend select=0 ctrl/stat abort=1b ctrl/stat abort=1e ctrl/stat rdbuff \
    ctrl/stat tar=memory drw tar csw rdbuff

# Once FAULT was seen transfers are refused, and have no effect.
needs hole
first drw drw=77777777
second drw drw=5
send tar=hole 1 rdbuff 2 ctrl/stat dpidr rdbuff ctrl/stat abort=1e ctrl/stat tar=memory drw tar rdbuff

# Each flag is cleared by its own bit of ABORT.
needs hole
send tar=hole drw=1 abort=!1e ctrl/stat rdbuff ctrl/stat abort=4 ctrl/stat rdbuff abort=8 ctrl/stat rdbuff tar=hole \
    drw abort=8 ctrl/stat rdbuff ctrl/stat abort=1 ctrl/stat abort=1e resend rdbuff

# Both flags are seen, and each is cleared while the other is set.
needs hole
first abort=8 abort=4 abort=12 abort=1
send tar=hole drw rdbuff ctrl/stat abort=!1e ctrl/stat 1 ctrl/stat rdbuff ctrl/stat abort=1e ctrl/stat

# Each bit of ABORT alone clears no other flag.
first abort=1 abort=2 abort=4 abort=8 abort=10
send tar=!1230 1 ctrl/stat rdbuff ctrl/stat abort=1e ctrl/stat

# A clear leaves the last word that was returned.
send tar=memory drw rdbuff ctrl/stat abort=1e resend resend ctrl/stat

# A line reset leaves the registers, the words and a transfer.
send abort=1e tar=memory drw=12121212 reset dpidr ctrl/stat tar csw rdbuff ctrl/stat tar=memory drw rdbuff abort=1e \
    tar=memory drw reset dpidr ctrl/stat rdbuff ctrl/stat reset dpidr ctrl/stat resend tar rdbuff abort=1e \
    tar=memory tar rdbuff reset dpidr ctrl/stat resend tar rdbuff

# A line reset leaves STICKYERR.
needs hole
send abort=1e tar=hole drw rdbuff reset dpidr ctrl/stat rdbuff ctrl/stat abort=1e ctrl/stat

# A line reset leaves SELECT and WDATAERR, and silences the target up to a read of DPIDR.
send abort=1e tar=memory select=f0 reset dpidr tar rdbuff tar=memory+4 select=0 tar rdbuff ctrl/stat abort=1e \
    select=1 reset dpidr ctrl/stat select=0 ctrl/stat tar=!1230 reset dpidr ctrl/stat rdbuff \
    abort=1e ctrl/stat reset rdbuff? reset dpidr ctrl/stat

# A line reset in the data phase of a write sets WDATAERR.
first drw=cut tar=cut select=cut
send tar=memory 1 dpidr ctrl/stat rdbuff ctrl/stat abort=1e tar rdbuff ctrl/stat

# Ends without power.
send ctrl/stat=0 ctrl/stat tar ctrl/stat abort=1e ctrl/stat
";

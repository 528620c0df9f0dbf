//! What requests come to at a new target, as text.

/// A row is a paragraph: its name, and lines that begin with
///
///   over BASE WORDS wraps|carries [IDR]    the memory; else it has 16 words from 20000000, and TAR wraps
///   cold      nothing comes before the steps; else a line reset, DPIDR, power, and a CSW with auto-increment do
///   - STEPS   one after the other, with commas between
///   | STEPS   those of a case, which stand where a step is `case`: the row is tried once for each
///
/// A step is a request, and behind it the word that is read or written with OK (`filler` is an unknown one), `damaged`
/// if a bit of the word that is written arrives changed, or how the request is answered; with `held` before it where
/// WAIT is asked for. Or it is `line reset`; `word ADDR WORD`: the memory has this word there; `no transfer`: none was
/// logged.
pub(super) const ROWS: &str = "\
only DPIDR is answered after a line reset
cold
- dp 0 read silent, dp 4 read silent, dp 8 read silent, dp c read silent, line reset, dp 4 read silent
- dp 8 read silent, dp c read silent, dp 0 write silent, dp 4 write silent, dp 8 write silent, ap 0 read silent
- dp 0 read 2ba01477, dp 4 read 0

# What stands at address 4 of another bank may get WAIT and FAULT; CTRL/STAT may not.
# An access port's request without power sets STICKYERR.
exempt requests are those of bank 0
cold
- line reset, dp 0 read 2ba01477, held dp 4 read okay, held dp 4 write waits, dp 8 write 1, held dp 4 read waits
- held dp 4 write waits, held dp 0 read okay, held dp 0 write okay, ap 0 read faults, dp 4 read faults
- dp 4 write faults, held dp 4 read faults, dp 8 write faults, dp 8 read faults, dp 0 write 4, dp 4 read 0
- dp 8 write 0, dp 4 read 0

# It is no access port's write: the last returned value stays, and so does the read buffer.
a write of the debug port's address c is ignored
- ap 0 read filler, dp c read 23000052, case, held dp c write waits, dp c write ffffffff, dp 8 read 23000052
- dp 8 write 0, dp 4 read f0000040, ap 0 read filler, dp c write 0, ap 4 read 23000052, dp c read 0, dp 4 write 0
- ap 0 read faults, dp c write faults
| dp 8 write 0
| dp 8 write f

# Another access port, and another bank of this one, read 0 and ignore what is written.
other access ports and banks are nothing
- ap 4 write 20000004, case, ap 0 read filler, ap 0 read 0, ap 4 read 0, ap 8 read 0, ap c read 0, dp c read 0
- ap 0 write 20000008, ap 4 write 20000008, ap 8 write 20000008, ap c write 20000008, dp 8 write 0
- dp 4 read f0000040, ap 0 read filler, ap 4 read 23000052, dp c read 20000004, no transfer
| dp 8 write 10
| dp 8 write f0
| dp 8 write 1000000
| dp 8 write ff000000
| dp 8 write 80000010

# BASE, at 8 of bank f, is that of an access port without a ROM table.
an access port with an IDR shows it in bank f
over 20000000 16 wraps 24770011
- case, ap c read filler, ap 8 read 24770011, ap 4 read ffffffff, ap 0 read 0, ap c read 0, dp c read 24770011
- dp 8 read 24770011, ap c write 0, ap c read filler, dp c read 24770011, held ap c read waits, dp 8 read 24770011
- dp 8 write 0, dp 4 read f0000000, no transfer
| dp 8 write f0
| dp 8 write ff

an IDR stands nowhere else
over 20000000 16 wraps 24770011
- case, ap 8 read filler, dp c read 0, dp 8 write 10000f0, ap c read filler, ap 8 read 0, dp c read 0
| dp 8 write 0
| dp 8 write e0
| dp 8 write 70
| dp 8 write 800000f0
| dp 8 write ff0000f0

# An access port's write makes the read buffer and the last returned value unknown, also where it is ignored.
an ignored write makes values unknown
- ap 0 read filler, dp c read 23000052, case, dp 8 read filler, dp 8 write 0, ap 0 read filler, case
- dp c read filler, no transfer
| dp 8 write 0, ap 8 write 12345678
| dp 8 write 10, ap 0 write 12345678
| dp 8 write 1000000, ap 4 write 12345678
| dp 8 write 20, ap c write 12345678

nothing stands at the access port's address 8
- ap 4 write 20000004, ap 0 read filler, ap 8 read 23000052, dp c read 0, ap 8 write ffffffff, ap 0 read filler
- ap 4 read 23000052, ap 8 read 20000004, dp c read 0, dp 4 read f0000040

# TAR grows where AddrInc is 01, and CSW reads 00 there otherwise.
only the single increment counts
- case, word 20000000 1
| ap 0 write 23000002, ap 4 write 20000000, ap c write 1, ap 0 read filler, ap 4 read 23000042, dp c read 20000000
| ap 0 write 23000012, ap 4 write 20000000, ap c write 1, ap 0 read filler, ap 4 read 23000052, dp c read 20000004
| ap 0 write 23000022, ap 4 write 20000000, ap c write 1, ap 0 read filler, ap 4 read 23000042, dp c read 20000000
| ap 0 write 23000032, ap 4 write 20000000, ap c write 1, ap 0 read filler, ap 4 read 23000042, dp c read 20000000

# Size, DeviceEn and TrInProg are fixed, and bits [30:24] are those that were written.
CSW keeps its upper bits
- case
| ap 0 write 0, ap 0 read filler, dp c read 42
| ap 0 write 7f000012, ap 0 read filler, dp c read 7f000052
| ap 0 write 55000011, ap 0 read filler, dp c read 55000052
| ap 0 write 2a000080, ap 0 read filler, dp c read 2a000042
| ap 0 write ffffffff, ap 0 read filler, dp c read 7f000042
| ap 0 write 80000f10, ap 0 read filler, dp c read 52

CSW as it was made
cold
- line reset, dp 0 read 2ba01477, dp 4 write 50000000, ap 0 read filler, dp c read 42

# TAR carries modulo 2^32, or wraps inside its last kilobyte.
TAR carries over the end of all addresses
over fffffff8 2 carries
- ap 4 write fffffff8, ap c write 1, ap 4 read filler, dp c read fffffffc, ap c write 2, ap 4 read filler, case
- word fffffff8 1, word fffffffc 2
| dp c read 0

TAR wraps inside its last kilobyte
over fffffff8 2 wraps
- ap 4 write fffffff8, ap c write 1, ap 4 read filler, dp c read fffffffc, ap c write 2, ap 4 read filler, case
- word fffffff8 1, word fffffffc 2
| dp c read fffffc00

# TAR is stored as it is written. A transfer at an address that is no multiple of four is a bus error.
TAR keeps its low bits
- case, ap c write 1, dp 4 read f0000060, dp c read faults, dp 4 read f0000020, no transfer
| ap 4 write 20000001, ap 4 read filler, dp c read 20000001
| ap 4 write 20000002, ap 4 read filler, dp c read 20000002
| ap 4 write 20000003, ap 4 read filler, dp c read 20000003

# Bits 28 and 30 are stored, and bits 29 and 31 read as they do.
CTRL/STAT keeps the power requests alone
- case
| dp 4 write ffffffff, dp 4 read f0000000
| dp 4 write 10000000, dp 4 read 30000000
| dp 4 write 40000000, dp 4 read c0000000
| dp 4 write afffffff, dp 4 read 0

# Bits 2 and 3 of ABORT clear STICKYERR and WDATAERR, and the others nothing. Damaged data is not done, nor is ABORT's.
ABORT clears what its bits name
cold
- line reset, dp 0 read 2ba01477, ap 0 read faults, dp 0 write damaged, dp 4 read a0, dp 0 write fffffff3
- dp 4 read a0, case, dp 4 read 0
| dp 0 write 4, dp 4 read 80, dp 0 write 8
| dp 0 write 8, dp 4 read 20, dp 0 write 4

# An access port's write whose data was damaged leaves the values that were read.
a damaged write is no write
- ap 0 read filler, dp c read 23000052, case, dp 4 read f00000c0, dp 0 write 8, dp 8 read 23000052
- ap 0 read filler, ap 4 read 23000052, dp c read 0, no transfer
| ap 0 write damaged
| ap 4 write damaged
| ap 8 write damaged
| ap c write damaged

# SELECT still names bank 3 behind it.
a line reset leaves the registers
- ap 4 write 20000008, ap 0 read filler, dp c read 23000052, dp 8 write 3, line reset, dp 4 read silent
- dp 0 read 2ba01477, dp 4 read 0, dp 8 read 23000052, dp 8 write 0, dp 4 read f0000040, ap 4 read filler
- ap 0 read 20000008, dp c read 23000052";

//! Which request follows a reply that no target gives that keeps the law: an engine driven by hand.
use super::engine::all_go;

const ROWS: &str = "\
# The opening's first read of CTRL/STAT comes next.
= cleared: led, answered 2ba01477, dp 0 write 1e
# The next request reads CTRL/STAT after the power request.
= powering: led, answered 2ba01477, answered 0, answered 0, answered 0, answered 0
# TAR and DRW of a write were sent, its word among them.
= sent write: opened 23000052, starts w 20000000 deadbeef, ap 4 write 20000000, ap c write deadbeef
= damage cleared: dp c read faults, dp 4 read f0000080, dp 0 write 8
= bus error cleared: dp c read faults, dp 4 read f0000020, dp 0 write 4
# TAR and DRW of a read were sent.
= sent read: opened 23000052, starts r 20000000, ap 4 write 20000000, ap c read 0
# RESEND is refused, and the flags are read damaged.
= resend refused: dp c read damaged, dp 8 read faults, dp 4 read damaged
a bus error at the first read of CTRL/STAT is cleared again
- tries 1, @cleared, dp 4 read 20, dp 0 write 1e, dp 4 read 0, asks dp 8 write
a bus error at the first read of CTRL/STAT twice is one event too many
- tries 1, @cleared, dp 4 read 20, dp 0 write 1e, dp 4 read 20, comes to tries
# Neither acknowledgement; debug power's alone; system power's alone.
no power yet is looked for again
- tries 1, @powering, dp 4 read 50000000, unfinished, dp 4 read f0000000, asks ap 0 write
debug power alone is looked for again
- tries 1, @powering, dp 4 read 70000000, unfinished, dp 4 read f0000000, asks ap 0 write
system power alone is looked for again
- tries 1, @powering, dp 4 read d0000000, unfinished, dp 4 read f0000000, asks ap 0 write
no power twice is one event too many
- tries 1, @powering, dp 4 read 50000000, dp 4 read 50000000, comes to tries, begun 0
debug power alone twice is one event too many
- tries 1, @powering, dp 4 read 70000000, dp 4 read 70000000, comes to tries, begun 0
system power alone twice is one event too many
- tries 1, @powering, dp 4 read d0000000, dp 4 read d0000000, comes to tries, begun 0
a bus error after the power request confuses
- @powering, dp 4 read f0000020, comes to confused
both flags after the power request confuse
- @powering, dp 4 read f00000a0, comes to confused
a bus error without power confuses
- @powering, dp 4 read 20, comes to confused
a bus error where damaged data was cleared confuses
- @sent write, @damage cleared, dp 4 read f0000020, comes to confused, begun 1
the same bus error once more confuses
- @sent write, @bus error cleared, dp 4 read f0000020, comes to confused, begun 1
# It is none of what is owed.
damaged data where a bus error was cleared confuses
- @sent write, @bus error cleared, dp 4 read f0000080, comes to confused
# The clearing was damaged, and both are owed.
both flags where a bus error was cleared are cleared
- @sent write, @bus error cleared, dp 4 read f00000a0, dp 0 write c, dp 4 read f0000000, comes to busfault, begun 0
# The write once more is refused for damaged data, too: TAR's, which stands before it. Where TAR is known, none does.
a write that is sent again may meet the write before it
- @sent write, dp c read faults, dp 4 read f0000080, dp 0 write 8, dp 4 read f0000000, ap c write faults
- dp 4 read f0000080, dp 0 write 8, dp 4 read f0000000, ap 4 write 20000000, ap c write deadbeef, dp c read 0
- comes to written, starts w 20000004 7, ap c write 7, dp c read faults, dp 4 read f0000080, dp 0 write 8
- dp 4 read f0000000, ap c write faults, dp 4 read f0000080, comes to confused, begun 1
RESEND that is refused confuses once the flags were read
- @sent read, @resend refused, dp 4 read f0000020, comes to confused, begun 1
# The second damaged word is one event too many.
RESEND that is refused is given up where the tries are out
- tries 1, @sent read, @resend refused, comes to tries, begun 1
WAIT for CTRL/STAT, which never gets it, confuses
- @sent read, dp c read faults, dp 4 read waits, comes to confused, begun 1
WAIT for ABORT, which never gets it, confuses
- @sent read, dp c read faults, dp 4 read f0000020, dp 0 write waits, comes to confused
# No flag, both, and damaged data where no write stands before the read's RDBUFF.
no flag after FAULT for a read confuses
- @sent read, dp c read faults, dp 4 read f0000000, comes to confused, begun 1
both flags after FAULT for a read confuse
- @sent read, dp c read faults, dp 4 read f00000a0, comes to confused, begun 1
damaged data after FAULT for a read confuses
- @sent read, dp c read faults, dp 4 read f0000080, comes to confused, begun 1";

#[test]
fn a_reply_that_breaks_the_law_has_its_request(rt: HostRuntime) {
    all_go(&rt, ROWS);
}

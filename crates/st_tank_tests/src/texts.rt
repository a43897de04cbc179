// Schedules and their reports.

pub const HEAD: &str = "tank 1 1000 500 700 850 100 50 101 100 2 1 1 8\n";

/// A write by client 1, up to its acceptance at event 7.
pub const WRITTEN: &str =
    "app c1 write 1:2 0 77\ndeliver 1\ndeliver 2\ndeliver 3\ndeliver 4\ndeliver 5\ndeliver 6\n";

/// The report of that write.
pub const WRITTEN_REPORT: &str =
    "tank report 1\n1 send 1 c1 s1 hello 1 0 0 0\n2 send 2 s1 c1 welcome 1 1 0 0\n3 lease c1 s1 1000\n3 send 3 c1 s1 acquire 1 1 1 0 2 2\n4 send 4 s1 c1 granted 1 1 1 0 2 4294967297 2\n5 send 5 c1 s1 allocate 1 1 2 0 2 4294967297 0 1\n6 send 6 s1 c1 extents 1 1 2 0 2 1 0 1 0 1\n7 write 1 c1 1:2 0 4096x77\n7 answer c1 1 written\n";

/// The schedule of `schedules/one-sided-cut.schedule` after that write.
pub const ONE_SIDED_CUT: &str =
    "app c2 read 1:2 0\ndeliver 7\ndeliver 8\ndeliver 9\ncut s1 c1\nadv 100\ntick s1\nadv 400\ntick c1\ndeliver 12\nadv 350\ntick c1\neffect 1\nreport 1 ok\nadv 260\ntick c1\ntick s1\nend\n";

/// The end of its report.
pub const ONE_SIDED_CUT_REPORT: &str =
    "8 send 7 c2 s1 hello 1 0 0 0\n9 send 8 s1 c2 welcome 1 1 0 0\n10 lease c2 s1 1000\n10 send 9 c2 s1 acquire 1 1 1 0 2 1\n11 send 10 s1 c2 queued 1 1 1 0 2 1\n11 send 11 s1 c1 demand 1 1 0 0 2 4294967297 1\n14 suspect s1 c1 1100\n16 send 12 c1 s1 keepalive 1 1 3 500\n17 send 13 s1 c1 nack 1 1 3 500 1 1100 0\n19 submit 1 c1 1 1 0 w 2 0 1 4096x77\n19 send 14 c1 s1 keepalive 1 1 3 850\n20 hard 1\n23 lost c1 s1 1\n24 steal s1 c1 1\n24 send 15 s1 c2 granted 1 1 0 0 2 4294967298 1\nend events 24 sent 15 commands 1 writes 1 reads 0 hard 1 gone 0 stolen 1\n";

/// The text for wrong arguments.
pub const USAGE: &str =
    "usage: tank replay | generate N SEED | work N SEED | node server|client ID NAME | journal | move | snap | shared\n";

// Lines of workloads that another program gave, and summaries of lines and replies.
use std::alloc::Global;
use std::process::Abort;
use std::test::Fail;
use workload::{Summary, Workload, worked_lines, worked_summaries};

static SEED_1: [&str; 23] = [
    "create f0 16",
    "create f1 16",
    "map f0 0 65536 shared",
    "vstore 6856 cc*8",
    "bwrite 26 f3*512",
    "bwrite 54 29*512",
    "store 0 4056 f2*8",
    "bread 32 1",
    "bread 26 1",
    "bread 53 1",
    "flush 0 63360 64",
    "fread f0 60416 64",
    "bread 17 1",
    "flush 0 17536 64",
    "vsync 9088 64",
    "store 0 43856 dc*8",
    "fread f0 16320 64",
    "bwrite 56 cd*512",
    "vstore 22432 05*8",
    "bdiscard 34 1",
    "vstore 23520 c2*8",
    "batomic 41 d6*1024",
    "vsync 24000 64",
];

static SEED_7: [&str; 23] = [
    "create f0 16",
    "create f1 16",
    "map f0 0 65536 shared",
    "fatomic f1 20416 31*64",
    "bdiscard 41 1",
    "vstore 16544 db*8",
    "store 0 12312 b3*8",
    "bread 48 1",
    "bread 61 1",
    "store 0 50424 d8*8",
    "bdiscard 54 1",
    "bdiscard 48 1",
    "vsync 28992 64",
    "bread 29 1",
    "vsync 18240 64",
    "fread f0 22208 64",
    "bread 61 1",
    "fatomic f1 51328 2c*64",
    "vstore 4864 a0*8",
    "store 0 2640 74*8",
    "vstore 28776 1c*8",
    "vstore 18008 c0*8",
    "store 0 62864 eb*8",
];

static SEED_3: [&str; 9] = [
    "create f0 16",
    "create f1 16",
    "map f0 0 65536 shared",
    "cut",
    "restart seed 1577179715",
    "map f0 0 65536 shared",
    "fatomic f1 19712 a3*64",
    "vsync 21824 64",
    "fread f0 54464 64",
];

fn follow(
    rt: &impl Abort,
    alloc: Global,
    seed: u64,
    count: u64,
    lines: &[&str],
) -> Result<(), Fail> {
    let mut workload = Workload::new(seed, count);
    for line in lines {
        let given = workload.next(alloc)?.ok_or("too few lines")?;
        assert_eq!(rt; given.as_slice(), line.as_bytes(), "{line}");
    }
    assert!(rt; workload.next(alloc)?.is_none());
    assert!(rt; workload.next(alloc)?.is_none());
    Ok(())
}

#[test]
fn lines_of_twenty_rounds(rt: HostRuntime) -> Result<(), Fail> {
    worked_lines();
    follow(&rt, rt.alloc(), 1, 20, &SEED_1)?;
    follow(&rt, rt.alloc(), 7, 20, &SEED_7)
}

#[test]
fn a_cut_is_followed_by_a_restart(rt: HostRuntime) -> Result<(), Fail> {
    follow(&rt, rt.alloc(), 3, 4, &SEED_3)?;
    follow(
        &rt,
        rt.alloc(),
        u64::MAX,
        0,
        &["create f0 16", "create f1 16", "map f0 0 65536 shared"],
    )
}

// Lines, their replies, and the sum behind them.
static REPLIES: [(&str, &str, u64); 12] = [
    ("create f0 16", "ok", 0),
    ("map f0 0 65536 shared", "handle 0", 0),
    ("bread 32 1", "data 00*511,ff", 255),
    ("fread f0 0 64", "data 72,65,63,20,33,01*59", 711),
    ("bread 26 1", "scarred 26", 711),
    ("bread 26 1", "data Ff*4294967295", 1095216660936),
    ("cut", "ok", 1095216660936),
    ("cut in 5", "okay", 1095216660936),
    ("restart seed 5", "ok bad 0", 1095216660936),
    ("vload 0 4", "data 010203,04", 1095216660946),
    ("vload 0 4", "data 01,02*0", 1095216660946),
    ("vload 0 4", "data 01,0", 1095216660946),
];

#[test]
fn a_summary_counts_lines_and_adds_bytes(rt: HostRuntime) {
    worked_summaries();
    let mut summary = Summary::default();
    for &(line, reply, sum) in &REPLIES {
        summary.add(line.as_bytes(), reply.as_bytes());
        assert_eq!(rt; summary.sum, sum, "{line}");
    }
    assert_eq!(rt; (summary.commands, summary.oks), (12, 3));
    assert_eq!(rt; (summary.reads, summary.cuts), (6, 1));
}

#[test]
fn counts_stand_still_and_the_sum_wraps(rt: HostRuntime) {
    let full = Summary {
        commands: u64::MAX,
        oks: u64::MAX,
        reads: u64::MAX,
        cuts: u64::MAX,
        sum: u64::MAX,
    };
    let mut summary = full;
    summary.add(b"cut", b"ok");
    assert_eq!(rt; summary, full);
    summary.add(b"bread 0 1", b"data 05");
    assert_eq!(rt; summary.sum, 4);
}

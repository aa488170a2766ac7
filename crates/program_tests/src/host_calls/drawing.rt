// Scripts whose lines a seed draws.

use nvm_base::Bytes;
use std::alloc::{AllocError, Global};

// Lines to draw from, with cuts, failures and media errors.
static LINES: [&str; 75] = [
    "bwrite 0 11*1024\n",
    "batomic 1 22*1024\n",
    "bmulti 0 33*512 3 44*512\n",
    "bread 0 1\n",
    "bread 1 2\n",
    "bread 3 1\n",
    "bdiscard 1 1\n",
    "bdiscardif 0 3\n",
    "bscar 2 1\n",
    "vstore 0 01*100\n",
    "vstore 60 02*16\n",
    "vstore 4090 03*12\n",
    "vload 0 64\n",
    "vload 60 16\n",
    "vload 4080 64\n",
    "vsync 0 64\n",
    "vsync 0 128\n",
    "vsync 4032 128\n",
    "vdiscard 1 1\n",
    "vexists 1\n",
    "create a 1\n",
    "create b 3\n",
    "rename a c\n",
    "rename c b\n",
    "resize b 2\n",
    "delete a\n",
    "delete b\n",
    "list\n",
    "fwrite a 4090 04*12\n",
    "fwrite b 0 05*70\n",
    "fwrite b 4090 06*12\n",
    "fatomic a 60 08*70\n",
    "fmulti b 10 09*8 4090 0a*12\n",
    "fdiscard b 1 1\n",
    "fsync a\n",
    "fsync b\n",
    "fread a 0 4\n",
    "fread b 60 16\n",
    "fread c 4088 16\n",
    "map a 0 4096 shared\n",
    "map b 4000 200 shared\n",
    "store 0 10 07*70\n",
    "flush 0 0 64 60 70\n",
    "flushv 0 0 100\n",
    "sync 1 0 200\n",
    "load 0 0 80\n",
    "unmap 0\n",
    "check b 0 4096\n",
    "poison file b 64\n",
    "poison file a 0\n",
    "weaken file b 0\n",
    "weaken file a 64\n",
    "clear file b 64\n",
    "event\n",
    "event\n",
    "poison volume 64\n",
    "poison block 0 3\n",
    "weaken volume 0\n",
    "clear volume 64\n",
    "cut in 3\n",
    "cut in 7\n",
    "cut in 23\n",
    "fail in 2\n",
    "fail in 5\n",
    "fail in 11\n",
    "fail in 29\n",
    "cut\n",
    "restart all\n",
    "restart all\n",
    "restart none\n",
    "restart seed 5\n",
    "restart seed 500000\n",
    "recover\n",
    "recover\n",
    "recover\n",
];

// Two lines of metadata go bad at last.
const LAST_LINES: &str =
    "restart all\nrecover\npoison meta 9\nbread 0 1\nvload 0 8\nbscar 0 1\ncut\nrestart all\npoison meta 5\nbread 0 1\n";

/// Lines that a seed draws, and then the last ones.
pub fn drawn(alloc: Global, seed: u64, count: u64) -> Result<Bytes, AllocError> {
    let mut bytes = Bytes::new(alloc);
    let mut x = seed;
    for _ in 0..count {
        x = x
            .wrapping_mul(6364136223846793005)
            .wrapping_add(1442695040888963407);
        let which = (x >> 33) as usize % LINES.len();
        bytes.extend(LINES[which].as_bytes())?;
    }
    bytes.extend(LAST_LINES.as_bytes())?;
    Ok(bytes)
}

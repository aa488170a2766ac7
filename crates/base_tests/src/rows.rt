// Every attribute of one medium, and names that are none.
use attributes::{value, worked_attributes};
use word_tables::Geometry;

static ROWS: [(&str, Option<u64>); 26] = [
    ("block.size", Some(512)),
    ("block.count", Some(4096)),
    ("block.write_atomicity", Some(512)),
    ("block.atomic_blocks", Some(64)),
    ("block.atomic_ranges", Some(8)),
    ("block.discard_zeros", Some(1)),
    ("volume.size", Some(1048576)),
    ("volume.ranges", Some(2)),
    ("volume.sync_unit", Some(64)),
    ("file.pages", Some(1008)),
    ("file.max_pages", Some(256)),
    ("file.max_files", Some(64)),
    ("file.atomic_pages", Some(16)),
    ("file.atomic_ranges", Some(8)),
    ("pm.store_atomicity", Some(8)),
    ("pm.interrupted_store_atomicity", Some(1)),
    ("pm.error_range", Some(64)),
    ("pm.error_offset", Some(0)),
    ("pm.flush_ranges", Some(8)),
    ("pm.domains", Some(1)),
    ("", None),
    ("pm", None),
    ("block.sizes", None),
    ("block.siz", None),
    ("volume.count", None),
    ("PM.domains", None),
];

#[test]
fn the_table(rt: HostRuntime) {
    worked_attributes();
    let geo = Geometry {
        blocks: 4096,
        vpages: 256,
        fpages: 1024,
    };
    for &(name, told) in &ROWS {
        assert_eq!(rt; value(name.as_bytes(), geo, 8), told, "{name}");
    }
}

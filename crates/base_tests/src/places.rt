// Sizes of media, where their areas lie, and their superblocks.
use nvm_base::Span;
use word_tables::Geometry;

fn sizes([blocks, vpages, fpages]: [u64; 3]) -> Geometry {
    Geometry {
        blocks,
        vpages,
        fpages,
    }
}

static SIZES: [([u64; 3], bool); 9] = [
    ([8, 2, 32], true),
    ([4096, 256, 1024], true),
    ([0, 2, 32], false),
    ([12, 2, 32], false),
    ([4104, 2, 32], false),
    ([8, 1, 32], false),
    ([8, 257, 32], false),
    ([8, 2, 31], false),
    ([8, 2, 1025], false),
];

#[test]
fn sizes_outside_the_limits_are_refused(rt: HostRuntime) {
    for &(numbers, is_valid) in &SIZES {
        assert_eq!(rt; sizes(numbers).valid(), is_valid, "at {numbers:?}");
    }
}

// Sizes, and the first lines of blocks, the second range and file pages, after the metadata and up to all lines.
static AREAS: [([u64; 3], [u64; 5]); 3] = [
    ([8, 2, 32], [2304, 2368, 2944, 3008, 5056]),
    ([8, 3, 32], [2304, 2432, 3008, 3072, 5120]),
    ([4096, 256, 1024], [2816, 11008, 44288, 52480, 118016]),
];

#[test]
fn data_follows_the_metadata(rt: HostRuntime) {
    for &(numbers, lines) in &AREAS {
        let geo = sizes(numbers);
        assert!(rt; geo.valid());
        let [first, second] = geo.volume_ranges();
        assert_eq!(rt; geo.meta_lines(), lines[0], "at {geo:?}");
        assert_eq!(rt; first.start, 64 * lines[0], "at {geo:?}");
        assert_eq!(rt; geo.block_line(0), lines[1], "at {geo:?}");
        assert_eq!(rt; second.start, 64 * lines[2], "at {geo:?}");
        assert_eq!(rt; geo.file_line(0), lines[3], "at {geo:?}");
        assert_eq!(rt; geo.total_lines(), lines[4], "at {geo:?}");
    }
}

// Lines of the volume, and their lines of the device. The lines of the second range's pages come after the blocks.
static VOLUME: [(u64, u64); 4] = [(0, 2304), (127, 2431), (128, 3008), (191, 3071)];

#[test]
fn the_volume_goes_on_in_its_second_range(rt: HostRuntime) {
    let geo = sizes([8, 3, 32]);
    assert!(rt; geo.valid());
    for &(line, place) in &VOLUME {
        assert!(rt; line < 64 * geo.vpages);
        assert_eq!(rt; geo.volume_line(line), place, "of {line}");
    }
}

#[test]
fn logs_and_words_lie_in_the_metadata(rt: HostRuntime) {
    let geo = sizes([8, 2, 32]);
    assert!(rt; geo.valid());
    assert_eq!(rt; geo.block_log(), Span { start: 1, len: 17 });
    assert_eq!(rt; geo.volume_log(), Span { start: 19, len: 65 });
    assert_eq!(rt; geo.file_log(), Span { start: 85, len: 69 });
    assert_eq!(rt; geo.block_word(7), 8 * 18 + 7);
    assert_eq!(rt; geo.presence_word(1), 8 * 84 + 1);
    assert_eq!(rt; geo.inode_word(63, 7), 8 * 217 + 7);
    assert_eq!(rt; geo.page_word(0, 0), 8 * 218);

    // The last table word is in the last of 2,266 lines.
    assert_eq!(rt; geo.page_word(63, 255), 8 * 2265 + 7);
}

#[test]
fn a_superblock_tells_mark_layout_and_sizes(rt: HostRuntime) {
    let geo = sizes([8, 2, 32]);
    assert!(rt; geo.valid());
    let words = geo.superblock();
    assert_eq!(rt; words[0].to_le_bytes(), *b"NVMPMH01");
    assert_eq!(rt; &words[1..], [1, 8, 2, 32, 2304, 5056, 8].as_slice());
}

//! For blocks, pages of the volume and files there is an image that the machine reads as these.
#![tactic(auto)]

mod laws;

pub use laws::{
    a_mount_finds_nothing_wrong, a_restart_may_leave_what_is_stored, each_area_has_its_lines,
    each_word_has_eight_bytes, one_value_of_each_word_may_be_left, the_blocks_are_read,
    the_files_are_read, the_machine_reads_what_is_stored, the_metadata_is_good, the_volume_is_read,
    what_survives_has_an_image, worked_image,
};

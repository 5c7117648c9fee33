//! Listings of real files, as `getfacl -R` prints them: blocks separated by empty lines, and the
//! file of each.
#![tactic(auto)]

mod access;
mod blocks;
mod extent;
mod fault;
mod faulty;
mod file;
mod file_flags;
mod folders;
mod guess;
mod header;
mod laws;
mod limits;
mod list_lines;
mod lists;
mod newlines;
mod printing;
mod rule;
mod shared;
mod source;
mod steps;
mod way;
mod window;

pub use blocks::Blocks;
pub use fault::{BlockFault, FileFault};
pub use faulty::faulty_line;
pub use file::{File, lines_behind, path_and_lines, path_of, read_file};
pub use file_flags::FileFlags;
pub use folders::says_folder;
pub use guess::Guess;
pub use laws::{
    handed_blocks_report_the_same, nfs4_blocks_are_read_again, numbered_files_are_read_again,
    printed_files_are_read_again, refused_entries_stand_in_lines,
};
pub use limits::{MAX_BLOCK, bytes_in_numbers, limits_in_numbers};
pub use lists::Lists;
pub use printing::{push_header, push_nfs4, push_posix};
pub use rule::Rule;
pub use way::{Place, compare_steps, is_above, place_below};
pub use window::ReadFault;

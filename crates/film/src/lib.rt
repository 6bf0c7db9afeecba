// The text between recorder and player: settings, lines, and how they are read and written.
#![tactic(auto)]

mod cursor;
mod cutting;
mod fault;
mod field;
mod leaf;
mod line;
mod number;
mod reading;
mod setting;
mod standard;
#[cfg(test)]
mod tests;
mod writing;

pub use fault::Fault;
pub use leaf::{fill_block, read_block};
pub use line::Line;
pub use number::{read_level, read_number};
pub use reading::{count_lines, read_line};
pub use setting::Setting;
pub use standard::{Standard, UnknownStandard};
pub use writing::{
    levels_len, samples_len, setting_len, split_len, square_len, write_levels, write_samples,
    write_setting, write_split, write_square,
};

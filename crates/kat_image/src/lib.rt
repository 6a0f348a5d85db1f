//! The image of a machine: the text that gives registers and cells the values that they have at the
//! start.
//! `specs/` says which bytes are an image of which state, apart from the reader, which goes over
//! the bytes once.
#![tactic(auto)]

mod fault;
mod image;
mod laws;
mod line;
mod numbers;
mod print;
mod setting;
mod unread;
mod value;

pub use fault::ImageError;
pub use image::read_image;
pub use laws::{
    lines_are_the_text, lines_set_places, no_lines_are_the_start, one_refusal, one_state,
    printed_states_come_back,
};
pub use print::print_image;
pub use setting::Setting;

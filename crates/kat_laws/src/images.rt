//! What images stand for.

ghost use Rattle.kat_laws.specs.Images.{ImagesAreStates, PrintedImagesComeBack};

use crate::runs::{machines_have_names, starts_are_states};
use kat_image::{lines_set_places, printed_states_come_back};
use kat_syntax::types_name_earlier_ones;
use kat_tree::written_layers;

/// The state of an image is one of the machine: it has one value of its declared type for each
/// register, and a number that fits for each cell of the memory.
pub fn images_are_states()
    ensures { ImagesAreStates }
{
    starts_are_states();
    lines_set_places();
}

/// An image that is printed comes back: of a machine and a state of it, the printed text of the
/// state is an image, and it stands for that state.
pub fn printed_images_come_back()
    ensures { PrintedImagesComeBack }
{
    machines_have_names();
    printed_states_come_back();
    types_name_earlier_ones();
    written_layers();
}

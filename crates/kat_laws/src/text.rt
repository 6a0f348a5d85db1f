//! What the text of a run tells its reader.

ghost use Rattle.kat_laws.specs.TextLaw.{TextTellsRun, BeginningTellsRun};

use kat_value::equality_is_tested;

/// The output of a run tells the state at every boundary, though it shows only what changed, and
/// how the run ended: two runs of one machine that print the same text have the same boundary
/// states and the same end.
///
/// Registers may be of every type, and there may be a memory: the first boundary shows each
/// register and each cell that is not zero. This is said of states of the machine; registers, the
/// members of an enum and the constructors of a union have distinct names, each one word, and
/// indices and the numbers of a fault are below 2^64.
pub fn text_tells_states()
    ensures { TextTellsRun }
{
    equality_is_tested();
}

/// The output of a run tells where it ends: where one text begins with the texts of two runs of one
/// machine, they are the same run. So an output that was cut off is the output of no run of that
/// machine. The machines are those of [`text_tells_states`].
pub fn text_tells_its_end()
    ensures { BeginningTellsRun }
{
    equality_is_tested();
}

//! What holds of every image. A function here does nothing: its contract is the law.

ghost use Rattle.std.specs.Prelude.{◌≡◌, ℕ, List, []};
ghost use Rattle.std.specs.List.{All, join_with_byte};
ghost use Rattle.kat_ast.specs.Spec.{Spec};
ghost use Rattle.kat_syntax.specs.Machine.{MachineState};
ghost use Rattle.kat_syntax.specs.Start.{start_of};
ghost use Rattle.kat_image.specs.Image.{IsImageOf, IsFirstRefused, Lacks, lines_of};
ghost use Rattle.kat_image.specs.Lines.{LinesSetPlaces};
ghost use Rattle.kat_image.specs.ReadsBack.{HasImageNames, StatesComeBack};

/// Bytes are an image of at most one state of a specification.
pub fn one_state()
    ensures { (spec : Spec) (bytes : List ℕ) (first second : MachineState) →
        IsImageOf spec bytes first → IsImageOf spec bytes second → first ≡ second }
{}

/// Bytes have at most one first line that is not of the format, and are an image of no state where
/// they have one.
pub fn one_refusal()
    ensures line { (spec : Spec) (bytes : List ℕ) (first second : ℕ) →
        IsFirstRefused spec bytes first → IsFirstRefused spec bytes second → first ≡ second }
    ensures no_image { (spec : Spec) (bytes : List ℕ) (line : ℕ) (state : MachineState) →
        IsFirstRefused spec bytes line → IsImageOf spec bytes state → ⊥ }
{}

/// The empty text is the image of the first state, in which no line has set a place.
pub fn no_lines_are_the_start()
    ensures { (spec : Spec) → IsImageOf spec [] (start_of spec) }
{}

/// What a line sets is there: a register and a value of its type, or cells of the memory and
/// numbers that fit them.
pub fn lines_set_places()
    ensures { LinesSetPlaces }
{}

/// The lines of a text are the text, joined by newlines, and no line has a newline.
pub fn lines_are_the_text()
    ensures joined { (bytes : List ℕ) → join_with_byte 10 (lines_of bytes) ≡ bytes }
    ensures whole { (bytes : List ℕ) → All (Lacks 10) (lines_of bytes) }
{}

/// The printed text of each state of a specification is an image of that state, where the names of
/// its registers and types are words and tell them apart.
pub fn printed_states_come_back()
    ensures { (spec : Spec) → HasImageNames spec → StatesComeBack spec }
{}

//! Laws of the definition of the job. Such a function does nothing: its contract is the law.

ghost use Rattle.std.specs.Prelude.{◌≡◌, true, [], ◌∷◌, codes, Some};
ghost use Rattle.kat_words.specs.Jobs.{job_of};
ghost use Rattle.kat_words.specs.Law.{RunIsRead, is_plain};

use crate::Job;

/// A run's words in the order of the usage ask for that run, where no name or number is empty or
/// begins with a hyphen.
pub fn run_is_read(_spec: &str, _image: &str, _cycles: &str, _calls: &str)
    requires spec { is_plain _spec.now ≡ true }
    requires image { is_plain _image.now ≡ true }
    requires cycles { is_plain _cycles.now ≡ true }
    requires calls { is_plain _calls.now ≡ true }
    ensures { RunIsRead _spec.now _image.now _cycles.now _calls.now }
{}

/// `check FILE` asks for the check of that file, where its name is not empty and does not begin
/// with a hyphen.
pub fn check_is_read(_file: &str)
    requires { is_plain _file.now ≡ true }
    ensures { job_of (codes "check" ∷ _file.now ∷ []) ≡ Some (Job.Check _file.now) }
{}

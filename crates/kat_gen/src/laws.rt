//! What generated specifications are. A function here does nothing: its contract is the law.

ghost use Rattle.std.specs.Prelude.{◌≡◌, ℕ, ◌+◌, ◌*◌, length};
ghost use Rattle.kat_ast.specs.Specifications.{IsSpec};
ghost use Rattle.kat_gen.specs.Generated.{IsAsked, decls_of, generated_of};

/// The generated specification of a number has three declarations for each number below it, and
/// eight more.
pub fn generated_has_so_many()
    ensures { (n : ℕ) → length (decls_of n) ≡ 3 * n + 8 }
{}

/// The generated specification of a number, 1 to 500, is a specification of the language's text.
pub fn generated_has_its_form()
    ensures { (n : ℕ) → IsAsked n → IsSpec (generated_of n) }
{}

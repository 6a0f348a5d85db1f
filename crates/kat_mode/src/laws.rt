//! What modes are good for. A function here does nothing: its contract is the law.

ghost use Rattle.kat_mode.specs.Scopes.{InputsAreTyped};
ghost use Rattle.kat_mode.specs.Paths.{CourseByLayers, ReadingKeepsBound, ModedBindsAll};

/// Where an assertion that stays in its scope, and that the modes read, is produced or consumed,
/// from left to right, each name in each expression that is evaluated is bound at that moment,
/// whichever branch of an `if` is taken, and so is each name of an `exists` at the end of its
/// scope, behind which it is as it was before. Behind the assertion all names in scope are bound
/// but those that the modes leave unbound. In a specification that is typed and moded each
/// assertion stays in its scope, which means that no other name stands in an expression and that
/// no `exists` hides a name, and at its end all names in scope are bound: a predicate's definition
/// begins with its inputs bound, a precondition with the parameters, a postcondition with the
/// parameters, the names of the contract or lemma and a contract's result, an entry and the
/// untrusted assertion with nothing. So who walks an assertion with a list of locals, each bound
/// or not yet, has all that it needs of names at each form by the first clause: the paths of an
/// assertion are those of its layer. How many inputs a predicate has is what typing looks up.
pub fn moded_names_are_bound()
    ensures layers { CourseByLayers }
    ensures assertions { ReadingKeepsBound }
    ensures specifications { ModedBindsAll }
    ensures inputs { InputsAreTyped }
{}

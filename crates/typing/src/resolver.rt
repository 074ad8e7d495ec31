//! What a walk over a file's formulas and effects carries along.
ghost use Rattle.std.specs.Prelude.{◌≡◌, [], IfErr, IfOk};

use crate::fault::PairFault;
use crate::scope::Globals;
use crate::walk::Walk;
use indexmap::IndexMap;
use task::TypeUnion;

/// Resolves formulas and effects: the faults found so far, and the names visible where the walk is.
pub struct Resolver<'g> {
    /// The faults found so far.
    pub walk: Walk,
    /// The names visible all over the file.
    pub globals: &'g Globals<'g>,
    /// The variables in scope, each with its types.
    pub variables: IndexMap<Vec<u8>, TypeUnion>,
    /// The names of the variables that came into scope since the last precondition or goal began, as in the file, in textual order.
    pub names: Vec<Vec<u8>>,
}

impl Drop for Resolver<'_> {
    fn drop(self) {
        let Self {
            walk: _,
            globals: _,
            variables: _,
            names: _,
        } = self;
    }
}

impl<'g> Resolver<'g> {
    ghost use Rattle.std.specs.Prelude.{None};
    ghost use Rattle.typing.specs.Walk.{ReportsFound, found_by};

    /// Continues this walk with no variable in scope.
    pub fn new(walk: Walk, globals: &'g Globals<'g>) -> Resolver<'g>
        ensures globals { result.globals.now ≡ globals.now }
        ensures outside { result.variables.entries ≡ [] }
        ensures found { found_by result.walk ≡ found_by walk }
    {
        let variables = IndexMap::new(walk.alloc);
        let names = Vec::new(walk.alloc);
        Resolver {
            walk,
            globals,
            variables,
            names,
        }
    }

    /// The walk, with the faults found so far.
    pub fn into_walk(self) -> Walk
        ensures { found_by result ≡ found_by self.entry.walk }
    {
        let Self {
            walk,
            globals: _,
            variables: _,
            names: _,
        } = self;
        walk
    }

    /// Ends the walk: returns `made` if no fault was found.
    ///
    /// # Errors
    /// The faults, if any were found.
    pub fn finish<T: Drop>(self, made: T) -> Result<T, PairFault>
        ensures none { IfOk result (λ t. (t ≡ made) × ((found_by self.entry.walk).least ≡ None)) }
        ensures some { IfErr result (ReportsFound (found_by self.entry.walk)) }
    {
        self.into_walk().finish(made)
    }
}

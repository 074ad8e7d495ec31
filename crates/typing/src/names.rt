//! The names that a domain and a problem declare, and the problem's initial state and goal.
ghost use Rattle.std.specs.Prelude.{◌≡◌, ◌≤◌, [], length, IfErr, IfOk};

use crate::fault::PairFault;
use crate::formulas::FormulaWithNames;
use crate::scope::Globals;
use crate::type_names::TypeTable;
use crate::{chains, declarations, functions, objects, statements};
use indexmap::IndexMap;
use pddl_tree::{Domain, Problem, TaskFile};
use std::alloc::Global;
use task::{Atom, Predicate, TypeId};

/// The constants, and all objects with the constants first.
#[derive(Drop)]
pub struct DeclaredObjects {
    /// The constants by name, each with its type.
    pub constants: IndexMap<Vec<u8>, TypeId>,
    /// All objects by name, each with its type.
    pub all: IndexMap<Vec<u8>, TypeId>,
    ghost few_constants: { length constants.entries ≤ 65535 },
    ghost few: { length all.entries ≤ 65535 },
}

/// The names that a domain and a problem declare, each at the index of its number.
#[derive(Drop)]
pub(crate) struct Names {
    pub(crate) types: TypeTable,
    pub(crate) objects: DeclaredObjects,
    pub(crate) predicates: IndexMap<Vec<u8>, Predicate>,
    pub(crate) functions: IndexMap<Vec<u8>, Predicate>,
}

impl Names {
    ghost use Rattle.typing.specs.Task.{ReportsAll};
    ghost use Rattle.typing.specs.Declarations.{declared_faults, known_in_names, AreNamesOf};
    ghost use Rattle.typing.specs.Scope.{known_outside};
    ghost use Rattle.pddl_tree.specs.Tree.{domain_of, file_of, problem_of};
    ghost use Rattle.model.specs.Trees.{domain_file, problem_file};

    /// The names that a domain and a problem declare, after checking the declarations and the metric.
    pub(crate) fn declared(
        alloc: Global,
        domain: &Domain<'_>,
        problem: &Problem<'_>,
    ) -> Result<Names, PairFault>
        ensures ok { IfOk result (λ n. (declared_faults (domain_of domain.now) (problem_of problem.now) ≡ []) × AreNamesOf (domain_of domain.now) (problem_of problem.now) n) }
        ensures err { IfErr result (ReportsAll (declared_faults (domain_of domain.now) (problem_of problem.now))) }
    {
        let types = chains::types(alloc, domain, problem)?;
        let objects = objects::of_pair(alloc, &types, domain, problem)?;
        let predicates = declarations::predicates(alloc, &types, domain)?;
        let functions = functions::functions(alloc, &types, domain, problem)?;
        Ok(Names {
            types,
            objects,
            predicates,
            functions,
        })
    }

    /// Those visible in the domain.
    pub(crate) fn in_domain(&self) -> Globals<'_>
        ensures file { file_of result.file ≡ domain_file }
        ensures known { known_outside result ≡ known_in_names self.now self.now.objects.constants.entries }
    {
        Globals {
            file: TaskFile::Domain,
            types: &self.types,
            predicates: &self.predicates,
            functions: &self.functions,
            objects: &self.objects.constants,
        }
    }

    /// Those visible in the problem.
    pub(crate) fn in_problem(&self) -> Globals<'_>
        ensures file { file_of result.file ≡ problem_file }
        ensures known { known_outside result ≡ known_in_names self.now self.now.objects.all.entries }
    {
        Globals {
            file: TaskFile::Problem,
            types: &self.types,
            predicates: &self.predicates,
            functions: &self.functions,
            objects: &self.objects.all,
        }
    }
}

/// The problem's initial state and goal.
#[derive(Drop)]
pub(crate) struct Start {
    pub(crate) init: Vec<Atom>,
    pub(crate) values: IndexMap<Atom, u32>,
    pub(crate) goal: FormulaWithNames,
}

impl Start {
    ghost use Rattle.typing.specs.Task.{file_of, ReportsAll};
    ghost use Rattle.typing.specs.Scope.{known_outside};
    ghost use Rattle.typing.specs.Declarations.{stated_faults_in, Starts};
    ghost use Rattle.pddl_tree.specs.Tree.{problem_of};

    /// The problem's initial state and goal, given the names visible in it.
    pub(crate) fn stated_in(
        alloc: Global,
        globals: &Globals<'_>,
        problem: &Problem<'_>,
    ) -> Result<Start, PairFault>
        ensures ok { IfOk result (Starts (file_of globals.now.file) (known_outside globals.now) (problem_of problem.now)) }
        ensures err { IfErr result (ReportsAll (stated_faults_in (file_of globals.now.file) (known_outside globals.now) (problem_of problem.now))) }
    {
        let variables = IndexMap::new(alloc);
        let init = statements::init(alloc, globals, &variables, problem)?;
        let goal = statements::goal(alloc, globals, problem)?;
        Ok(Start {
            init: init.atoms,
            values: init.values,
            goal,
        })
    }
}

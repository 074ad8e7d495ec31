//! The actions of a domain.
ghost use Rattle.std.specs.Prelude.{◌≡◌, [], map, IfErr, IfOk, OnOk};
ghost use Rattle.task.specs.TaskParts as parts;
ghost use Rattle.typing.specs.Actions.{IsInDomain};
ghost use Rattle.typing.specs.Resolver.{file_in, known_to};
ghost use Rattle.typing.specs.QuantifiedNames.{quantified_names};
ghost use Rattle.typing.specs.Scope.{known_outside, names_in};
ghost use Rattle.typing.specs.Task.{file_of, ReportsAll};
ghost use Rattle.typing.specs.Walk.{Finds};
ghost use Rattle.pddl_tree.specs.Tree as read;
ghost use Rattle.model.specs.Trees.{domain_file};
ghost use Rattle.model.specs.Typing as typing;
ghost use Rattle.std.specs.List.{flat_map};

use crate::domain::{declare, put};
use crate::effects::effect;
use crate::fault::PairFault;
use crate::formulas::{condition, enter};
use crate::functions::increase;
use crate::resolver::Resolver;
use crate::scope::Globals;
use crate::typed_lists::Placed;
use crate::walk::Walk;
use faults::NoMemory;
use indexmap::IndexMap;
use pddl_tree::{Action, Domain, TaskFile};
use std::alloc::Global;
use task::{Schema, TypeUnion};

/// The schema of an action with these parameters, given the variables in scope.
fn body(
    resolver: &mut Resolver<'_>,
    parameters: Vec<TypeUnion>,
    action: &Action<'_>,
) -> Result<Schema, NoMemory>
    ensures shape { IfOk result (λ s. parts.shape_of s ≡ (
      map parts.union_of parameters.items,
      typing.formula_in (file_in resolver.old) (known_to resolver.old) (read.formula_of action.now.precondition),
      typing.effect_in (file_in resolver.old) (known_to resolver.old) (read.effect_of action.now.effect),
      typing.increase_of (known_to resolver.old) (read.action_of action.now),
    )) }
    ensures names { IfOk result (λ s. names_in s.precondition_names.items ≡ quantified_names (read.formula_of action.now.precondition)) }
    ensures finds { OnOk result (Finds resolver.old.walk resolver.new.walk (typing.body_faults (file_in resolver.old) (known_to resolver.old) (read.action_of action.now))) }
    ensures globals { OnOk result (resolver.new.globals ≡ resolver.old.globals) }
    ensures variables { OnOk result (resolver.new.variables.entries ≡ resolver.old.variables.entries) }
{
    let precondition = condition(resolver, &action.precondition)?;
    let effect = effect(resolver, &action.effect)?;
    let scope = resolver.globals.with(&resolver.variables);
    let increase = increase(&mut resolver.walk, &scope, action)?;
    Ok(Schema {
        parameters,
        precondition: precondition.formula,
        precondition_names: precondition.names,
        effect,
        increase,
    })
}

/// The schema of an action. Only its own variables are in scope in it.
fn schema(resolver: &mut Resolver<'_>, action: &Action<'_>) -> Result<Schema, NoMemory>
    requires { IsInDomain resolver.old }
    ensures shape { IfOk result (λ s. parts.shape_of s ≡ parts.shape_of_schema (typing.schema_in (known_outside resolver.old.globals.now) (read.action_of action.now))) }
    ensures names { IfOk result (λ s. names_in s.precondition_names.items ≡ quantified_names (read.action_of action.now).precondition) }
    ensures finds { OnOk result (Finds resolver.old.walk resolver.new.walk (typing.schema_faults (known_outside resolver.old.globals.now) (read.action_of action.now))) }
    ensures globals { OnOk result (resolver.new.globals ≡ resolver.old.globals) }
    ensures variables { OnOk result (resolver.new.variables.entries ≡ []) }
{
    let parameters = enter(resolver, &action.parameters)?;
    let schema = body(resolver, parameters, action)?;
    resolver.variables.truncate(0);
    Ok(schema)
}

/// Refuses actions whose name was declared before.
fn declare_actions(walk: &mut Walk, actions: &[Action<'_>]) -> Result<(), NoMemory>
    ensures { OnOk result (Finds walk.old walk.new (typing.refused 16 (typing.repeated (map (λ a. typing.placed domain_file (read.name_of a.name)) actions.now)))) }
{
    let mut names = IndexMap::new(walk.alloc);
    for action in actions {
        let placed = Placed {
            file: TaskFile::Domain,
            name: action.name,
        };
        declare(walk, &mut names, placed, ())?;
    }
    Ok(())
}

/// The schemas of a list of actions. Repeated declarations are not reported here.
fn table(
    resolver: &mut Resolver<'_>,
    actions: &[Action<'_>],
) -> Result<IndexMap<Vec<u8>, Schema>, NoMemory>
    requires { IsInDomain resolver.old }
    ensures table { IfOk result (λ m. typing.repeated (map (λ a. typing.placed domain_file (read.name_of a.name)) actions.now) ≡ []
        → map parts.schema_of m.entries ≡ map (λ a. typing.schema_in (known_outside resolver.old.globals.now) (read.action_of a)) actions.now) }
    ensures names { IfOk result (λ m. typing.repeated (map (λ a. typing.placed domain_file (read.name_of a.name)) actions.now) ≡ []
        → map parts.precondition_names_of m.entries ≡ map (λ a. quantified_names (read.action_of a).precondition) actions.now) }
    ensures finds { OnOk result (Finds resolver.old.walk resolver.new.walk (flat_map (λ a. typing.schema_faults (known_outside resolver.old.globals.now) (read.action_of a)) actions.now)) }
{
    let mut schemas = IndexMap::new(resolver.walk.alloc);
    for action in actions {
        let schema = schema(resolver, action)?;
        put(resolver.walk.alloc, &mut schemas, &action.name, schema)?;
    }
    Ok(schemas)
}

/// The domain's action schemas, given the names visible in it.
pub(crate) fn schemas(
    alloc: Global,
    globals: &Globals<'_>,
    domain: &Domain<'_>,
) -> Result<IndexMap<Vec<u8>, Schema>, PairFault>
    requires { file_of globals.now.file ≡ domain_file }
    ensures ok { IfOk result
        (λ m. (typing.action_faults (known_outside globals.now) (read.domain_of domain.now).actions ≡ [])
        × (map parts.schema_of m.entries ≡ map (typing.schema_in (known_outside globals.now)) (read.domain_of domain.now).actions)) }
    ensures names { IfOk result (λ m. map parts.precondition_names_of m.entries ≡ map (λ a. quantified_names a.precondition) (read.domain_of domain.now).actions) }
    ensures err { IfErr result (ReportsAll (typing.action_faults (known_outside globals.now) (read.domain_of domain.now).actions)) }
{
    let walk = Walk::new(alloc)?;
    let mut resolver = Resolver::new(walk, globals);
    let schemas = walked_actions(&mut resolver, domain)?;
    resolver.finish(schemas)
}

/// The same. Faults are recorded in the walk.
pub(crate) fn walked_actions(
    resolver: &mut Resolver<'_>,
    domain: &Domain<'_>,
) -> Result<IndexMap<Vec<u8>, Schema>, NoMemory>
    requires { IsInDomain resolver.old }
    ensures table { IfOk result (λ m. typing.action_faults (known_outside resolver.old.globals.now) (read.domain_of domain.now).actions ≡ []
        → map parts.schema_of m.entries ≡ map (typing.schema_in (known_outside resolver.old.globals.now)) (read.domain_of domain.now).actions) }
    ensures names { IfOk result (λ m. typing.action_faults (known_outside resolver.old.globals.now) (read.domain_of domain.now).actions ≡ []
        → map parts.precondition_names_of m.entries ≡ map (λ a. quantified_names a.precondition) (read.domain_of domain.now).actions) }
    ensures finds { OnOk result (Finds resolver.old.walk resolver.new.walk (typing.action_faults (known_outside resolver.old.globals.now) (read.domain_of domain.now).actions)) }
{
    let actions = domain.actions.as_slice();
    declare_actions(&mut resolver.walk, actions)?;
    table(resolver, actions)
}

//! What is still to be done for words, once they and their module file are read: a text that is there, a resolution to make,
//! or a save file to bring up to date or to verify.
ghost use Rattle.std.specs.Prelude.{◌≡◌, ◌≢◌, ◌≤◌, Some, Err, IfOk, IfErr};
ghost use Rattle.std.specs.List.{sum};
ghost use Rattle.edge.specs.Faults.{HasRisen};
ghost use Rattle.edge.specs.Source.{without_first, HasGivenUpTo};
ghost use Rattle.ext_words.specs.declared.command.TheConstants.{MAX_SQUARES_DEGREE};
ghost use Rattle.ext_words.specs.Words.{texts_of, AreWorkers};
ghost use Rattle.ext_report.specs.declared.failure.Failure as Failure;
ghost use Rattle.read_module.specs.Input.{IsOfInput, most_read};
ghost use Rattle.ext_run.specs.Plan.{common_for, asked_by, IsPlanWithin, IsModuleAt, IsRead, PlanReads, Reads};
ghost use Rattle.ext_run.specs.Answer.{IsLineOn, IsProduct, IsTaskCauseFrom, IsOriginCauseFrom};
ghost use Rattle.ext_run.specs.Task.{HasItsAnswer, IsTaskWithin, IsTaskOf, IsTaskFor};
ghost use Rattle.ext_run.specs.declared.plan.Form.TheVariants.{Sought as ToTell};
ghost use Rattle.ext_run.specs.declared.task.Task.TheVariants.{Resolution as ToResolve};

use crate::plan::{Form, Origin, Plan, Sought, plan_of};
use crate::sought::range_for;
use bidegree::{Range, Shape};
use edge::Source;
use ext_brackets::bracket_answer_exists;
use ext_build::built_text;
use ext_chart::{check_line, product};
use ext_products::one_product_answer_exists;
use ext_report::Failure;
use ext_table::each_layout_has_answer;
use ext_words::{Common, parse};
use memory::Memory;
use milnor_basis::Basis;
use module_check::{Module, accepted_is_module, modules_are_graded_modules};
use read_module::read_module;
use resolution_existence::canonical_table_exists;
use resolution_laws::canonical_table_is_minimal_resolution;
use sq_calc::{Mono, to_admissible, to_milnor};
use std::alloc::Global;

/// What is still to be done for words.
#[derive(Drop)]
pub enum Task {
    /// The text is made.
    Text(Vec<u8>),
    /// A module is to be resolved.
    Resolution(Resolution),
    /// The save file of this module is to get the quasi-inverses that it lacks.
    Migration(Module),
    /// The save file of this module is to be verified through this range.
    Verification(Module, Range),
}

/// A module that is to be resolved, how far and by how many workers, and what is to be told of it.
#[derive(Drop)]
pub struct Resolution {
    pub resolved: Module,
    pub common: Common,
    pub form: Form,
}

/// What the words ask for, with the module file that the source has left where they read one.
pub(crate) fn task_from<S: Source>(
    alloc: Global,
    words: &[&str],
    source: &mut S,
) -> Result<Task, Failure>
    ensures task { IfOk result (λ task. IsOfInput
        (λ bytes. IsTaskFor (asked_by (texts_of words.now)) bytes task) (S.left source.old)) }
    ensures answer { IfOk result HasItsAnswer }
    ensures limits { IfOk result IsTaskWithin }
    ensures cause { IfErr result (IsTaskCauseFrom (asked_by (texts_of words.now)) (S.left source.old)) }
    ensures reading { result ≡ Err Failure.Reading → HasRisen (S.faults source.old) (S.faults source.new) }
    ensures unread { ¬ Reads (asked_by (texts_of words.now)) → source.new ≡ source.old }
    ensures given { HasGivenUpTo most_read (S.left source.old) (S.left source.new) }
    ensures read { Reads (asked_by (texts_of words.now)) → result ≢ Err Failure.Reading →
        result ≢ Err Failure.Memory → S.left source.new ≡ without_first (S.left source.old) most_read }
    ensures never_fall { S.faults source.old ≤ S.faults source.new }
    ensures no_fault { result ≢ Err Failure.Reading → S.faults source.new ≡ S.faults source.old }
{
    canonical_table_exists();
    canonical_table_is_minimal_resolution();
    modules_are_graded_modules();
    accepted_is_module();
    each_layout_has_answer();
    one_product_answer_exists();
    bracket_answer_exists();
    let command = parse(alloc, words)?;
    task_for(alloc, plan_of(command), source)
}

/// The task of a plan.
fn task_for<S: Source>(alloc: Global, plan: Plan, source: &mut S) -> Result<Task, Failure>
    requires { IsPlanWithin plan }
    ensures task { IfOk result (λ task. IsOfInput (λ bytes. IsTaskOf plan bytes task) (S.left source.old)) }
    ensures limits { IfOk result IsTaskWithin }
    ensures cause { IfErr result (IsTaskCauseFrom (Some plan) (S.left source.old)) }
    ensures reading { result ≡ Err Failure.Reading → HasRisen (S.faults source.old) (S.faults source.new) }
    ensures unread { ¬ PlanReads plan → source.new ≡ source.old }
    ensures given { HasGivenUpTo most_read (S.left source.old) (S.left source.new) }
    ensures read { PlanReads plan → result ≢ Err Failure.Reading → result ≢ Err Failure.Memory →
        S.left source.new ≡ without_first (S.left source.old) most_read }
    ensures never_fall { S.faults source.old ≤ S.faults source.new }
    ensures no_fault { result ≢ Err Failure.Reading → S.faults source.new ≡ S.faults source.old }
{
    match plan {
        Plan::Resolve {
            origin,
            form,
            common,
        } => {
            let resolved = module_from(alloc, origin, source)?;
            Ok(to_resolve(resolved, common, form))
        }
        Plan::Seek { sought, workers } => {
            let resolved = read_module(alloc, source)?;
            Ok(to_seek(resolved, workers, sought))
        }
        Plan::Check => {
            let module = read_module(alloc, source)?;
            Ok(Task::Text(module_line(alloc, &module)?))
        }
        Plan::Build(made) => Ok(Task::Text(built_text(alloc, made, source)?)),
        Plan::Multiply(squares) => Ok(Task::Text(product_lines(alloc, &squares)?)),
        Plan::Migrate => Ok(Task::Migration(read_module(alloc, source)?)),
        Plan::Verify(range) => Ok(Task::Verification(read_module(alloc, source)?, range)),
    }
}

/// The module of an origin.
fn module_from<S: Source>(alloc: Global, origin: Origin, source: &mut S) -> Result<Module, Failure>
    ensures module { IfOk result (λ m. IsOfInput (λ bytes. IsModuleAt origin bytes m.plain) (S.left source.old)) }
    ensures cause { IfErr result (IsOriginCauseFrom origin (S.left source.old)) }
    ensures reading { result ≡ Err Failure.Reading → HasRisen (S.faults source.old) (S.faults source.new) }
    ensures unread { ¬ IsRead origin → source.new ≡ source.old }
    ensures given { HasGivenUpTo most_read (S.left source.old) (S.left source.new) }
    ensures read { IsRead origin → result ≢ Err Failure.Reading → result ≢ Err Failure.Memory →
        S.left source.new ≡ without_first (S.left source.old) most_read }
    ensures never_fall { S.faults source.old ≤ S.faults source.new }
    ensures no_fault { result ≢ Err Failure.Reading → S.faults source.new ≡ S.faults source.old }
{
    match origin {
        Origin::Sphere => Ok(Module::sphere(alloc)?),
        Origin::Sample(n) => Ok(Module::sample(alloc, n)?),
        Origin::File => read_module(alloc, source),
    }
}

/// A module to resolve as far as this, to be told in this form.
fn to_resolve(resolved: Module, common: Common, form: Form) -> Task
    ensures { result ≡ ToResolve (record { resolved = resolved; common = common; form = form }) }
{
    Task::Resolution(Resolution {
        resolved,
        common,
        form,
    })
}

/// A module to resolve by so many workers through the least range that has what is sought.
fn to_seek(resolved: Module, workers: u32, sought: Sought) -> Task
    requires { AreWorkers workers }
    ensures task { result ≡ ToResolve (record {
      resolved = resolved;
      common = common_for sought workers resolved.plain;
      form = ToTell sought;
    }) }
    ensures limits { IsTaskWithin result }
{
    let common = Common {
        range: range_for(sought, &resolved),
        shape: Shape::Rectangle,
        workers,
        save: false,
        live: false,
    };
    to_resolve(resolved, common, Form::Sought(sought))
}

/// The line on a module.
fn module_line(alloc: Global, module: &Module) -> Result<Vec<u8>, Memory>
    ensures { IfOk result (λ text. IsLineOn «module».now.plain text.items) }
{
    check_line(alloc, module.count(), module.bottom(), module.top())
}

/// The lines on a product of squares.
fn product_lines(alloc: Global, squares: &Mono) -> Result<Vec<u8>, Memory>
    requires { sum squares.now ≤ MAX_SQUARES_DEGREE }
    ensures { IfOk result (λ text. IsProduct squares.now text.items) }
{
    let Some(degree) = squares.degree() else {
        unreachable!()
    };
    let basis = Basis::new(alloc, degree)?;
    let value = to_milnor(alloc, &basis, squares)?;
    let admissible = to_admissible(alloc, &basis, degree, &value)?;
    product(alloc, &basis, degree, &value, &admissible)
}

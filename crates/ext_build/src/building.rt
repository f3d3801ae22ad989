//! What is built of the modules that a source's bytes describe.
ghost use Rattle.std.specs.Prelude.{◌≡◌, ◌≢◌, ◌≤◌, length, map, Some, None, Ok, Err, IfOk, IfErr, OnOk};
ghost use Rattle.edge.specs.Faults.{HasRisen};
ghost use Rattle.edge.specs.Source.{without_first, HasGivenUpTo};
ghost use Rattle.module_spec.specs.Spec.{File};
ghost use Rattle.finite_module.specs.Module.{Module as SteenrodModule};
ghost use Rattle.finite_module.specs.DerivedAction.{derived_module};
ghost use Rattle.module_check.specs.declared.fault.CheckFault.{CheckFault as Fault};
ghost use Rattle.module_build.specs.Limits.{limit_passed};
ghost use Rattle.module_build.specs.declared.fault.BuildFault as BuildFault;
ghost use Rattle.read_module.specs.Input.{most_read};
ghost use Rattle.ext_build.specs.Building.{wanted, built_of, first_refused, ArePartsFrom, IsAnswerToFiles, IsBuildAnswerFrom, IsBuildCauseFrom};
ghost use Rattle.ext_report.specs.declared.failure.Failure as Failure;

use edge::{Source, read_through};
use ext_report::Failure;
use ext_words::Build;
use module_build::{BuildFault, dual, file_text, shift, sum, tensor};
use module_check::Module;
use module_json::read_parts;
use module_spec::Spec;
use read_module::{module_of, most_read};
use std::alloc::Global;

/// Of how many modules something is built.
fn wanted(made: Build) -> usize
    ensures { result ≡ wanted made }
{
    match made {
        Build::Sum | Build::Tensor => 2,
        Build::Dual | Build::Shift(_) => 1,
    }
}

/// The files of so many modules that a source has left.
fn read_files<S: Source>(alloc: Global, made: Build, source: &mut S) -> Result<Vec<Spec>, Failure>
    ensures files { IfOk result (λ files. ArePartsFrom (wanted made) (S.left source.old) (Ok files.items)) }
    ensures cause { IfErr result (IsBuildCauseFrom made (S.left source.old)) }
    ensures reading { result ≡ Err Failure.Reading → HasRisen (S.faults source.old) (S.faults source.new) }
    ensures given { HasGivenUpTo most_read (S.left source.old) (S.left source.new) }
    ensures read { result ≢ Err Failure.Reading → result ≢ Err Failure.Memory →
        S.left source.new ≡ without_first (S.left source.old) most_read }
    ensures never_fall { S.faults source.old ≤ S.faults source.new }
    ensures no_fault { result ≢ Err Failure.Reading → S.faults source.new ≡ S.faults source.old }
{
    let bytes = read_through(alloc, source, most_read())?;
    Ok(read_parts(alloc, bytes.as_slice(), wanted(made))?)
}

/// The modules that files describe, from the first on.
fn modules_of(alloc: Global, mut files: Vec<Spec>) -> Result<Vec<Module>, Failure>
    ensures modules { IfOk result (λ modules. map (λ m. m.plain) modules.items ≡ map derived_module files.items) }
    ensures accepted { OnOk result (first_refused files.items ≡ None) }
    ensures cause { IfErr result (λ failure. failure ≢ Failure.Memory →
        (f : File) × (e : Fault) × (failure ≡ Failure.NotModule f e) × (first_refused files.items ≡ Some (f, e))) }
{
    let mut modules = Vec::with_capacity(alloc, files.len())?;
    while !files.is_empty() {
        let module = module_of(alloc, files.remove(0))?;
        modules.push(module)?;
    }
    Ok(modules)
}

/// What is built of modules.
fn built(alloc: Global, made: Build, modules: &[Module]) -> Result<Module, BuildFault>
    requires { length modules.now ≡ wanted made }
    ensures built { IfOk result (λ m. built_of made (map (λ m. m.plain) modules.now) ≡ Some m.plain) }
    ensures within { IfOk result (λ m. limit_passed m.plain.generators ≡ None) }
    ensures refused { IfErr result (λ e. e ≢ BuildFault.Memory →
        (m : SteenrodModule) × (built_of made (map (λ m. m.plain) modules.now) ≡ Some m)
        × (limit_passed m.generators ≡ Some e)) }
{
    match (made, modules) {
        (Build::Sum, [left, right]) => sum(alloc, left, right),
        (Build::Tensor, [left, right]) => tensor(alloc, left, right),
        (Build::Dual, [given]) => dual(alloc, given),
        (Build::Shift(n), [given]) => shift(alloc, given, n),
        _ => unreachable!(),
    }
}

/// The file of what is built of the modules that files describe.
fn built_of_files(alloc: Global, made: Build, files: Vec<Spec>) -> Result<Vec<u8>, Failure>
    requires { length files.items ≡ wanted made }
    ensures text { IfOk result (λ text. IsAnswerToFiles made files.items (Ok text.items)) }
    ensures cause { IfErr result (λ failure. failure ≢ Failure.Memory →
        IsAnswerToFiles made files.items (Err failure)) }
{
    let modules = modules_of(alloc, files)?;
    let module = built(alloc, made, modules.as_slice())?;
    Ok(file_text(alloc, &module)?)
}

/// The file of what is built of the modules that a source has left.
pub fn built_text<S: Source>(alloc: Global, made: Build, source: &mut S) -> Result<Vec<u8>, Failure>
    ensures text { IfOk result (λ text. IsBuildAnswerFrom made (S.left source.old) (Ok text.items)) }
    ensures cause { IfErr result (IsBuildCauseFrom made (S.left source.old)) }
    ensures reading { result ≡ Err Failure.Reading → HasRisen (S.faults source.old) (S.faults source.new) }
    ensures given { HasGivenUpTo most_read (S.left source.old) (S.left source.new) }
    ensures read { result ≢ Err Failure.Reading → result ≢ Err Failure.Memory →
        S.left source.new ≡ without_first (S.left source.old) most_read }
    ensures never_fall { S.faults source.old ≤ S.faults source.new }
    ensures no_fault { result ≢ Err Failure.Reading → S.faults source.new ≡ S.faults source.old }
{
    let files = read_files(alloc, made, source)?;
    built_of_files(alloc, made, files)
}
